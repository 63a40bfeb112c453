//! New calls.
ghost use Rattle.std.specs.Prelude.{◌≡◌};
ghost use Rattle.lift_cost.specs.Cost.{new_call_row};

use lift_base::{Floor, Letter, Number, Party, Row, Terminal};

/// A call that no car has taken yet, for a party of passengers.
#[derive(Clone, Copy)]
pub struct NewCall {
    /// Where it is asked.
    pub from: Floor,
    /// Where its passengers go.
    pub to: Floor,
    /// How many they are.
    pub party: Party,
}

/// The call as an open one whose passengers wait.
pub fn waiting_row(call: &NewCall) -> Row
    ensures { result ≡ new_call_row call.now }
{
    Row {
        kiosk: Terminal::default(),
        number: Number::default(),
        from: call.from,
        to: call.to,
        car: Letter::default(),
        party: call.party,
        aboard: false,
    }
}
