//! Where a terminal asks and hears.

ghost use Rattle.std.specs.Prelude.{◌≡◌, ◌↔◌, ◌≢◌, IsSome, IfSome, IfNone, OnOk, OnErr, None, Err};
ghost use Rattle.std.specs.Prelude.{true};
ghost use Rattle.lift_kiosk.specs.Port.{PortView, PortPlace, AsksOne};
ghost use Rattle.lift_kiosk.specs.Hearing.{missed, rested, heard};

use lift_base::{Body, Number, Reply};
use lift_desk::AskRefusal;

/// A terminal's way to the clerk: one ask at a time, whose answer is looked for.
pub trait Port {
    ghost view: { Self → PortView };

    // the seat, which stays
    ghost place: { Self → PortPlace };

    /// The number of the ask whose answer was not heard; none where each was.
    fn pending(&self) -> Option<Number>
        ensures { result ≡ (view self.now).pending };

    /// Stores an ask. It is refused while the last one was not heard, and then where no turn is
    /// left; a refusal stores nothing.
    fn ask(&mut self, number: Number, body: Body) -> Result<(), AskRefusal>
        ensures waiting { (result ≡ Err AskRefusal.Waiting) ↔ ((view self.old).pending ≢ None) }
        ensures spent { (result ≡ Err AskRefusal.Spent)
            ↔ (((view self.old).pending ≡ None) × ((view self.old).spent ≡ true)) }
        ensures ok { OnOk result
            (AsksOne (view self.old) (record { number = number; body = body }) (view self.new)) }
        ensures err { OnErr result (view self.new ≡ view self.old) }
        ensures stays { place self.new ≡ place self.old };

    /// Looks once for the answer, and gives it once.
    fn hear(&mut self) -> Option<Reply>
        ensures awaited { IsSome result → (view self.old).pending ≢ None }
        ensures some { IfSome result (λ reply. view self.new ≡ heard (view self.old) reply) }
        ensures none { IfNone result (view self.new ≡ missed (view self.old)) }
        ensures stays { place self.new ≡ place self.old };

    /// Between two looks. It asks and hears nothing.
    fn rest(&mut self)
        ensures view { view self.new ≡ rested (view self.old) }
        ensures stays { place self.new ≡ place self.old };
}
