//! Two seats for the clerk: one takes asks ahead, and the other looks again and answers.
ghost use Rattle.std.specs.Prelude.{◌≡◌, ◌+◌, ◌<◌, ◌≤◌, length};
ghost use Rattle.lift_desk.specs.Words.{last_of, turn_of};
ghost use Rattle.lift_desk.specs.Seats.{IsClerkOf, IsSeatOf, view_at};

use lift_base::{Reply, Terminal};
use lift_desk::{Ask, ClerkSeat, Desk, Lender, Seat, TakeSeat};

/// Looks at the terminal, and answers what was taken ahead where this look finds it too. The number of
/// the asks answered, 0 or 1.
fn look_and_answer(
    desk: &Desk,
    clerk: &mut ClerkSeat<Lender>,
    terminal: Terminal,
    reply: Reply,
    first: bool,
) -> u8
    requires clerk { IsClerkOf desk.now clerk.old }
    requires terminal { terminal < length desk.now }
    ensures stays { IsClerkOf desk.now clerk.new }
    ensures looks { (view_at clerk.new terminal).looks ≡ (view_at clerk.old terminal).looks + 1 }
    ensures answers { length (view_at clerk.new terminal).answered
        ≡ length (view_at clerk.old terminal).answered + result }
{
    if desk.look(clerk, terminal).is_some() && first {
        desk.answer(clerk, terminal, reply);
        return 1;
    }
    0
}

/// Takes an ask of the terminal ahead, looks at it again, and answers it. The number of the asks
/// answered, 0 or 1.
pub fn relay_once(
    desk: &Desk,
    clerk: ClerkSeat,
    terminal: Terminal,
    reply: Reply,
) -> (ClerkSeat, u8)
    requires clerk { IsClerkOf desk.now clerk }
    requires terminal { terminal < length desk.now }
    ensures stays { IsClerkOf desk.now result.0 }
    // One look by each of the two seats.
    ensures looks { (view_at result.0 terminal).looks ≡ (view_at clerk terminal).looks + 2 }
    ensures answers { length (view_at result.0 terminal).answered
        ≡ length (view_at clerk terminal).answered + result.1 }
{
    let (mut ahead, mut clerk) = desk.split(clerk);
    let first = desk.take(&mut ahead, terminal).is_some();
    let answered = look_and_answer(desk, &mut clerk, terminal, reply, first);
    (desk.join(ahead, clerk), answered)
}

/// Takes ahead what the terminal has asked, at least up to its last ask.
pub fn take_asked(desk: &Desk, seat: &mut Seat, ahead: &mut TakeSeat) -> Option<Ask>
    requires seat { IsSeatOf desk.now seat.old }
    requires ahead { IsClerkOf desk.now ahead.old }
    requires terminal { seat.old.terminal < length desk.now }
    ensures whole { length seat.old.view.asked
        ≤ turn_of (last_of (view_at ahead.new seat.old.terminal).taken) }
    ensures same { seat.new ≡ seat.old }
    ensures stays { IsClerkOf desk.now ahead.new }
{
    let terminal = seat.terminal();
    desk.tell_ahead(seat, ahead);
    desk.take(ahead, terminal)
}
