//! One thread that holds a terminal's seat and the clerk's.
ghost use Rattle.std.specs.Prelude.{◌≡◌, ◌<◌, length, Some, IsSome};
ghost use Rattle.lift_desk.specs.Seats.{IsSeatOf, IsClerkOf, view_at};
ghost use Rattle.lift_desk_tests.specs.Even.{IsEven, IsOwed};

use lift_base::{Body, Number, Reply};
use lift_desk::{Ask, ClerkSeat, Desk, Seat};

/// Asks and takes the ask: just this one, if a turn is left.
pub fn ask_and_take(
    desk: &Desk,
    seat: &mut Seat,
    clerk: &mut ClerkSeat,
    number: Number,
    body: Body,
) -> Option<Ask>
    requires seat { IsSeatOf desk.now seat.old }
    requires clerk { IsClerkOf desk.now clerk.old }
    requires terminal { seat.old.terminal < length desk.now }
    requires even { IsEven seat.old.view (view_at clerk.old seat.old.terminal) }
    ensures exact { length seat.old.view.asked < 1048575
        → result ≡ Some (record { number = number; body = body }) }
    ensures owed { IsSome result → IsOwed seat.new.view (view_at clerk.new seat.new.terminal) }
    ensures same { seat.new.terminal ≡ seat.old.terminal }
    ensures stays { IsSeatOf desk.now seat.new × IsClerkOf desk.now clerk.new }
{
    let terminal = seat.terminal();
    match desk.ask(seat, number, body) {
        Ok(()) => desk.tell(seat, clerk),
        Err(_) => return None,
    }
    desk.look(clerk, terminal)
}

/// Answers what was taken and hears the answer: just this one.
pub fn answer_and_hear(
    desk: &Desk,
    seat: &mut Seat,
    clerk: &mut ClerkSeat,
    reply: Reply,
) -> Option<Reply>
    requires seat { IsSeatOf desk.now seat.old }
    requires clerk { IsClerkOf desk.now clerk.old }
    requires terminal { seat.old.terminal < length desk.now }
    requires owed { IsOwed seat.old.view (view_at clerk.old seat.old.terminal) }
    ensures exact { result ≡ Some reply }
    ensures even { IsEven seat.new.view (view_at clerk.new seat.new.terminal) }
    ensures same { seat.new.terminal ≡ seat.old.terminal }
    ensures stays { IsSeatOf desk.now seat.new × IsClerkOf desk.now clerk.new }
{
    desk.answer(clerk, seat.terminal(), reply);
    desk.tell(seat, clerk);
    desk.hear(seat)
}
