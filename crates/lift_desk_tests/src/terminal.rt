//! A terminal's side: one ask, and looks for its answer up to a limit.
ghost use Rattle.std.specs.Prelude.{◌≡◌, ℕ, ◌+◌, suc, length, [], ◌∷◌, ◌++◌};
ghost use Rattle.lift_desk.specs.Words.{ask_word, last_of, number_of, reply_word};
ghost use Rattle.lift_desk.specs.Seats.{IsSeatOf, Waits};
ghost use Rattle.lift_desk_tests.specs.Visit.{IsAskVisit};

use lift_base::{Body, Number, Reply};
use lift_desk::{Desk, Seat};
use std::thread;

/// How a visit ends.
#[derive(Clone, Copy, PartialEq, Eq)]
pub enum Answer {
    /// The ask's answer.
    Heard(Reply),
    /// No look found the answer.
    Late,
    /// The desk took no ask.
    Refused,
}

/// Asks, and looks for the answer at most this many times.
pub fn ask_and_hear(desk: &Desk, seat: &mut Seat, number: Number, body: Body, looks: u32) -> Answer
    requires { IsSeatOf desk.now seat.old }
    ensures stays { IsSeatOf desk.now seat.new }
    ensures visit { IsAskVisit seat.old.view number body looks result seat.new.view }
{
    if desk.ask(seat, number, body).is_err() {
        return Answer::Refused;
    }
    for _ in 0..looks {
        if let Some(reply) = desk.hear(seat) {
            return Answer::Heard(reply);
        }
        thread::yield_now();
    }
    Answer::Late
}
