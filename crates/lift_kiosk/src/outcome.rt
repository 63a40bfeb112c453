//! What comes of a session's start and of each of its lines, and what is said of it.

use lift_base::{Number, Reply};
use lift_desk::Ask;

/// What was found of an ask of an earlier session.
#[derive(Clone, Copy)]
pub enum Opening {
    /// There is none that was not heard.
    Free,
    /// The answer to the ask of this number.
    BroughtIn(Number, Reply),
    /// No answer in time.
    StillWaits,
}

/// What came of a line.
#[derive(Clone, Copy)]
pub enum Outcome {
    /// It spells no command.
    Malformed,
    /// Its floor is in no building.
    OffFloors,
    /// It was asked and answered.
    Answered(Ask, Reply),
    /// It was asked, and no answer was heard in time.
    NotAnswered(Ask),
    /// No turn was left to ask it.
    Refused(Ask),
}
