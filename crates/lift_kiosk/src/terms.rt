//! What a session begins with, and how it ends.

ghost use Rattle.std.specs.Prelude.{◌≡◌};
ghost use Rattle.lift_kiosk.specs.Session.{later};

use lift_base::{Letter, Number};

/// The last command of a terminal that is known to be in: its number, and for a kiosk the letter
/// that it got.
#[derive(Clone, Copy, PartialEq, Eq)]
pub struct LastLetter {
    pub number: Number,
    pub letter: Option<Letter>,
}

impl LastLetter {
    /// The command of this number and letter where its number is above this one's, or else this one.
    pub fn or_later(&self, number: Number, letter: Option<Letter>) -> LastLetter
        ensures { result ≡ later self.now number letter }
    {
        if number.get() > self.number.get() {
            LastLetter { number, letter }
        } else {
            *self
        }
    }
}

/// What a session may use at most.
#[derive(Clone, Copy)]
pub struct Limits {
    /// Lines answered.
    pub lines: u32,
    /// Looks for each answer.
    pub looks: u32,
    /// Calls of the reader.
    pub reads: u32,
}

/// Why a session ended.
#[derive(Clone, Copy, PartialEq, Eq)]
pub enum End {
    /// The reader was at its end.
    Closed,
    /// All lines were answered, or all calls of the reader were used.
    Limit,
    /// No answer was heard in time.
    Late,
    /// The terminal has no turn left.
    Spent,
    /// A call of the reader failed.
    ReadFault,
    /// The writer took no more.
    WriteFault,
}

/// The last command that is known after a session, and why it ended.
#[derive(Clone, Copy)]
pub struct SessionEnd {
    pub last: LastLetter,
    pub end: End,
}
