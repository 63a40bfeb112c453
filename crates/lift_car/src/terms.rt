//! How a car's session and its drive end.

use lift_base::{Number, Reason};
use lift_kiosk::End;

/// The number of the last stop that is known to be in, after a session, and why the session ended.
#[derive(Clone, Copy)]
pub struct CarEnd {
    pub last: Number,
    pub end: End,
}

/// Why a drive ended.
#[derive(Clone, Copy, PartialEq, Eq)]
pub enum Ending {
    /// All asks were made, or no number is left for a further stop.
    Limit,
    /// No answer was heard in time.
    Late,
    /// The terminal has no turn left.
    Spent,
    /// An ask was refused.
    Refused(Reason),
    /// An ask was answered Unknown.
    Unknown,
}

/// The number of the last stop that is known to be in, after a drive, and why the drive ended.
#[derive(Clone, Copy)]
pub struct DriveEnd {
    pub last: Number,
    pub end: Ending,
}
