//! What terminals ask, and what they are answered.
ghost use Rattle.std.specs.Prelude.{◌≡◌, ◌↔◌, IsSome, IfSome};
ghost use Rattle.lift_base.specs.Command.{reason_number, IsReasonNumber};

use crate::checked::{Floor, Letter, Party};
use crate::travel::{Dir, Stop};

/// What a terminal asks: a kiosk for a car to a floor for a party, a car to report a stop or its
/// position.
#[derive(Clone, Copy, PartialEq, Eq)]
pub enum Body {
    /// The floor that the passengers go to, and how many they are.
    Call(Floor, Party),
    /// The exchange of passengers at a floor is over; those who go in this direction have boarded.
    Stop(Floor, Dir),
    /// The next floor at which the car can still stop, and its direction.
    Place(Floor, Dir),
}

/// The blank of a list with fixed room.
impl Default for Body {
    fn default() -> Self {
        Body::Call(Floor::default(), Party::default())
    }
}

/// Why a command is refused.
#[derive(Clone, Copy, PartialEq, Eq)]
pub enum Reason {
    /// The floor is not in the building.
    NoSuchFloor,
    /// The call is to the kiosk's own floor.
    SameFloor,
    /// No car is eligible for the call.
    NoCar,
    /// The number is 0 or below the terminal's last one.
    OldNumber,
    /// The number leaves a gap after the terminal's last one.
    GapNumber,
    /// The number is the terminal's last one, with other content.
    OtherBody,
    /// The building has no such terminal, or the command is not one of its kind.
    WrongKind,
    /// The journal has no room.
    Full,
    /// The car does not serve the floor.
    NotServed,
}

impl Reason {
    /// The number by which the desk's words and the reports name this reason.
    pub fn number(self) -> u8
        ensures { result ≡ reason_number self }
    {
        match self {
            Reason::NoSuchFloor => 1,
            Reason::SameFloor => 2,
            Reason::NoCar => 3,
            Reason::OldNumber => 4,
            Reason::GapNumber => 5,
            Reason::OtherBody => 6,
            Reason::WrongKind => 7,
            Reason::Full => 8,
            Reason::NotServed => 11,
        }
    }

    /// The reason with this number; none for 0, 9, 10 and above 11.
    pub fn from_number(number: u8) -> Option<Self>
        ensures valid { IsSome result ↔ IsReasonNumber number }
        ensures value { IfSome result (λ reason. reason_number reason ≡ number) }
    {
        match number {
            1 => Some(Reason::NoSuchFloor),
            2 => Some(Reason::SameFloor),
            3 => Some(Reason::NoCar),
            4 => Some(Reason::OldNumber),
            5 => Some(Reason::GapNumber),
            6 => Some(Reason::OtherBody),
            7 => Some(Reason::WrongKind),
            8 => Some(Reason::Full),
            11 => Some(Reason::NotServed),
            _ => None,
        }
    }
}

/// What a terminal is answered.
#[derive(Clone, Copy, Default, PartialEq, Eq)]
pub enum Reply {
    /// The call's car.
    Car(Letter),
    /// The stop is taken, and this is the car's next one.
    Stopped(Option<Stop>),
    /// The position is taken, and this is the car's next stop.
    Placed(Option<Stop>),
    Refused(Reason),
    /// The disk failed, so the command may be in or out.
    #[default]
    Unknown,
}
