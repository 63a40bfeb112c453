//! Where cars are, and where they stop.
ghost use Rattle.std.specs.Prelude.{◌≡◌};
ghost use Rattle.lift_base.specs.Travel.{reverse_of, pass_number};

use crate::checked::Floor;

/// A direction of travel.
#[derive(Clone, Copy, Default, PartialEq, Eq)]
pub enum Dir {
    /// To higher floors.
    #[default]
    Up,
    /// To lower floors.
    Down,
}

impl Dir {
    /// The other direction.
    pub fn reverse(self) -> Self
        ensures { result ≡ reverse_of self }
    {
        match self {
            Dir::Up => Dir::Down,
            Dir::Down => Dir::Up,
        }
    }
}

/// Where a car is: the next floor at which it can still stop, and its direction.
#[derive(Clone, Copy, Default, PartialEq, Eq)]
pub struct Position {
    /// The next floor at which it can still stop.
    pub floor: Floor,
    /// An idle car keeps its last direction.
    pub dir: Dir,
}

/// A stop of a car: the floor, and the direction of the passengers who may board.
#[derive(Clone, Copy, Default, PartialEq, Eq)]
pub struct Stop {
    /// Where those aboard for it leave, whatever the direction is.
    pub floor: Floor,
    /// The direction of those who may board.
    pub dir: Dir,
}

/// The part of a car's round in which it reaches a floor: on its way now, on the way back, or on
/// the way after that.
#[derive(Clone, Copy, Default, PartialEq, Eq)]
pub enum Pass {
    /// On its way now.
    #[default]
    First,
    /// On the way back.
    Second,
    /// On the way after that.
    Third,
}

impl Pass {
    /// The number that reports show.
    pub fn number(self) -> u8
        ensures { result ≡ pass_number self }
    {
        match self {
            Pass::First => 1,
            Pass::Second => 2,
            Pass::Third => 3,
        }
    }
}

/// A floor that a car has to stop at, in one of its passes.
#[derive(Clone, Copy, Default, PartialEq, Eq)]
pub struct Halt {
    /// When it is reached, in passes.
    pub pass: Pass,
    /// Where it is.
    pub floor: Floor,
}
