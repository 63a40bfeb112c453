//! Numbers that are always in range.
ghost use Rattle.std.specs.Prelude.{◌≡◌, ℕ, ◌+◌, ◌-◌, ◌<◌, ◌≤◌, ◌↔◌, IsTrue, IsSome, IfSome};
ghost use Rattle.lift_base.specs.declared.limits.TheConstants.{MOST_CARS, MOST_FLOORS};
ghost use Rattle.lift_base.specs.declared.limits.TheConstants.{MOST_TERMINALS};

use crate::limits::{FIRST_KIOSK, MOST_CARS, MOST_FLOORS, MOST_KIOSKS, MOST_TERMINALS};
use std::marker::Model;

/// A floor of a building, 0 to 63.
#[derive(Clone, Copy, PartialEq, Eq, PartialOrd)]
pub struct Floor {
    number: u8,
}

impl Model for Floor {
    ghost Value = { ℕ };

    ghost view = { λ f. f.number };

    ghost invariant = { λ f. f.number < MOST_FLOORS };

    ghost inverse = { λ n. record { number = n } };
}

impl Floor {
    /// The floor with this number; none above 63.
    pub fn new(number: u8) -> Option<Self>
        ensures valid { IsSome result ↔ (number < MOST_FLOORS) }
        ensures value { IfSome result (λ floor. floor ≡ number) }
    {
        if number < MOST_FLOORS as u8 {
            Some(Floor { number })
        } else {
            None
        }
    }

    /// Its number, 0 to 63.
    pub fn get(self) -> u8
        ensures value { result ≡ self }
        ensures in_range { result < MOST_FLOORS }
    {
        self.number
    }
}

impl Default for Floor {
    ghost is_default = { λ f. f ≡ 0 };

    fn default() -> Self {
        Floor { number: 0 }
    }
}

/// A car, 0 to 15, named by the letters A to P.
#[derive(Clone, Copy, PartialEq, Eq)]
pub struct Letter {
    index: u8,
}

impl Model for Letter {
    ghost Value = { ℕ };

    ghost view = { λ l. l.index };

    ghost invariant = { λ l. l.index < MOST_CARS };

    ghost inverse = { λ n. record { index = n } };
}

impl Letter {
    /// The car with this index, counted from 0; none above 15.
    pub fn new(index: u8) -> Option<Self>
        ensures valid { IsSome result ↔ (index < MOST_CARS) }
        ensures value { IfSome result (λ letter. letter ≡ index) }
    {
        if index < MOST_CARS as u8 {
            Some(Letter { index })
        } else {
            None
        }
    }

    /// Its index, 0 to 15.
    pub fn get(self) -> u8
        ensures value { result ≡ self }
        ensures in_range { result < MOST_CARS }
    {
        self.index
    }
}

impl Default for Letter {
    ghost is_default = { λ l. l ≡ 0 };

    fn default() -> Self {
        Letter { index: 0 }
    }
}

/// A terminal of the desk, 0 to 62: the cars are 0 to 15, the kiosks 16 to 62.
#[derive(Clone, Copy, PartialEq, Eq)]
pub struct Terminal {
    index: u8,
}

impl Model for Terminal {
    ghost Value = { ℕ };

    ghost view = { λ t. t.index };

    ghost invariant = { λ t. t.index < MOST_TERMINALS };

    ghost inverse = { λ n. record { index = n } };
}

impl Terminal {
    /// The terminal with this index, counted from 0; none above 62.
    pub fn new(index: u8) -> Option<Self>
        ensures valid { IsSome result ↔ (index < MOST_TERMINALS) }
        ensures value { IfSome result (λ terminal. terminal ≡ index) }
    {
        if index < MOST_TERMINALS as u8 {
            Some(Terminal { index })
        } else {
            None
        }
    }

    /// Its index, 0 to 62.
    pub fn get(self) -> u8
        ensures value { result ≡ self }
        ensures in_range { result < MOST_TERMINALS }
    {
        self.index
    }

    /// The terminal in the car of this letter.
    pub fn of_car(car: Letter) -> Self
        ensures value { result ≡ car }
        ensures in_range { result < MOST_CARS }
    {
        Terminal { index: car.get() }
    }

    /// The terminal of the kiosk with this index, counted from 0.
    pub fn of_kiosk(kiosk: u8) -> Option<Self>
        ensures valid { IsSome result ↔ (kiosk < MOST_KIOSKS) }
        ensures value { IfSome result (λ terminal. terminal ≡ FIRST_KIOSK + kiosk) }
    {
        if kiosk < MOST_KIOSKS as u8 {
            Some(Terminal {
                index: FIRST_KIOSK + kiosk,
            })
        } else {
            None
        }
    }

    /// Whether it is a kiosk's, 16 to 62.
    pub fn is_kiosk(self) -> bool
        ensures { IsTrue result ↔ (FIRST_KIOSK ≤ self) }
    {
        self.index >= FIRST_KIOSK
    }

    /// The car that this terminal stands in.
    pub fn car(self) -> Option<Letter>
        ensures valid { IsSome result ↔ (self < MOST_CARS) }
        ensures value { IfSome result (λ car. car ≡ self) }
    {
        Letter::new(self.index)
    }

    /// The index of this kiosk, counted from 0.
    pub fn kiosk(self) -> Option<u8>
        ensures valid { IsSome result ↔ (FIRST_KIOSK ≤ self) }
        ensures value { IfSome result (λ kiosk. (kiosk + FIRST_KIOSK ≡ self) × (kiosk < MOST_KIOSKS)) }
    {
        if self.index >= FIRST_KIOSK {
            Some(self.index - FIRST_KIOSK)
        } else {
            None
        }
    }
}

impl Default for Terminal {
    ghost is_default = { λ t. t ≡ 0 };

    fn default() -> Self {
        Terminal { index: 0 }
    }
}

/// The number of a command at its terminal, 0 to 16,777,215. Calls and stops count from 1.
#[derive(Clone, Copy, PartialEq, Eq)]
pub struct Number {
    value: u32,
}

impl Model for Number {
    ghost Value = { ℕ };

    ghost view = { λ n. n.value };

    ghost invariant = { λ n. n.value < 16777216 };

    ghost inverse = { λ n. record { value = n } };
}

impl Number {
    /// This number; none above 16,777,215.
    pub fn new(value: u32) -> Option<Self>
        ensures valid { IsSome result ↔ (value < 16777216) }
        ensures value { IfSome result (λ number. number ≡ value) }
    {
        if value < 16_777_216 {
            Some(Number { value })
        } else {
            None
        }
    }

    /// Its value, 0 to 16,777,215.
    pub fn get(self) -> u32
        ensures value { result ≡ self }
        ensures in_range { result < 16777216 }
    {
        self.value
    }
}

impl Default for Number {
    ghost is_default = { λ n. n ≡ 0 };

    fn default() -> Self {
        Number { value: 0 }
    }
}

/// How many persons a call is for, 1 to 15.
#[derive(Clone, Copy, PartialEq, Eq)]
pub struct Party {
    persons: u8,
}

impl Model for Party {
    ghost Value = { ℕ };

    ghost view = { λ p. p.persons };

    ghost invariant = { λ p. (1 ≤ p.persons) × (p.persons ≤ 15) };

    ghost inverse = { λ n. record { persons = n } };
}

impl Party {
    /// A party of so many persons; none outside 1 to 15.
    pub fn new(persons: u8) -> Option<Self>
        ensures valid { IsSome result ↔ ((1 ≤ persons) × (persons ≤ 15)) }
        ensures value { IfSome result (λ party. party ≡ persons) }
    {
        if 1 <= persons && persons <= 15 {
            Some(Party { persons })
        } else {
            None
        }
    }

    /// The number of persons.
    pub fn get(self) -> u8
        ensures value { result ≡ self }
        ensures in_range { (1 ≤ result) × (result ≤ 15) }
    {
        self.persons
    }
}

/// A party of one, which is meant where none is named.
impl Default for Party {
    ghost is_default = { λ p. p ≡ 1 };

    fn default() -> Self {
        Party { persons: 1 }
    }
}
