//! Why a text is no building.

ghost use Rattle.std.specs.Prelude.{◌≡◌};

use crate::refused::NoMemory;
use lift_base::Floor;

/// A key of the building's text.
#[derive(Clone, Copy, PartialEq)]
pub enum Field {
    /// The number of floors, 2 to 64.
    Floors,
    /// What a stop takes before the next flight, 0 to 60,000 ms.
    DoorMs,
    /// The floor of each of 1 to 47 kiosks.
    Kiosks,
    /// The flights in ms, a row for each floor.
    Flight,
    /// 1 to 16 cars.
    Cars,
    /// The persons that a car takes, 1 to 32.
    Places,
    /// The floors that a car serves; all where it is absent.
    Serves,
}

impl Field {
    ghost use Rattle.lift_building.specs.Text.{name_of};

    /// The key, as the text writes it.
    pub fn name(self) -> &'static str
        ensures { result.now ≡ name_of self }
    {
        match self {
            Field::Floors => "floors",
            Field::DoorMs => "door_ms",
            Field::Kiosks => "kiosks",
            Field::Flight => "flight",
            Field::Cars => "cars",
            Field::Places => "places",
            Field::Serves => "serves",
        }
    }
}

/// The first fault of a building's text, or the want of memory.
#[derive(Drop)]
pub enum BuildingFault {
    /// The text is no TOML document.
    NotToml,
    /// The key is not there.
    Missing(Field),
    /// The key's value is of another type.
    WrongType(Field),
    /// A number, or the number of items, is outside its range.
    OutOfRange(Field),
    /// The table of flights has not a row for each floor, or a row has not a flight for each floor.
    TableShape,
    /// The flight from the first floor to the third is longer than with a stop at the second.
    Detour(Floor, Floor, Floor),
    /// No memory was left for the text: a growth was refused.
    Memory(NoMemory),
}

impl BuildingFault {
    ghost use Rattle.lift_building.specs.Text.{fault_number};

    /// The number that reports show, 1 to 7.
    pub fn number(&self) -> u8
        ensures { result ≡ fault_number self.now }
    {
        match self {
            BuildingFault::NotToml => 1,
            BuildingFault::Missing(_) => 2,
            BuildingFault::WrongType(_) => 3,
            BuildingFault::OutOfRange(_) => 4,
            BuildingFault::TableShape => 5,
            BuildingFault::Detour(_, _, _) => 6,
            BuildingFault::Memory(_) => 7,
        }
    }
}
