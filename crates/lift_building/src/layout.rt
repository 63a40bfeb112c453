//! The parts of a building as they are kept.

ghost use Rattle.std.specs.Prelude.{◌≡◌, [], slice_index_or};
ghost use Rattle.lift_building.specs.Plan.{flight_ms, places_of, serves_floor};
ghost use Rattle.lift_building.specs.Layout.{layout_view};

use arrayvec::ArrayVec;
use lift_base::{Floor, MOST_CARS, MOST_FLOORS, MOST_KIOSKS};

/// The flights from one floor, by the floor that they go to.
pub(crate) type Flights = ArrayVec<u32, MOST_FLOORS>;

#[derive(Drop, Default)]
pub(crate) struct Car {
    pub(crate) places: u8,
    /// For each floor whether the car serves it.
    pub(crate) served: ArrayVec<bool, MOST_FLOORS>,
}

#[derive(Drop)]
pub(crate) struct Layout {
    pub(crate) floors: u32,
    pub(crate) door_ms: u32,
    pub(crate) kiosks: ArrayVec<Floor, MOST_KIOSKS>,
    pub(crate) flights: ArrayVec<Flights, MOST_FLOORS>,
    pub(crate) cars: ArrayVec<Car, MOST_CARS>,
}

impl Layout {
    /// The flights from a floor.
    pub(crate) fn flights_from(&self, i: usize) -> &[u32]
        ensures { result.now ≡ slice_index_or (layout_view self.now).flights i [] }
    {
        match self.flights.get(i) {
            Some(row) => row.as_slice(),
            None => &[],
        }
    }

    /// The time of a flight.
    pub(crate) fn flight(&self, i: usize, j: usize) -> u32
        ensures { result ≡ flight_ms (layout_view self.now) i j }
    {
        match self.flights.get(i) {
            Some(row) => row.get(j).copied().unwrap_or(0),
            None => 0,
        }
    }

    /// How many persons a car takes.
    pub(crate) fn places(&self, car: usize) -> u8
        ensures { result ≡ places_of (layout_view self.now) car }
    {
        match self.cars.get(car) {
            Some(car) => car.places,
            None => 0,
        }
    }

    /// Whether a car serves a floor.
    pub(crate) fn serves(&self, car: usize, floor: usize) -> bool
        ensures { result ≡ serves_floor (layout_view self.now) car floor }
    {
        match self.cars.get(car) {
            Some(car) => car.served.get(floor).copied().unwrap_or(false),
            None => false,
        }
    }
}
