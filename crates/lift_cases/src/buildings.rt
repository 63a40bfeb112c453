//! Buildings: what is in them, or why they are refused.
use crate::cases::Came;
use lift_base::{Floor, Letter};
use lift_building::{Building, BuildingFault};
use std::alloc::Global;

fn floor(number: u8) -> Floor {
    Floor::new(number).unwrap_or_default()
}

/// The flights from a floor, added up.
fn flights_from(building: &Building, from: u8) -> u64 {
    let mut sum = 0u64;
    for to in 0..building.floors() {
        sum = sum.wrapping_add(u64::from(building.flight(floor(from), floor(to))));
    }
    sum
}

fn all_flights(building: &Building) -> u64 {
    let mut sum = 0u64;
    for from in 0..building.floors() {
        sum = sum.wrapping_add(flights_from(building, from));
    }
    sum
}

fn show_kiosks(came: &mut Came, building: &Building) {
    came.line("kiosks");
    for kiosk in 0..building.kiosks() {
        came.word(building.kiosk_floor(kiosk).get());
    }
}

/// A car's places, and a sign for each floor: `+` where it serves it.
fn show_car(came: &mut Came, building: &Building, car: Letter) {
    came.line("car");
    came.word(car.get());
    came.word("places");
    came.word(building.places(car));
    came.word("");
    for number in 0..building.floors() {
        let serves = building.serves(car, floor(number));
        came.joined(if serves { '+' } else { '.' });
    }
}

/// What is answered of the floor above the top and the car after the last: no flight, no places,
/// no floors.
fn show_beyond(came: &mut Came, building: &Building) {
    let (Some(above), Some(behind)) = (Floor::new(building.floors()), Letter::new(building.cars()))
    else {
        return;
    };
    came.line("beyond");
    came.word("up");
    show_flights(came, building, floor(0), above);
    came.word("places");
    came.word(building.places(behind));
    came.word("serves");
    came.word(building.serves(Letter::default(), above));
    came.word(building.serves(behind, floor(0)));
}

/// The flights between two floors, both ways, after the word `up`.
fn show_flights(came: &mut Came, building: &Building, low: Floor, high: Floor) {
    came.word(building.flight(low, high));
    came.word("down");
    came.word(building.flight(high, low));
}

/// How many floors, cars, kiosks and sectors an image of it is for.
fn show_shape(came: &mut Came, building: &Building) {
    let shape = building.shape(64);
    came.line("shape");
    came.word(shape.floors);
    came.word(shape.cars);
    came.word(shape.kiosks);
    came.word(shape.half);
}

fn show(came: &mut Came, building: &Building) {
    came.word("floors");
    came.word(building.floors());
    came.word("door");
    came.word(building.door_ms());
    came.word("flights");
    came.word(all_flights(building));
    came.line("up");
    show_flights(came, building, floor(0), floor(building.floors() - 1));
    show_shape(came, building);
    show_kiosks(came, building);
    for car in 0..building.cars() {
        show_car(came, building, Letter::new(car).unwrap_or_default());
    }
    show_beyond(came, building);
}

/// The key that a fault names.
fn key_of(fault: &BuildingFault) -> Option<&'static str> {
    match fault {
        BuildingFault::Missing(field) => Some(field.name()),
        BuildingFault::WrongType(field) => Some(field.name()),
        BuildingFault::OutOfRange(field) => Some(field.name()),
        _ => None,
    }
}

/// The number of a fault, and the key or the floors that it names.
fn show_fault(came: &mut Came, fault: &BuildingFault) {
    came.word("fault");
    came.word(fault.number());
    if let Some(key) = key_of(fault) {
        came.word(key);
    }
    if let BuildingFault::Detour(from, by, to) = fault {
        came.word(from.get());
        came.word(by.get());
        came.word(to.get());
    }
}

/// What is in the building of this text, or why it is refused, after its name.
pub(crate) fn shown(alloc: Global, name: &str, text: &str) -> Came {
    let mut came = Came::new(alloc);
    came.joined(name);
    came.joined(':');
    match Building::read(alloc, text) {
        Ok(building) => show(&mut came, &building),
        Err(fault) => show_fault(&mut came, &fault),
    }
    came
}
