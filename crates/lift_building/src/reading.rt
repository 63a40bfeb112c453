//! The parts of a building's text.

ghost use Rattle.std.specs.Prelude.{◌≡◌, ◌≤◌, ◌<◌, ◌-◌, [], map, replicate, true, option_map, IfOk};
ghost use Rattle.std.specs.Prelude.{length, slice_set};
ghost use Rattle.toml.specs.Data.{get};
ghost use Rattle.toml.specs.View.{view, items_view};
ghost use Rattle.lift_building.specs.Text.{name_of};
ghost use Rattle.lift_building.specs.Reading.{number_in, items_in, key, number_at, item_count};
ghost use Rattle.lift_building.specs.Reading.{each, is_between, floors_in, flight_in, row_in};
ghost use Rattle.lift_building.specs.Reading.{table_in, flags_of, flags_in, served_in, car_in};
ghost use Rattle.lift_building.specs.Reading.{cars_in, plan_in};
ghost use Rattle.lift_building.specs.Layout.{car_view, rows_view, layout_view};
ghost use Rattle.lift_building.specs.Gives.{Gives};

use crate::fault::{BuildingFault, Field};
use crate::layout::{Car, Flights, Layout};
use arrayvec::ArrayVec;
use lift_base::{Floor, MOST_CARS, MOST_FLOORS, MOST_KIOSKS, MOST_PLACES};
use toml::Value;

/// The value of a key.
fn key(field: Field, document: &Value) -> Result<&Value, BuildingFault>
    ensures { Gives (λ v. view v.now) result (key field (view document.now)) }
{
    match document.get(field.name()) {
        Some(value) => Ok(value),
        None => Err(BuildingFault::Missing(field)),
    }
}

/// A number in a range.
fn number_in(field: Field, low: u32, high: u32, value: &Value) -> Result<u32, BuildingFault>
    ensures given { Gives (λ n. n) result (number_in field low high (view value.now)) }
    ensures limit { IfOk result (λ n. n ≤ high) }
{
    match value.as_integer() {
        Some(number) if i64::from(low) <= number && number <= i64::from(high) => Ok(number as u32),
        Some(_) => Err(BuildingFault::OutOfRange(field)),
        None => Err(BuildingFault::WrongType(field)),
    }
}

/// The items of an array.
#[tactic(auto, using(crate::proofs::Each::item_counts))]
fn items_in(field: Field, value: &Value) -> Result<&[Value], BuildingFault>
    ensures given { Gives (λ items. items_view items.now) result (items_in field (view value.now)) }
    ensures count { IfOk result (λ items. item_count (items_view items.now) ≡ length items.now) }
{
    match value.as_array() {
        Some(items) => Ok(items.as_slice()),
        None => Err(BuildingFault::WrongType(field)),
    }
}

fn number_at(field: Field, low: u32, high: u32, document: &Value) -> Result<u32, BuildingFault>
    ensures given { Gives (λ n. n) result (number_at field low high (view document.now)) }
    ensures limit { IfOk result (λ n. n ≤ high) }
{
    let value = key(field, document)?;
    number_in(field, low, high, value)
}

fn floor_in(field: Field, floors: u32, value: &Value) -> Result<Floor, BuildingFault>
    requires some { 1 ≤ floors }
    requires limit { floors ≤ MOST_FLOORS }
    ensures given { Gives (λ floor.
        floor) result (number_in field 0 (floors - 1) (view value.now)) }
    ensures limit { IfOk result (λ floor. floor < floors) }
{
    let number = number_in(field, 0, floors - 1, value)?;
    match Floor::new(number as u8) {
        Some(floor) => Ok(floor),
        None => Err(BuildingFault::OutOfRange(field)),
    }
}

/// The floors at which the kiosks stand.
fn kiosks_among(floors: u32, items: &[Value]) -> Result<ArrayVec<Floor, MOST_KIOSKS>, BuildingFault>
    requires some { 1 ≤ floors }
    requires limit { floors ≤ MOST_FLOORS }
    requires room { length items.now ≤ MOST_KIOSKS }
    ensures { Gives (λ kiosks.
        kiosks.items) result (each (λ _.
        number_in Field.Kiosks 0 (floors - 1)) 0 (items_view items.now)) }
{
    let mut kiosks = ArrayVec::new();
    for item in items {
        kiosks.push(floor_in(Field::Kiosks, floors, item)?);
    }
    Ok(kiosks)
}

#[tactic(auto, unfolding(crate::specs::Reading::floors_in))]
fn kiosks_in(floors: u32, value: &Value) -> Result<ArrayVec<Floor, MOST_KIOSKS>, BuildingFault>
    requires some { 1 ≤ floors }
    requires limit { floors ≤ MOST_FLOORS }
    ensures { Gives (λ kiosks.
        kiosks.items) result (floors_in Field.Kiosks (is_between 1 MOST_KIOSKS) floors (view value.now)) }
{
    let items = items_in(Field::Kiosks, value)?;
    if items.is_empty() || items.len() > MOST_KIOSKS {
        return Err(BuildingFault::OutOfRange(Field::Kiosks));
    }
    kiosks_among(floors, items)
}

/// A flight from floor i to floor j.
fn flight_in(i: usize, j: usize, value: &Value) -> Result<u32, BuildingFault>
    ensures { Gives (λ time. time) result (flight_in i j (view value.now)) }
{
    if i == j {
        number_in(Field::Flight, 0, 0, value)
    } else {
        number_in(Field::Flight, 1, 600_000, value)
    }
}

fn flights_among(i: usize, items: &[Value]) -> Result<Flights, BuildingFault>
    requires { length items.now ≤ MOST_FLOORS }
    ensures { Gives (λ row. row.items) result (each (flight_in i) 0 (items_view items.now)) }
{
    let mut row = Flights::new();
    for (j, item) in items.iter().enumerate() {
        row.push(flight_in(i, j, item)?);
    }
    Ok(row)
}

/// The flights from floor i.
#[tactic(auto, unfolding(crate::specs::Reading::row_in))]
fn row_in(floors: u32, i: usize, value: &Value) -> Result<Flights, BuildingFault>
    requires { floors ≤ MOST_FLOORS }
    ensures { Gives (λ row. row.items) result (row_in floors i (view value.now)) }
{
    let items = items_in(Field::Flight, value)?;
    if items.len() != floors as usize {
        return Err(BuildingFault::TableShape);
    }
    flights_among(i, items)
}

fn rows_among(floors: u32, items: &[Value]) -> Result<ArrayVec<Flights, MOST_FLOORS>, BuildingFault>
    requires limit { floors ≤ MOST_FLOORS }
    requires room { length items.now ≤ MOST_FLOORS }
    ensures { Gives (λ table.
        rows_view table.items) result (each (row_in floors) 0 (items_view items.now)) }
{
    let mut table = ArrayVec::new();
    for (i, item) in items.iter().enumerate() {
        table.push(row_in(floors, i, item)?);
    }
    Ok(table)
}

#[tactic(auto, unfolding(crate::specs::Reading::table_in))]
fn table_in(floors: u32, value: &Value) -> Result<ArrayVec<Flights, MOST_FLOORS>, BuildingFault>
    requires { floors ≤ MOST_FLOORS }
    ensures { Gives (λ table. rows_view table.items) result (table_in floors (view value.now)) }
{
    let rows = items_in(Field::Flight, value)?;
    if rows.len() != floors as usize {
        return Err(BuildingFault::TableShape);
    }
    rows_among(floors, rows)
}

/// The same flag for each floor.
fn same_flags(floors: u32, flag: bool) -> ArrayVec<bool, MOST_FLOORS>
    requires { floors ≤ MOST_FLOORS }
    ensures { result.items ≡ replicate floors flag }
{
    let mut served = ArrayVec::new();
    for _ in 0..floors {
        served.push(flag);
    }
    served
}

/// Sets the flag of a floor.
fn mark(served: &mut ArrayVec<bool, MOST_FLOORS>, floor: Floor)
    requires { floor < length served.old.items }
    ensures { served.new.items ≡ slice_set served.old.items floor true }
{
    served[floor.get() as usize] = true;
}

/// A flag for each floor: whether it is among the items, each a floor of the building.
fn flags_among(floors: u32, items: &[Value]) -> Result<ArrayVec<bool, MOST_FLOORS>, BuildingFault>
    requires some { 1 ≤ floors }
    requires limit { floors ≤ MOST_FLOORS }
    ensures { Gives (λ served. served.items) result (flags_in floors (items_view items.now)) }
{
    let mut served = same_flags(floors, false);
    for item in items {
        mark(&mut served, floor_in(Field::Serves, floors, item)?);
    }
    Ok(served)
}

/// The floors that a car serves, all where none are listed.
#[tactic(auto, unfolding(crate::specs::Reading::served_in, crate::specs::Reading::floors_in))]
fn served_in(
    floors: u32,
    value: Option<&Value>,
) -> Result<ArrayVec<bool, MOST_FLOORS>, BuildingFault>
    requires some { 1 ≤ floors }
    requires limit { floors ≤ MOST_FLOORS }
    ensures { Gives (λ served.
        served.items) result (served_in floors (option_map (λ v. view v.now) value.entry)) }
{
    match value {
        None => Ok(same_flags(floors, true)),
        Some(value) => {
            let items = items_in(Field::Serves, value)?;
            if items.is_empty() {
                return Err(BuildingFault::OutOfRange(Field::Serves));
            }
            flags_among(floors, items)
        }
    }
}

#[tactic(auto, unfolding(crate::specs::Reading::car_in))]
fn car_in(floors: u32, value: &Value) -> Result<Car, BuildingFault>
    requires some { 1 ≤ floors }
    requires limit { floors ≤ MOST_FLOORS }
    ensures { Gives car_view result (car_in floors (view value.now)) }
{
    if !value.is_table() {
        return Err(BuildingFault::WrongType(Field::Cars));
    }
    let places = number_at(Field::Places, 1, MOST_PLACES.into(), value)? as u8;
    let served = served_in(floors, value.get(Field::Serves.name()))?;
    Ok(Car { places, served })
}

fn cars_among(floors: u32, items: &[Value]) -> Result<ArrayVec<Car, MOST_CARS>, BuildingFault>
    requires some { 1 ≤ floors }
    requires limit { floors ≤ MOST_FLOORS }
    requires room { length items.now ≤ MOST_CARS }
    ensures { Gives (λ cars.
        map car_view cars.items) result (each (λ _. car_in floors) 0 (items_view items.now)) }
{
    let mut cars = ArrayVec::new();
    for item in items {
        cars.push(car_in(floors, item)?);
    }
    Ok(cars)
}

#[tactic(auto, unfolding(crate::specs::Reading::cars_in))]
fn cars_in(floors: u32, value: &Value) -> Result<ArrayVec<Car, MOST_CARS>, BuildingFault>
    requires some { 1 ≤ floors }
    requires limit { floors ≤ MOST_FLOORS }
    ensures { Gives (λ cars. map car_view cars.items) result (cars_in floors (view value.now)) }
{
    let items = items_in(Field::Cars, value)?;
    if items.is_empty() || items.len() > MOST_CARS {
        return Err(BuildingFault::OutOfRange(Field::Cars));
    }
    cars_among(floors, items)
}

/// All keys of a document, in order.
#[tactic(auto, unfolding(crate::specs::Reading::plan_in))]
pub(crate) fn layout_in(document: &Value) -> Result<Layout, BuildingFault>
    ensures { Gives layout_view result (plan_in (view document.now)) }
{
    let floors = number_at(Field::Floors, 2, MOST_FLOORS as u32, document)?;
    let door_ms = number_at(Field::DoorMs, 0, 60_000, document)?;
    let kiosks = kiosks_in(floors, key(Field::Kiosks, document)?)?;
    let flights = table_in(floors, key(Field::Flight, document)?)?;
    let cars = cars_in(floors, key(Field::Cars, document)?)?;
    Ok(Layout {
        floors,
        door_ms,
        kiosks,
        flights,
        cars,
    })
}
