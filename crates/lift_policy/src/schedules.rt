//! Schedules made from nothing.

ghost use Rattle.std.specs.Prelude.{◌≡◌, ◌<◌, option_map};
ghost use Rattle.lift_base.specs.declared.travel.Position.{Position as PositionValue};
ghost use Rattle.lift_register.specs.Register.{rows_of};
ghost use Rattle.lift_policy.specs.View.{positions_of, AreSchedulesOf};

use lift_base::{Letter, MOST_CARS, Position};
use lift_register::Register;
use lift_stops::Schedule;

/// The schedule of a car at a position, made from its open calls.
pub fn schedule_of(register: &Register, car: Letter, position: Position) -> Schedule
    ensures { result ≡ record { position = position; rows = rows_of register.now car } }
{
    let mut schedule = Schedule::new(position);
    for row in register.open_rows(car) {
        schedule.insert(*row);
    }
    schedule
}

/// The schedule of the car with this index, where it has reported its position.
fn schedule_at(register: &Register, index: u8, position: &Option<Position>) -> Option<Schedule>
    requires { index < MOST_CARS }
    ensures { result ≡ option_map (λ (p : PositionValue).
        record { position = p; rows = rows_of register.now index }) position.now }
{
    let car = Letter::new(index)?;
    match position {
        Some(position) => Some(schedule_of(register, car, *position)),
        None => None,
    }
}

/// The schedules of all cars at their positions, made from their open calls.
pub fn schedules_at(
    register: &Register,
    positions: &[Option<Position>; MOST_CARS],
) -> [Option<Schedule>; MOST_CARS]
    ensures own { AreSchedulesOf register.now result }
    ensures positions { positions_of result ≡ positions.now }
{
    let mut schedules: [Option<Schedule>; MOST_CARS] = Default::default();
    for index in 0..MOST_CARS as u8 {
        let place = usize::from(index);
        schedules[place] = schedule_at(register, index, &positions[place]);
    }
    schedules
}
