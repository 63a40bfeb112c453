//! How a car's schedule changes.

ghost use Rattle.std.specs.Prelude.{◌≡◌, ◌≤◌, false, length, Some, IfSome};
ghost use Rattle.lift_register.specs.Register.{rows_of};
ghost use Rattle.lift_stops.specs.StopList.{next_stop};
ghost use Rattle.lift_stops.specs.Schedule.{position_after};
ghost use Rattle.lift_decider.specs.Schedules.{schedule_at, with_row, HasRows, HasRowsAfter};

use lift_base::{Letter, MOST_CARS, MOST_ROWS, Position, Row, Stop};
use lift_policy::schedule_of;
use lift_register::Register;
use lift_stops::Schedule;

/// A car takes one call more. Where it has no schedule it gets none.
pub fn insert(schedule: &mut Option<Schedule>, row: &Row)
    requires few { IfSome schedule.old (λ s. length s.rows ≤ MOST_ROWS) }
    ensures { schedule.new ≡ with_row row.now schedule.old }
{
    match schedule {
        Some(schedule) => schedule.insert(*row),
        None => {}
    }
}

/// The schedule, where there is one, lists its halts.
fn list_own(schedule: &mut Option<Schedule>)
    ensures { schedule.new ≡ schedule.old }
{
    match schedule {
        Some(schedule) => schedule.list_halts(),
        None => {}
    }
}

/// Each schedule lists its halts, so that a new call is weighed by them.
pub fn list_halts(schedules: &mut [Option<Schedule>; MOST_CARS])
    ensures { schedules.new ≡ schedules.old }
{
    for place in 0..MOST_CARS {
        list_own(&mut schedules[place]);
    }
}

/// A car that has no schedule gets one of its open calls. The answer is the stop that it makes next.
fn begin(
    register: &Register,
    car: Letter,
    schedule: &mut Option<Schedule>,
    position: Position,
) -> Option<Stop>
    ensures schedule { schedule.new ≡ Some (schedule_at register.now car position) }
    ensures next { result ≡ next_stop (rows_of register.now car) position }
{
    let made = schedule_of(register, car, position);
    let next = made.next_stop();
    *schedule = Some(made);
    next
}

/// A car stands at another position. Its schedule is made from its open calls where it has none.
/// The answer is the stop that it makes next.
pub fn stand(
    register: &Register,
    car: Letter,
    schedule: &mut Option<Schedule>,
    position: &Position,
) -> Option<Stop>
    requires own { HasRows register.now car schedule.old }
    ensures schedule { schedule.new ≡ Some (schedule_at register.now car position.now) }
    ensures next { result ≡ next_stop (rows_of register.now car) position.now }
{
    match schedule {
        Some(schedule) => {
            schedule.replace_position(*position);
            schedule.next_stop()
        }
        None => begin(register, car, schedule, *position),
    }
}

/// A car made a stop that the register has taken in. Its schedule is made from its open calls where
/// it has none; where the stop changes none, it only stands there. The answer is the stop that it
/// makes next.
pub fn serve(
    register: &Register,
    car: Letter,
    schedule: &mut Option<Schedule>,
    stop: &Stop,
    changes: bool,
) -> Option<Stop>
    requires own { HasRowsAfter stop.now register.now car schedule.old }
    requires unchanged { changes ≡ false → HasRows register.now car schedule.old }
    ensures schedule { schedule.new
        ≡ Some (schedule_at register.now car (position_after stop.now)) }
    ensures next { result ≡ next_stop (rows_of register.now car) (position_after stop.now) }
{
    let position = Position {
        floor: stop.floor,
        dir: stop.dir,
    };
    if !changes {
        return stand(register, car, schedule, &position);
    }
    match schedule {
        Some(schedule) => {
            schedule.serve(*stop);
            schedule.next_stop()
        }
        None => begin(register, car, schedule, position),
    }
}
