//! When a car would be where the passengers of a call wait.

ghost use Rattle.std.specs.Prelude.{◌≡◌, ◌≤◌, length};
ghost use Rattle.lift_policy.specs.Choices.{wait};

use lift_base::{Halt, MOST_ROWS};
use lift_building::Building;
use lift_cost::{NewCall, arrival_at, waiting_row};
use lift_stops::{Schedule, pass_of};

/// When a car that takes the call too is where its passengers wait, in ms.
pub(crate) fn wait_of(building: &Building, schedule: &Schedule, call: &NewCall) -> u64
    requires { length schedule.now.rows ≤ MOST_ROWS }
    ensures { result ≡ wait building.now schedule.now.position schedule.now.rows call.now }
{
    let row = waiting_row(call);
    let halts = schedule.halts_with(&row);
    let halt = Halt {
        pass: pass_of(&row, schedule.position()),
        floor: call.from,
    };
    arrival_at(building, schedule.position(), &halts, &halt)
}
