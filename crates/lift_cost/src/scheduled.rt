//! Costs read from a car's schedule: from its stop list and who leaves where, or else from nothing.

ghost use Rattle.std.specs.Prelude.{◌≡◌, ◌+◌, ◌*◌, ◌<◌, ◌≤◌, length};
ghost use Rattle.lift_cost.specs.Calls.{AreWithin, AreFloorsWithin};
ghost use Rattle.lift_cost.specs.Cost.{etd, total_etd, own_etd, with_new_call, total_cost};
ghost use Rattle.lift_cost.specs.Cost.{degradation};

use crate::among::{added_among, etd_among};
use crate::call::NewCall;
use crate::cost;
use crate::cost::etd;
use lift_base::{MOST_ROWS, Row};
use lift_building::Building;
use lift_stops::Schedule;

/// The estimated time to destination of one of a car's open calls.
#[tactic(auto, unfolding(crate::specs::Cost::etd))]
pub fn etd_of(building: &Building, schedule: &Schedule, row: &Row) -> u64
    ensures value { result ≡ etd building.now schedule.now.position schedule.now.rows row.now }
    ensures limit { result ≤ 43560000 }
{
    let position = schedule.position();
    match schedule.listed() {
        Some(listed) => etd_among(building, &position, listed.halts, row),
        None => etd(building, position, schedule.rows(), row),
    }
}

/// What a new call adds to the times of all passengers of a car, its own with them, and the time of
/// its own.
fn added(building: &Building, schedule: &Schedule, call: &NewCall) -> (u64, u64)
    requires within { AreFloorsWithin building.now.floors schedule.now.position call.now }
    requires calls { AreWithin building.now.floors schedule.now.rows }
    requires few { length schedule.now.rows ≤ MOST_ROWS }
    ensures added { result.0 + total_etd building.now schedule.now.position schedule.now.rows
        ≡ total_etd building.now schedule.now.position (with_new_call schedule.now.rows call.now) }
    ensures own { result.1 ≡ own_etd building.now schedule.now.position schedule.now.rows call.now }
    ensures no_loss { result.1 ≤ result.0 }
{
    let position = schedule.position();
    match schedule.listed() {
        Some(listed) => added_among(building, &position, call, listed.halts, listed.leaving),
        None => cost::added(building, &position, schedule.rows(), call),
    }
}

/// What a new call adds to the times of all passengers of a car, its own with them: each call's
/// time counts once for each of its persons.
pub fn cost_of(building: &Building, schedule: &Schedule, call: NewCall) -> u64
    requires within { AreFloorsWithin building.now.floors schedule.now.position call }
    requires calls { AreWithin building.now.floors schedule.now.rows }
    requires few { length schedule.now.rows ≤ MOST_ROWS }
    ensures value { result ≡ total_cost building.now schedule.now.position schedule.now.rows call }

    // The sum with the new call is the sum without it and this, so nothing is cut off at 0.
    ensures added { result + total_etd building.now schedule.now.position schedule.now.rows
        ≡ total_etd building.now schedule.now.position (with_new_call schedule.now.rows call) }

    // The others lose nothing, all together (each of them too: `nobody_arrives_sooner`), so this
    // is no less than the time of the new ones.
    ensures own { own_etd building.now schedule.now.position schedule.now.rows call ≤ result }
{
    let (cost, _own) = added(building, schedule, &call);
    cost
}

/// What a new call adds to the times of the other passengers of a car.
pub fn degradation_of(building: &Building, schedule: &Schedule, call: NewCall) -> u64
    requires within { AreFloorsWithin building.now.floors schedule.now.position call }
    requires calls { AreWithin building.now.floors schedule.now.rows }
    requires few { length schedule.now.rows ≤ MOST_ROWS }
    ensures value { result ≡ degradation building.now schedule.now.position schedule.now.rows call }

    // With the time of the new passengers it is the total cost, so nothing is cut off at 0.
    ensures parts { result + own_etd building.now schedule.now.position schedule.now.rows call
        ≡ total_cost building.now schedule.now.position schedule.now.rows call }

    // The sum with the new call is the sum without it, the new passengers' own time, and this. (No
    // other passenger arrives sooner: `nobody_arrives_sooner`.)
    ensures sums { result + own_etd building.now schedule.now.position schedule.now.rows call
        + total_etd building.now schedule.now.position schedule.now.rows
        ≡ total_etd building.now schedule.now.position (with_new_call schedule.now.rows call) }
{
    let (cost, own) = added(building, schedule, &call);
    cost - own
}
