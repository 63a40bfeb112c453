//! Costs from nothing: the stop list, and the table of who leaves where, are made for each.

ghost use Rattle.std.specs.Prelude.{◌≡◌, ◌+◌, ◌*◌, ◌<◌, ◌≤◌, length};
ghost use Rattle.lift_cost.specs.Calls.{AreWithin, AreFloorsWithin};
ghost use Rattle.lift_cost.specs.Cost.{etd, total_etd, own_etd, with_new_call, total_cost};
ghost use Rattle.lift_cost.specs.Cost.{degradation};

use crate::among::{added_among, etd_among};
use crate::call::NewCall;
use lift_base::{MOST_ROWS, MOST_WEIGHED, Position, Row};
use lift_building::Building;
use lift_stops::{Leaving, stop_list};

/// The estimated time to destination of one of a car's open calls: how long from now until the car
/// is where its passengers leave.
#[tactic(auto, unfolding(crate::specs::Cost::etd))]
pub fn etd(building: &Building, position: Position, rows: &[Row], row: &Row) -> u64
    requires { length rows.now ≤ MOST_WEIGHED }
    ensures value { result ≡ etd building.now position rows.now row.now }
    ensures limit { result ≤ 43560000 }
{
    let position = &position;
    let halts = stop_list(rows, *position);
    etd_among(building, position, &halts, row)
}

/// What a new call adds to the times of all passengers of a car, its own with them, and the time of
/// its own.
pub(crate) fn added(
    building: &Building,
    position: &Position,
    rows: &[Row],
    call: &NewCall,
) -> (u64, u64)
    requires within { AreFloorsWithin building.now.floors position.now call.now }
    requires calls { AreWithin building.now.floors rows.now }
    requires few { length rows.now ≤ MOST_ROWS }
    ensures added { result.0 + total_etd building.now position.now rows.now
        ≡ total_etd building.now position.now (with_new_call rows.now call.now) }
    ensures own { result.1 ≡ own_etd building.now position.now rows.now call.now }
    ensures no_loss { result.1 ≤ result.0 }
{
    let halts = stop_list(rows, *position);
    let leaving = Leaving::of(rows, position);
    added_among(building, position, call, &halts, &leaving)
}

/// What a new call adds to the times of all passengers of a car, its own with them: each call's
/// time counts once for each of its persons.
pub fn total_cost(building: &Building, position: Position, rows: &[Row], call: NewCall) -> u64
    requires within { AreFloorsWithin building.now.floors position call }
    requires calls { AreWithin building.now.floors rows.now }
    requires few { length rows.now ≤ MOST_ROWS }
    ensures value { result ≡ total_cost building.now position rows.now call }

    // The sum with the new call is the sum without it and this, so nothing is cut off at 0.
    ensures added { result + total_etd building.now position rows.now
        ≡ total_etd building.now position (with_new_call rows.now call) }

    // The others lose nothing, all together (each of them too: `nobody_arrives_sooner`), so this
    // is no less than the time of the new ones.
    ensures own { own_etd building.now position rows.now call ≤ result }
{
    let (cost, _own) = added(building, &position, rows, &call);
    cost
}

/// What a new call adds to the times of the other passengers of a car.
pub fn degradation(building: &Building, position: Position, rows: &[Row], call: NewCall) -> u64
    requires within { AreFloorsWithin building.now.floors position call }
    requires calls { AreWithin building.now.floors rows.now }
    requires few { length rows.now ≤ MOST_ROWS }
    ensures value { result ≡ degradation building.now position rows.now call }

    // With the time of the new passengers it is the total cost, so nothing is cut off at 0.
    ensures parts { result + own_etd building.now position rows.now call
        ≡ total_cost building.now position rows.now call }

    // The sum with the new call is the sum without it, the new passengers' own time, and this. (No
    // other passenger arrives sooner: `nobody_arrives_sooner`.)
    ensures sums { result + own_etd building.now position rows.now call
        + total_etd building.now position rows.now
        ≡ total_etd building.now position (with_new_call rows.now call) }
{
    let (cost, own) = added(building, &position, rows, &call);
    cost - own
}
