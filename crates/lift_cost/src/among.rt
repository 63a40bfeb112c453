//! Times among given halts.

ghost use Rattle.std.specs.Prelude.{◌≡◌, ◌≢◌, ◌+◌, ◌*◌, ◌<◌, ◌≤◌, false, All, List, length};
ghost use Rattle.lift_base.specs.declared.history.Row.{Row as RowValue};
ghost use Rattle.lift_stops.specs.StopList.{same_halt, halt_at};
ghost use Rattle.lift_cost.specs.Cost.{moment_at, arrival_at, total_etd, own_etd, with_new_call};
ghost use Rattle.lift_cost.specs.Delays.{AreOpen, AddsTimes};

use crate::call::{NewCall, waiting_row};
use crate::ways::Ways;
use lift_base::{Halt, MOST_HALTS, Party, Position, Row};
use lift_building::Building;
use lift_stops::{Leaving, pass_of};

/// Whether two halts are the same.
fn same_halt(a: &Halt, b: &Halt) -> bool
    ensures { result ≡ same_halt a.now b.now }
{
    a.pass == b.pass && a.floor == b.floor
}

/// The moment beside a halt.
fn moment_at(halt: &Halt, halts: &[Halt], moments: &[u64]) -> u64
    requires { length halts.now ≤ length moments.now }
    ensures { result ≡ moment_at halt.now halts.now moments.now }
{
    for (i, other) in halts.iter().enumerate() {
        if same_halt(other, halt) {
            return moments[i];
        }
    }
    0
}

/// The halt at which a call's passengers leave.
fn goal_of(position: &Position, row: &Row) -> Halt
    ensures { result ≡ halt_at position.now row.now row.now.to }
{
    let pass = pass_of(row, *position);
    let floor = row.to;
    Halt { pass, floor }
}

/// When a car that leaves the position's floor now, and makes these halts, is at one of them; 0
/// where it isn't among them. At most 43,560,000 ms.
#[tactic(auto, using(crate::proofs::Costs::arrival_short))]
pub fn arrival_at(building: &Building, position: Position, halts: &[Halt], halt: &Halt) -> u64
    requires { length halts.now ≤ MOST_HALTS }
    ensures value { result ≡ arrival_at building.now position.floor halts.now halt.now }
    ensures limit { result ≤ 43560000 }
{
    let moments = building.arrivals(position, halts);
    moment_at(halt, halts, &moments)
}

/// When a car at the position, which makes these halts, is where a call's passengers leave.
pub fn etd_among(building: &Building, position: &Position, halts: &[Halt], row: &Row) -> u64
    requires { length halts.now ≤ MOST_HALTS }
    ensures value { result ≡ arrival_at building.now position.now.floor halts.now
        (halt_at position.now row.now row.now.to) }
    ensures limit { result ≤ 43560000 }
{
    arrival_at(building, *position, halts, &goal_of(position, row))
}

/// A time once for each person of a party, in ms.
fn weighed(party: Party, time: u32) -> u64
    ensures value { result ≡ party * time }
    ensures limit { result ≤ 15 * 4294967295 }
{
    u64::from(party.get()) * u64::from(time)
}

/// How much later all others are where they leave because of a new call of passengers who ride from
/// one floor to another, once for each person, and when those are where they leave; by the halts at
/// which they board and leave. In ms.
fn later_by_ride(
    building: &Building,
    position: &Position,
    halts: &[Halt],
    leaving: &Leaving,
    boards: &Halt,
    goal: &Halt,
) -> (u64, u32)
    requires here { position.now.floor < building.now.floors }
    requires boards { boards.now.floor < building.now.floors }
    requires goal { goal.now.floor < building.now.floors }
    requires few { length halts.now ≤ MOST_HALTS }
    requires within { All (λ halt. halt.floor < building.now.floors) halts.now }
    ensures joins { (rows : List RowValue) (row : RowValue)
        → AreOpen building.now position.now rows halts.now leaving.now
        → row.aboard ≡ false → row.from ≢ row.to
        → boards.now ≡ halt_at position.now row row.from
        → goal.now ≡ halt_at position.now row row.to
        → AddsTimes building.now position.now rows row result.0 result.1 }
    ensures limit { result.0 ≤ 5 * (MOST_HALTS * (65535 * 4294967295)) }
{
    let _lawful = building.floors();
    let dir = position.dir;
    let ways = Ways::new(position.floor);
    let (ways, _boards, behind) = ways.stop_at(building, leaving, halts, dir, boards);
    ways.end_at(building, leaving, behind, dir, goal)
}

/// The same of passengers who leave where they board.
fn later_by_stay(
    building: &Building,
    position: &Position,
    halts: &[Halt],
    leaving: &Leaving,
    goal: &Halt,
) -> (u64, u32)
    requires here { position.now.floor < building.now.floors }
    requires goal { goal.now.floor < building.now.floors }
    requires few { length halts.now ≤ MOST_HALTS }
    requires within { All (λ halt. halt.floor < building.now.floors) halts.now }
    ensures joins { (rows : List RowValue) (row : RowValue)
        → AreOpen building.now position.now rows halts.now leaving.now
        → row.aboard ≡ false → row.from ≡ row.to
        → goal.now ≡ halt_at position.now row row.to
        → AddsTimes building.now position.now rows row result.0 result.1 }
    ensures limit { result.0 ≤ 5 * (MOST_HALTS * (65535 * 4294967295)) }
{
    let _lawful = building.floors();
    let ways = Ways::new(position.floor);
    ways.end_at(building, leaving, halts, position.dir, goal)
}

/// What a new call adds to the times of all passengers, and the time of its own, by the halts of a
/// car and who leaves there.
pub fn added_among(
    building: &Building,
    position: &Position,
    call: &NewCall,
    halts: &[Halt],
    leaving: &Leaving,
) -> (u64, u64)
    requires here { position.now.floor < building.now.floors }
    requires from { call.now.from < building.now.floors }
    requires to { call.now.to < building.now.floors }
    requires few { length halts.now ≤ MOST_HALTS }
    requires within { All (λ halt. halt.floor < building.now.floors) halts.now }
    ensures added { (rows : List RowValue)
        → AreOpen building.now position.now rows halts.now leaving.now
        → result.0 + total_etd building.now position.now rows
        ≡ total_etd building.now position.now (with_new_call rows call.now) }
    ensures own { (rows : List RowValue)
        → AreOpen building.now position.now rows halts.now leaving.now
        → result.1 ≡ own_etd building.now position.now rows call.now }
    ensures no_loss { result.1 ≤ result.0 }
{
    let goal = goal_of(position, &waiting_row(call));
    let (others, arrives) = if call.from == call.to {
        later_by_stay(building, position, halts, leaving, &goal)
    } else {
        let boards = Halt {
            pass: goal.pass,
            floor: call.from,
        };
        later_by_ride(building, position, halts, leaving, &boards, &goal)
    };
    let own = weighed(call.party, arrives);
    (others + own, own)
}
