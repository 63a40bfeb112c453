//! A car's way through its halts without a new call, and with it.

ghost use Rattle.std.specs.Prelude.{◌≡◌, ℕ, ◌+◌, ◌*◌, ◌<◌, ◌≤◌, false, if◌then◌else◌, All, List, []};
ghost use Rattle.std.specs.Prelude.{◌∷◌, ◌++◌, length};
ghost use Rattle.lift_base.specs.declared.travel.Halt.{Halt as HaltValue};
ghost use Rattle.lift_building.specs.Plan.{Plan, flight_ms};
ghost use Rattle.lift_stops.specs.Insertion.{rank_of};
ghost use Rattle.lift_cost.specs.Delays.{GoesToEnd, IsNoSooner, IsOnWays, IsShort, HaltsAt};
ghost use Rattle.lift_cost.specs.Delays.{persons_in};
ghost use Rattle.lift_cost.specs.Ways.{floor_after, leaves_after, persons_along, weighted};

use lift_base::{Dir, Floor, Halt, MOST_HALTS};
use lift_building::Building;
use lift_stops::{Leaving, split_at};

/// A car's way up to some halt, without a new call and with it. All times are in ms.
#[derive(Clone, Copy)]
pub(crate) struct Ways {
    /// Where it is without the call.
    floor: Floor,
    /// Where it is with the call.
    floor_with: Floor,
    /// When it leaves there, with the call.
    leaves_with: u32,
    /// How much later that is than without the call.
    delay: u32,
    /// How much later all persons were where they left, once for each of them.
    later: u64,
}

/// A time once for each of some persons.
fn times(persons: u16, time: u32) -> u64
    ensures value { result ≡ persons * time }
    ensures limit { result ≤ 65535 * 4294967295 }
{
    u64::from(persons) * u64::from(time)
}

/// A time once for each person who leaves at one of these halts.
fn times_along(leaving: &Leaving, halts: &[Halt], time: u32) -> u64
    requires { length halts.now ≤ MOST_HALTS }
    ensures value { result ≡ time * persons_along (persons_in leaving.now) halts.now }
    ensures limit { result ≤ MOST_HALTS * (65535 * 4294967295) }
{
    let mut sum = 0u64;
    if time > 0 {
        for halt in halts {
            sum += times(leaving.at(halt), time);
        }
    }
    sum
}

/// Where a car is after these halts, and when it leaves there.
fn go_along(building: &Building, floor: Floor, leaves: u32, halts: &[Halt]) -> (Floor, u32)
    requires few { length halts.now ≤ MOST_HALTS }
    requires soon { leaves ≤ 250000000 }
    ensures floor { result.0 ≡ floor_after floor halts.now }
    ensures leaves { result.1 ≡ leaves_after building.now floor leaves halts.now }
    ensures limit { result.1 ≤ leaves + 50000000 }
{
    let door_ms = building.door_ms();
    let mut floor = floor;
    let mut leaves = leaves;
    for halt in halts {
        leaves += building.flight(floor, halt.floor) + door_ms;
        floor = halt.floor;
    }
    (floor, leaves)
}

impl Ways {
    /// At the car's floor, now.
    pub(crate) fn new(floor: Floor) -> Self
        ensures start { (plan : Plan) (persons : HaltValue → ℕ)
            → IsOnWays plan persons floor [] [] result }
        ensures sooner { (plan : Plan)
            → IsNoSooner plan result.floor result.floor_with result.delay }
        ensures short { IsShort result 0 }
        ensures here { result.floor_with ≡ floor }
    {
        Ways {
            floor,
            floor_with: floor,
            leaves_with: 0,
            delay: 0,
            later: 0,
        }
    }

    /// How much later it is at a floor with the call.
    fn delay_at(&self, building: &Building, to: Floor) -> u32
        requires short { self.now.delay ≤ 250000000 }
        requires within { to < building.now.floors }
        requires sooner { IsNoSooner building.now self.now.floor self.now.floor_with self.now.delay }
        ensures value { result + flight_ms building.now self.now.floor to
            ≡ self.now.delay + flight_ms building.now self.now.floor_with to }
        ensures limit { result ≤ self.now.delay + 600000 }
    {
        if self.floor == self.floor_with {
            self.delay
        } else {
            self.delay + building.flight(self.floor_with, to) - building.flight(self.floor, to)
        }
    }

    /// When it is at a floor with the call.
    fn arrives(&self, building: &Building, to: Floor) -> u32
        requires { self.now.leaves_with ≤ 250000000 }
        ensures value { result ≡ self.now.leaves_with
            + flight_ms building.now self.now.floor_with to }
        ensures limit { result ≤ self.now.leaves_with + 600000 }
    {
        self.leaves_with + building.flight(self.floor_with, to)
    }

    /// Both make these halts.
    fn make_all(self, building: &Building, leaving: &Leaving, halts: &[Halt]) -> Ways
        requires few { length halts.now ≤ MOST_HALTS }
        requires within { All (λ halt. halt.floor < building.now.floors) halts.now }
        requires sooner { IsNoSooner building.now self.floor self.floor_with self.delay }
        requires short { IsShort self 4 }
        ensures on { (start : ℕ) (made made_with : List HaltValue)
            → IsOnWays building.now (persons_in leaving.now) start made made_with self
            → IsOnWays building.now (persons_in leaving.now) start (made ++ halts.now)
            (made_with ++ halts.now) result }
        ensures sooner { IsNoSooner building.now result.floor result.floor_with result.delay }
        ensures short { (n : ℕ) → IsShort self n → IsShort result (n + 1) }
        ensures here { self.floor_with < building.now.floors
            → result.floor_with < building.now.floors }
    {
        if halts.is_empty() {
            return self;
        }
        let delay = self.delay_at(building, halts[0].floor);
        let later = self.later + times_along(leaving, halts, delay);
        let (floor, leaves_with) = go_along(building, self.floor_with, self.leaves_with, halts);
        Ways {
            floor,
            floor_with: floor,
            leaves_with,
            delay,
            later,
        }
    }

    /// Both make a halt.
    fn make(self, building: &Building, leaving: &Leaving, halt: &Halt) -> Ways
        requires within { halt.now.floor < building.now.floors }
        requires sooner { IsNoSooner building.now self.floor self.floor_with self.delay }
        requires short { IsShort self 4 }
        ensures on { (start : ℕ) (made made_with : List HaltValue)
            → IsOnWays building.now (persons_in leaving.now) start made made_with self
            → IsOnWays building.now (persons_in leaving.now) start (made ++ halt.now ∷ [])
            (made_with ++ halt.now ∷ []) result }
        ensures sooner { IsNoSooner building.now result.floor result.floor_with result.delay }
        ensures short { (n : ℕ) → IsShort self n → IsShort result (n + 1) }
        ensures here { result.floor_with ≡ halt.now.floor }
    {
        let delay = self.delay_at(building, halt.floor);
        Ways {
            floor: halt.floor,
            floor_with: halt.floor,
            leaves_with: self.arrives(building, halt.floor) + building.door_ms(),
            delay,
            later: self.later + times(leaving.at(halt), delay),
        }
    }

    /// The way with the call alone makes a halt, at which none of the others leave.
    fn make_alone(self, building: &Building, halt: &Halt) -> Ways
        requires within { halt.now.floor < building.now.floors }
        requires here { self.floor_with < building.now.floors }
        requires sooner { IsNoSooner building.now self.floor self.floor_with self.delay }
        requires short { IsShort self 4 }
        ensures on { (persons : HaltValue → ℕ) (start : ℕ) (made made_with : List HaltValue)
            → persons halt.now ≡ 0
            → IsOnWays building.now persons start made made_with self
            → IsOnWays building.now persons start made (made_with ++ halt.now ∷ []) result }
        ensures sooner { IsNoSooner building.now result.floor result.floor_with result.delay }
        ensures short { (n : ℕ) → IsShort self n → IsShort result (n + 1) }
        ensures here { result.floor_with ≡ halt.now.floor }
    {
        let door_ms = building.door_ms();
        let flight = building.flight(self.floor_with, halt.floor);
        Ways {
            floor: self.floor,
            floor_with: halt.floor,
            leaves_with: self.leaves_with + flight + door_ms,
            delay: self.delay + flight + door_ms,
            later: self.later,
        }
    }

    /// The way with the call makes a halt, and so does the other where it is there.
    fn make_if_there(
        self,
        building: &Building,
        leaving: &Leaving,
        halt: &Halt,
        is_there: bool,
    ) -> Ways
        requires within { halt.now.floor < building.now.floors }
        requires here { self.floor_with < building.now.floors }
        requires sooner { IsNoSooner building.now self.floor self.floor_with self.delay }
        requires short { IsShort self 4 }
        ensures on { (start : ℕ) (made made_with : List HaltValue)
            → (is_there ≡ false → persons_in leaving.now halt.now ≡ 0)
            → IsOnWays building.now (persons_in leaving.now) start made made_with self
            → IsOnWays building.now (persons_in leaving.now) start
            (made ++ (if is_there then halt.now ∷ [] else [])) (made_with ++ halt.now ∷ []) result }
        ensures sooner { IsNoSooner building.now result.floor result.floor_with result.delay }
        ensures short { (n : ℕ) → IsShort self n → IsShort result (n + 1) }
        ensures here { result.floor_with ≡ halt.now.floor }
    {
        if is_there {
            self.make(building, leaving, halt)
        } else {
            self.make_alone(building, halt)
        }
    }

    /// Both make those of these halts that are before this one; then the way with the call makes this
    /// one, and so does the other where it is among them. Also when the way with the call is at this
    /// one, and which halts are after it.
    pub(crate) fn stop_at<'h>(
        self,
        building: &Building,
        leaving: &Leaving,
        halts: &'h [Halt],
        dir: Dir,
        halt: &Halt,
    ) -> (Ways, u32, &'h [Halt])
        requires few { length halts.now ≤ MOST_HALTS }
        requires within { All (λ halt. halt.floor < building.now.floors) halts.now }
        requires own { halt.now.floor < building.now.floors }
        requires here { self.floor_with < building.now.floors }
        requires sooner { IsNoSooner building.now self.floor self.floor_with self.delay }
        requires short { IsShort self 2 }
        ensures on { HaltsAt building.now (persons_in leaving.now) (rank_of dir) halts.now
            result.2.now halt.now self result.0 result.1 }
        ensures within { All (λ halt. halt.floor < building.now.floors) result.2.now }
        ensures few { length result.2.now ≤ MOST_HALTS }
        ensures here { result.0.floor_with < building.now.floors }
        ensures sooner { IsNoSooner building.now result.0.floor result.0.floor_with result.0.delay }
        ensures short { (n : ℕ) → IsShort self n → IsShort result.0 (n + 2) }
    {
        let split = split_at(halts, dir, halt);
        let ways = self.make_all(building, leaving, split.before);
        let arrives = ways.arrives(building, halt.floor);
        let ways = ways.make_if_there(building, leaving, halt, split.is_there);
        (ways, arrives, split.behind)
    }

    /// How much later all persons are where they leave, once for each of them, once both have made
    /// these halts too.
    fn later_at_end(&self, building: &Building, leaving: &Leaving, halts: &[Halt]) -> u64
        requires few { length halts.now ≤ MOST_HALTS }
        requires within { All (λ halt. halt.floor < building.now.floors) halts.now }
        requires sooner { IsNoSooner building.now self.now.floor self.now.floor_with self.now.delay }
        requires short { IsShort self.now 4 }
        ensures value { (start : ℕ) (made made_with : List HaltValue)
            → IsOnWays building.now (persons_in leaving.now) start made made_with self.now
            → weighted building.now (persons_in leaving.now) start 0 (made_with ++ halts.now)
            ≡ weighted building.now (persons_in leaving.now) start 0 (made ++ halts.now) + result }
        ensures limit { result ≤ 5 * (MOST_HALTS * (65535 * 4294967295)) }
    {
        if halts.is_empty() {
            return self.later;
        }
        let delay = self.delay_at(building, halts[0].floor);
        self.later + times_along(leaving, halts, delay)
    }

    /// Both make these halts, and the way with the call this one among them. How much later all
    /// persons are where they leave, once for each of them, and when the way with the call is at this
    /// one.
    pub(crate) fn end_at(
        self,
        building: &Building,
        leaving: &Leaving,
        halts: &[Halt],
        dir: Dir,
        halt: &Halt,
    ) -> (u64, u32)
        requires few { length halts.now ≤ MOST_HALTS }
        requires within { All (λ halt. halt.floor < building.now.floors) halts.now }
        requires own { halt.now.floor < building.now.floors }
        requires here { self.floor_with < building.now.floors }
        requires sooner { IsNoSooner building.now self.floor self.floor_with self.delay }
        requires short { IsShort self 2 }
        ensures on { GoesToEnd building.now (persons_in leaving.now) (rank_of dir) halts.now
            halt.now
            self result.0 result.1 }
        ensures limit { result.0 ≤ 5 * (MOST_HALTS * (65535 * 4294967295)) }
    {
        let (ways, arrives, behind) = self.stop_at(building, leaving, halts, dir, halt);
        (ways.later_at_end(building, leaving, behind), arrives)
    }
}
