//! A car's halts made from its open calls, by sets of bits.

ghost use Rattle.std.specs.Prelude.{◌≡◌, ℕ, ◌+◌, ◌-◌, ◌*◌, ◌<◌, ◌≤◌, ◌==◌, ◌||◌, List, [], ◌∷◌};
ghost use Rattle.std.specs.Prelude.{◌++◌, All, length, slice_get, Some, true, false};
ghost use Rattle.std.specs.List.{list_any};
ghost use Rattle.lift_base.specs.declared.travel.Position.{Position as PositionValue};
ghost use Rattle.lift_base.specs.declared.travel.Halt.{Halt as HaltValue};
ghost use Rattle.lift_base.specs.declared.history.Row.{Row as RowValue};
ghost use Rattle.lift_base.specs.Travel.{pass_number};
ghost use Rattle.lift_stops.specs.Insertion.{floor_rank};
ghost use Rattle.lift_stops.specs.StopList.{HasFloors, legs_of, pass_of, stop_list};
ghost use Rattle.lift_stops.specs.Marks.{HasHalts, has_bit, marked, halts_marked};
ghost use Rattle.lift_stops.specs.Marks.{all_marked};
ghost use Rattle.lift_stops.specs.Schedule.{AreListed};
ghost use Rattle.lift_stops.specs.Leaving.{AreLeaving, HasParty};

use crate::leaving::Leaving;
use crate::stops::{is_ahead, pass_of};
use arrayvec::ArrayVec;
use lift_base::{Dir, Floor, Halt, MOST_FLOORS, MOST_HALTS, MOST_WEIGHED, Pass, Position, Row};

/// The halts of a car, a set of floors for each pass. Bit n of a set stands for floor n.
#[derive(Clone, Copy)]
struct Marks {
    sets: [u64; 3],
}

/// Where the set of a pass stands.
fn place_of(pass: Pass) -> usize
    ensures value { result ≡ pass_number pass - 1 }
    ensures limit { result < 3 }
{
    usize::from(pass.number() - 1)
}

/// The halt at this floor in a pass.
fn halt_at(pass: Pass, floor: u32) -> Halt
    requires { floor < MOST_FLOORS }
    ensures { result ≡ record { pass = pass; floor = floor } }
{
    let floor = Floor::new(floor as u8).unwrap_or_default();
    Halt { pass, floor }
}

/// A set with a floor.
fn mark(set: u64, floor: Floor) -> u64
    ensures bits { (place : ℕ) → place < MOST_FLOORS
        → has_bit result place ≡ (has_bit set place || floor == place) }
    ensures floor { floor < MOST_FLOORS }
{
    set | 1 << u32::from(floor.get())
}

/// The floors that a call still needs.
// (of bits that are there in any case, so that a walk along calls need not branch)
fn legs_of(row: &Row) -> u64
    ensures bits { (place : ℕ) → place < MOST_FLOORS
        → has_bit result place ≡ list_any (λ leg. leg == place) (legs_of row.now) }
    ensures floors { HasFloors row.now }
{
    let left = mark(0, row.to);
    let both = mark(mark(0, row.from), row.to);
    if row.aboard { left } else { both }
}

/// The pass in which a car at this position makes a call, as `pass_of`.
// (both tests are made in any case: where calls lie at random, a branch costs more than both)
fn pass_tested(row: &Row, position: &Position) -> Pass
    ensures { result ≡ pass_of position.now row.now }
{
    let first_leg = if row.aboard { row.to } else { row.from };
    let turns = row.dir() != position.dir;
    let is_ahead = is_ahead(position.dir, first_leg, position.floor);
    if turns {
        Pass::Second
    } else if is_ahead {
        Pass::First
    } else {
        Pass::Third
    }
}

/// The floor of a set that a car reaches first in this direction, and the set of the others.
fn first_of(set: u64, dir: Dir) -> (u32, u64)
    requires { 0 < set }
    ensures below { result.0 < MOST_FLOORS }
    ensures first { marked dir set ≡ floor_rank dir result.0 ∷ marked dir result.1 }
{
    match dir {
        Dir::Up => (set.trailing_zeros(), set & (set - 1)),
        Dir::Down => {
            let floor = 63 - set.leading_zeros();
            (floor, set ^ (1 << floor))
        }
    }
}

/// The first halt of a pass in this direction.
fn first_in(pass: Pass, dir: Dir, set: u64) -> Halt
    requires { 0 < set }
    ensures { (others : List HaltValue)
        → Some result ≡ slice_get (halts_marked pass dir set ++ others) 0 }
{
    let (floor, _others) = first_of(set, dir);
    halt_at(pass, floor)
}

/// Appends the halts of a pass in this direction, in the order of travel.
fn push_pass(halts: &mut ArrayVec<Halt, MOST_HALTS>, pass: Pass, dir: Dir, set: u64)
    requires { length halts.old.items + length (marked dir set) ≤ MOST_HALTS }
    ensures { halts.new.items ≡ halts.old.items ++ halts_marked pass dir set }
{
    let mut left = set;
    while left != 0 {
        let (floor, others) = first_of(left, dir);
        halts.push(halt_at(pass, floor));
        left = others;
    }
}

impl Marks {
    /// No halts.
    fn new() -> Self
        ensures { (position : PositionValue) → HasHalts [] position result }
    {
        Marks { sets: [0; 3] }
    }

    /// Marks the halts of a call, which a car makes in this pass.
    fn insert(&mut self, pass: Pass, row: &Row)
        ensures marks { (rows : List RowValue) (position : PositionValue)
            → pass ≡ pass_of position row.now → HasHalts rows position self.old
            → HasHalts (rows ++ row.now ∷ []) position self.new }
        ensures floors { HasFloors row.now }
    {
        self.sets[place_of(pass)] |= legs_of(row);
    }

    /// The halt that a car in this direction makes first.
    fn first_halt(&self, dir: Dir) -> Option<Halt>
        ensures { result ≡ slice_get (all_marked self.now dir) 0 }
    {
        let [first, second, third] = self.sets;
        if first != 0 {
            Some(first_in(Pass::First, dir, first))
        } else if second != 0 {
            Some(first_in(Pass::Second, dir.reverse(), second))
        } else if third != 0 {
            Some(first_in(Pass::Third, dir, third))
        } else {
            None
        }
    }

    /// Writes the halts of a car in this direction, in the order in which it makes them.
    fn write(&self, halts: &mut ArrayVec<Halt, MOST_HALTS>, dir: Dir)
        requires { length (all_marked self.now dir) ≤ MOST_HALTS }
        ensures { halts.new.items ≡ all_marked self.now dir }
    {
        let [first, second, third] = self.sets;
        halts.clear();
        push_pass(halts, Pass::First, dir, first);
        push_pass(halts, Pass::Second, dir.reverse(), second);
        push_pass(halts, Pass::Third, dir, third);
    }
}

/// The halts that a car at this position needs for these calls.
fn marks_of(rows: &[Row], position: &Position) -> Marks
    ensures marks { HasHalts rows.now position.now result }
    ensures floors { All HasFloors rows.now }
{
    let mut marks = Marks::new();
    for row in rows {
        // (an insert for each pass by its name keeps the three sets in registers)
        match pass_of(row, *position) {
            Pass::First => marks.insert(Pass::First, row),
            Pass::Second => marks.insert(Pass::Second, row),
            Pass::Third => marks.insert(Pass::Third, row),
        }
    }
    marks
}

/// The same. Those who leave at these halts join a table in which nobody leaves.
fn marks_of_leaving(rows: &[Row], position: &Position, leaving: &mut Leaving) -> Marks
    requires few { length rows.now ≤ MOST_WEIGHED }
    requires nobody { AreLeaving [] position.now leaving.old }
    ensures marks { HasHalts rows.now position.now result }
    ensures floors { All HasFloors rows.now }
    ensures leaving { AreLeaving rows.now position.now leaving.new }
    ensures parties { All HasParty rows.now }
{
    let mut marks = Marks::new();
    for row in rows {
        let pass = pass_tested(row, position);
        marks.insert(pass, row);
        leaving.add(pass, row);
    }
    marks
}

/// The halt that a car at this position makes first for these calls.
pub fn first_halt(rows: &[Row], position: &Position) -> Option<Halt>
    ensures { result ≡ slice_get (stop_list rows.now position.now) 0 }
{
    marks_of(rows, position).first_halt(position.dir)
}

/// Writes the halts that a car at this position still has to make for these calls, in the order in
/// which it makes them.
pub fn write_halts(halts: &mut ArrayVec<Halt, MOST_HALTS>, rows: &[Row], position: &Position)
    requires { length rows.now ≤ MOST_WEIGHED }
    ensures halts { halts.new.items ≡ stop_list rows.now position.now }
    ensures count { length halts.new.items ≤ 2 * length rows.now }
    ensures floors { All HasFloors rows.now }
{
    marks_of(rows, position).write(halts, position.dir);
}

/// Writes these halts, and how many persons leave there, by one walk along the calls.
pub fn write_list(
    halts: &mut ArrayVec<Halt, MOST_HALTS>,
    leaving: &mut Leaving,
    rows: &[Row],
    position: &Position,
)
    requires { length rows.now ≤ MOST_WEIGHED }
    ensures { AreListed position.now rows.now halts.new.items leaving.new }
{
    *leaving = Leaving::new();
    marks_of_leaving(rows, position, leaving).write(halts, position.dir);
}
