//! The stops that a car still has to make, in the order in which it makes them.

ghost use Rattle.std.specs.Prelude.{◌≡◌, ◌≢◌, ◌+◌, ◌*◌, ◌<◌, ◌≤◌, nat_lt, List, [], ◌∷◌, ◌++◌, IfOk};
ghost use Rattle.std.specs.Prelude.{IfErr, Contains, insert, length, slice_index_or};
ghost use Rattle.arrayvec.specs.ArrayVec.{array_vec_len};
ghost use Rattle.lift_base.specs.declared.history.Row.{Row as RowValue};
ghost use Rattle.lift_stops.specs.Insertion.{IsSplit, put, rank_of};
ghost use Rattle.lift_stops.specs.Parts.{AllDiffer};
ghost use Rattle.lift_stops.specs.StopList.{HasFloors, StopsInOrder, is_ahead, pass_of, dir_in};
ghost use Rattle.lift_stops.specs.StopList.{stop_list, stop_of, next_stop};

use crate::marks::{first_halt, write_halts};
use arrayvec::ArrayVec;
use lift_base::{
    Dir, Floor, Halt, MOST_FLOORS, MOST_HALTS, MOST_WEIGHED, Pass, Position, Row, Stop,
};

/// Whether a floor is at another one, or ahead of it in a direction.
pub fn is_ahead(dir: Dir, floor: Floor, other: Floor) -> bool
    ensures { result ≡ is_ahead dir floor other }
{
    match dir {
        Dir::Up => other <= floor,
        Dir::Down => floor <= other,
    }
}

/// The pass in which a car at this position makes a call: the first where the call goes the car's
/// way and its next leg is at the car or ahead of it, the second where it goes the other way, the
/// third where that leg is behind.
pub fn pass_of(row: &Row, position: Position) -> Pass
    ensures { result ≡ pass_of position row.now }
{
    let first_leg = if row.aboard { row.to } else { row.from };
    if row.dir() != position.dir {
        Pass::Second
    } else if is_ahead(position.dir, first_leg, position.floor) {
        Pass::First
    } else {
        Pass::Third
    }
}

/// The direction in which a car of this direction makes a pass.
fn dir_in(dir: Dir, pass: Pass) -> Dir
    ensures { result ≡ dir_in dir pass }
{
    match pass {
        Pass::First | Pass::Third => dir,
        Pass::Second => dir.reverse(),
    }
}

/// The stop that a car at this position makes at a halt.
pub fn stop_of(halt: Halt, position: Position) -> Stop
    ensures { result ≡ stop_of halt position }
{
    Stop {
        floor: halt.floor,
        dir: dir_in(position.dir, halt.pass),
    }
}

/// Whether a car of this direction makes one halt before another.
fn comes_before(dir: Dir, halt: &Halt, other: &Halt) -> bool
    ensures order { result ≡ nat_lt (rank_of dir halt.now) (rank_of dir other.now) }
    ensures floors { halt.now.floor < MOST_FLOORS × other.now.floor < MOST_FLOORS }
{
    let (here, there) = (halt.floor.get(), other.floor.get());
    if halt.pass != other.pass {
        return halt.pass.number() < other.pass.number();
    }
    match dir_in(dir, halt.pass) {
        Dir::Up => here < there,
        Dir::Down => there < here,
    }
}

/// Where this halt stands among sorted ones, or else the place to put it at.
pub fn find_halt(halts: &[Halt], dir: Dir, halt: &Halt) -> Result<usize, usize>
    ensures found { IfOk result (λ at. at < length halts.now × slice_index_or halts.now at halt.now
        ≡ halt.now
        × put (rank_of dir) halt.now halts.now ≡ halts.now) }
    ensures missing { IfErr result
        (λ at. at ≤ length halts.now
        × put (rank_of dir) halt.now halts.now ≡ insert halts.now at halt.now) }
{
    for (i, other) in halts.iter().enumerate() {
        if !comes_before(dir, other, halt) {
            return if other == halt { Ok(i) } else { Err(i) };
        }
    }
    Err(halts.len())
}

/// A stop list split at a halt.
#[derive(Drop)]
pub struct Split<'h> {
    /// The halts before it.
    pub before: &'h [Halt],
    /// Whether the halt is in the list.
    pub is_there: bool,
    /// The halts after it.
    pub behind: &'h [Halt],
}

/// Splits the sorted halts of a car of this direction at a halt, or where that is to be put.
pub fn split_at<'h>(halts: &'h [Halt], dir: Dir, halt: &Halt) -> Split<'h>
    ensures { IsSplit (rank_of dir) halt.now halts.now result.before.now result.is_there
        result.behind.now }
{
    match find_halt(halts, dir, halt) {
        Ok(at) => Split {
            before: &halts[..at],
            is_there: true,
            behind: &halts[at + 1..],
        },
        Err(at) => Split {
            before: &halts[..at],
            is_there: false,
            behind: &halts[at..],
        },
    }
}

/// Puts a halt at its place, unless it is there already.
fn insert_halt(halts: &mut ArrayVec<Halt, MOST_HALTS>, dir: Dir, halt: &Halt)
    requires { array_vec_len halts.old < MOST_HALTS }
    ensures halts { halts.new.items ≡ put (rank_of dir) halt.now halts.old.items }
    ensures count { array_vec_len halts.new ≤ array_vec_len halts.old + 1 }
    ensures floor { halt.now.floor < MOST_FLOORS }
{
    let _floor = halt.floor.get();
    if let Err(at) = find_halt(halts, dir, halt) {
        halts.insert(at, *halt);
    }
}

/// Puts the halts of a call at their places.
pub fn insert_row(halts: &mut ArrayVec<Halt, MOST_HALTS>, position: &Position, row: &Row)
    requires { array_vec_len halts.old + 1 < MOST_HALTS }
    ensures halts { (rows : List RowValue) → halts.old.items ≡ stop_list rows position.now
        → halts.new.items ≡ stop_list (rows ++ row.now ∷ []) position.now }
    ensures count { array_vec_len halts.new ≤ array_vec_len halts.old + 2 }
    ensures floors { HasFloors row.now }
{
    let pass = pass_of(row, *position);
    let (from, to) = (row.from, row.to);
    if row.aboard {
        insert_halt(halts, position.dir, &Halt { pass, floor: to });
    } else {
        insert_halt(halts, position.dir, &Halt { pass, floor: from });
        insert_halt(halts, position.dir, &Halt { pass, floor: to });
    }
}

/// The halts that a car at this position still has to make for these calls, in the order in which
/// it makes them.
pub fn stop_list(rows: &[Row], position: Position) -> ArrayVec<Halt, MOST_HALTS>
    requires { length rows.now ≤ MOST_WEIGHED }
    ensures halts { result.items ≡ stop_list rows.now position }
    ensures count { length result.items ≤ 2 * length rows.now }
    // No halt stands twice.
    ensures differ { AllDiffer result.items }

    // Wherever the car is, the halts of an open call stand in the list in the order in which its
    // passengers need them.
    ensures in_order { (row : RowValue) → Contains rows.now row → row.from ≢ row.to
        → StopsInOrder rows.now row }
{
    let mut halts = ArrayVec::new();
    write_halts(&mut halts, rows, &position);
    halts
}

/// The stop that a car at this position makes next for these calls.
pub fn next_stop(rows: &[Row], position: Position) -> Option<Stop>
    ensures { result ≡ next_stop rows.now position }
{
    let halt = first_halt(rows, &position)?;
    Some(stop_of(halt, position))
}
