//! A car's position and open calls as they change, and the stop list of them where it is listed.

ghost use Rattle.std.specs.Prelude.{◌≡◌, ◌≢◌, ◌+◌, ◌*◌, ◌<◌, ◌≤◌, List, [], ◌∷◌, ◌++◌, length, Contains};
ghost use Rattle.std.specs.Prelude.{All, IfSome, IsTrue};
ghost use Rattle.std.specs.List.{flat_map};
ghost use Rattle.lift_base.specs.declared.history.Row.{Row as RowValue};
ghost use Rattle.lift_base.specs.History.{row_after};
ghost use Rattle.lift_stops.specs.Parts.{AllDiffer};
ghost use Rattle.lift_stops.specs.StopList.{HasFloors, StopsInOrder, stop_list, next_stop};
ghost use Rattle.lift_stops.specs.Schedule.{PassesStay, position_after};
ghost use Rattle.lift_stops.specs.Leaving.{AreLeaving};

use crate::leaving::Leaving;
use crate::marks::write_list;
use crate::stops::{insert_row, is_ahead, next_stop, pass_of, stop_list, stop_of};
use arrayvec::ArrayVec;
use lift_base::{Halt, MOST_HALTS, MOST_ROWS, MOST_WEIGHED, Pass, Position, Row, Stop, serve_rows};
use std::marker::Model;

fn copy_of(halts: &[Halt]) -> ArrayVec<Halt, MOST_HALTS>
    requires { length halts.now ≤ MOST_HALTS }
    ensures { result.items ≡ halts.now }
{
    let mut copy = ArrayVec::new();
    let _fits = copy.try_extend_from_slice(halts);
    copy
}

/// Where a car is that makes a stop.
fn position_at(stop: &Stop) -> Position
    ensures { result ≡ position_after stop.now }
{
    Position {
        floor: stop.floor,
        dir: stop.dir,
    }
}

/// Whether a car that goes from one position to another makes each of its calls in the pass in which
/// it made it before, because it goes on in its direction and leaves no halt of its first pass
/// behind. No is promised nothing.
fn passes_stay(halts: &[Halt], position: &Position, next: &Position) -> bool
    ensures { (rows : List RowValue) → halts.now ≡ stop_list rows position.now
        → All HasFloors rows → IsTrue result → PassesStay rows position.now next.now }
{
    let dir = position.dir;
    if next.dir != dir || !is_ahead(dir, next.floor, position.floor) {
        return false;
    }
    match halts.first() {
        Some(halt) => match halt.pass {
            Pass::First => is_ahead(dir, halt.floor, next.floor),
            Pass::Second | Pass::Third => true,
        },
        None => true,
    }
}

/// A walk along so many calls costs less than to write a list of them.
const FEW_ROWS: usize = 8;

/// Where a car is, and its open calls. Where the schedule is listed, also the halts that the car
/// still has to make for them, and how many persons leave there: after any changes those of the
/// stop list that is made from nothing.
#[derive(Drop)]
pub struct Schedule {
    position: Position,
    /// Those of a car, at most 32, or one more while it is weighed.
    rows: ArrayVec<Row, MOST_WEIGHED>,
    is_listed: bool,
    /// Whether a new call was weighed by the list.
    is_weighed: bool,
    halts: ArrayVec<Halt, MOST_HALTS>,
    leaving: Leaving,
}

/// A schedule's list of halts, and who leaves there.
#[derive(Drop)]
pub struct Listed<'s> {
    /// The halts that the car still has to make, in the order in which it makes them.
    pub halts: &'s [Halt],
    /// How many persons leave at each halt.
    pub leaving: &'s Leaving,
}

impl Model for Schedule {
    ghost use Rattle.lift_stops.specs.Schedule.{ScheduleState, IsPlanned};

    ghost Value = { ScheduleState };

    ghost view = { λ s. record { position = s.position; rows = s.rows.items } };

    ghost invariant = { λ s. IsPlanned s.position s.rows.items s.is_listed
        s.halts.items s.leaving };
}

impl Schedule {
    /// The schedule of a car without open calls.
    pub fn new(position: Position) -> Self
        ensures { result ≡ record { position = position; rows = [] } }
    {
        Schedule {
            position,
            rows: ArrayVec::new(),
            is_listed: false,
            is_weighed: false,
            halts: ArrayVec::new(),
            leaving: Leaving::new(),
        }
    }

    /// A call is allotted to the car.
    pub fn insert(&mut self, row: Row)
        requires { length self.old.rows ≤ MOST_ROWS }
        ensures { self.new ≡ record self.old { rows = self.old.rows ++ row ∷ [] } }
    {
        if self.is_listed {
            insert_row(&mut self.halts, &self.position, &row);
            self.leaving.add(pass_of(&row, self.position), &row);
        }
        self.rows.push(row);
    }

    /// The car made a stop: its position is there, the passengers for this floor have left, and
    /// those who waited there for its direction have boarded.
    pub fn serve(&mut self, stop: Stop)
        ensures { self.new ≡ record {
          position = position_after stop;
          rows = flat_map (row_after stop) self.old.rows;
        } }
    {
        self.stand_at(position_at(&stop));
        if serve_rows(&mut self.rows, &stop) {
            self.is_listed = false;
        }
        self.list_again();
    }

    /// The car reported where it is. Its calls stay as they are.
    pub fn replace_position(&mut self, position: Position)
        ensures { self.new ≡ record self.old { position = position } }
    {
        self.stand_at(position);
        self.list_again();
    }

    /// The car is there; its list stays only if it is still that of its calls.
    fn stand_at(&mut self, position: Position)
        ensures { self.new ≡ record self.old { position = position } }
    {
        if self.is_listed && !passes_stay(&self.halts, &self.position, &position) {
            self.is_listed = false;
        }
        self.position = position;
    }

    /// Lists the halts and who leaves there, where they aren't listed. A new call is then weighed
    /// without going through the others. (No clause says that they are listed then.)
    pub fn list_halts(&mut self)
        ensures { self.new ≡ self.old }
    {
        if !self.is_listed {
            self.write_list();
        }
        self.is_weighed = true;
    }

    /// Where a call was weighed since the halts were listed, another one may be weighed after the
    /// next change: they are listed at once, so that the next stop is the first one of the list. Of
    /// few calls it is found as soon without one.
    fn list_again(&mut self)
        ensures { self.new ≡ self.old }
    {
        if self.is_weighed && !self.is_listed && self.rows.len() > FEW_ROWS {
            self.write_list();
            self.is_weighed = false;
        }
    }

    /// Lists the halts and who leaves there.
    fn write_list(&mut self)
        ensures { self.new ≡ self.old }
    {
        write_list(
            &mut self.halts,
            &mut self.leaving,
            &self.rows,
            &self.position,
        );
        self.is_listed = true;
    }

    /// The list of halts and who leaves there, where it is listed; none promises nothing.
    pub fn listed(&self) -> Option<Listed<'_>>
        ensures halts { IfSome result
            (λ listed. listed.halts.now ≡ stop_list self.now.rows self.now.position) }
        ensures limit { IfSome result (λ listed. length listed.halts.now ≤ MOST_HALTS) }
        ensures leaving { IfSome result
            (λ listed. AreLeaving self.now.rows self.now.position listed.leaving.now) }
    {
        if !self.is_listed {
            return None;
        }
        Some(Listed {
            halts: &self.halts,
            leaving: &self.leaving,
        })
    }

    /// The halts that the car still has to make, in the order in which it makes them.
    pub fn halts(&self) -> ArrayVec<Halt, MOST_HALTS>
        ensures halts { result.items ≡ stop_list self.now.rows self.now.position }
        ensures limit { length result.items ≤ MOST_HALTS }
        ensures count { length result.items ≤ 2 * length self.now.rows }
        // No halt stands twice.
        ensures differ { AllDiffer result.items }

        // Wherever the car is, the halts of an open call stand in the list in the order in which
        // its passengers need them.
        ensures in_order { (row : RowValue) → Contains self.now.rows row → row.from ≢ row.to
            → StopsInOrder self.now.rows row }
    {
        if self.is_listed {
            copy_of(&self.halts)
        } else {
            stop_list(&self.rows, self.position)
        }
    }

    /// The halts with one call more.
    pub fn halts_with(&self, row: &Row) -> ArrayVec<Halt, MOST_HALTS>
        requires { length self.now.rows ≤ MOST_ROWS }
        ensures { result.items ≡ stop_list (self.now.rows ++ row.now ∷ []) self.now.position }
    {
        let mut halts = self.halts();
        insert_row(&mut halts, &self.position, row);
        halts
    }

    /// The stop that the car makes next.
    pub fn next_stop(&self) -> Option<Stop>
        ensures { result ≡ next_stop self.now.rows self.now.position }
    {
        if !self.is_listed {
            return next_stop(&self.rows, self.position);
        }
        let first = self.halts.first()?;
        Some(stop_of(*first, self.position))
    }

    /// Where the car is.
    pub fn position(&self) -> Position
        ensures { result ≡ self.now.position }
    {
        self.position
    }

    /// The open calls, in order of allotment.
    pub fn rows(&self) -> &[Row]
        ensures rows { result.now ≡ self.now.rows }
        ensures limit { length result.now ≤ MOST_WEIGHED }
    {
        self.rows.as_slice()
    }
}
