//! How many persons leave a car at each of its halts.

ghost use Rattle.std.specs.Prelude.{◌≡◌, ◌<◌, ◌≤◌, List, [], ◌∷◌, ◌++◌, All, length, slice_index};
ghost use Rattle.lift_base.specs.declared.history.Row.{Row as RowValue};
ghost use Rattle.lift_base.specs.declared.travel.Position.{Position as PositionValue};
ghost use Rattle.lift_stops.specs.StopList.{halt_at, pass_of};
ghost use Rattle.lift_stops.specs.Leaving.{AreLeaving, HasParty, leaving_at, place_of};

use crate::stops::pass_of;
use lift_base::{Halt, MOST_FLOORS, MOST_ROWS, MOST_WEIGHED, Pass, Position, Row};
use std::marker::Model;

/// The places of a table: one for each floor of each pass.
const PLACES: usize = 3 * MOST_FLOORS;

/// Where a halt stands in a table.
fn place_of(halt: &Halt) -> usize
    ensures value { result ≡ place_of halt.now }
    ensures limit { result < PLACES }
    ensures floor { halt.now.floor < MOST_FLOORS }
{
    let floor = usize::from(halt.floor.get());
    MOST_FLOORS * usize::from(halt.pass.number() - 1) + floor
}

/// Where the halt stands at which the passengers of a call leave a car that makes it in this pass.
fn goal_of(pass: Pass, row: &Row) -> usize
    ensures value { (position : PositionValue) → pass ≡ pass_of position row.now
        → result ≡ place_of (halt_at position row.now row.now.to) }
    ensures limit { result < PLACES }
    ensures floor { row.now.to < MOST_FLOORS }
{
    place_of(&Halt {
        pass,
        floor: row.to,
    })
}

/// How many persons of a car's open calls leave at each halt.
#[derive(Drop)]
pub struct Leaving {
    persons: [u16; PLACES],
}

impl Model for Leaving {
    ghost use Rattle.std.specs.Prelude.{ℕ, List};

    ghost Value = { List ℕ };

    ghost view = { λ l. l.persons };
}

impl Leaving {
    /// A table in which nobody leaves.
    pub(crate) fn new() -> Self
        ensures { (position : PositionValue) → AreLeaving [] position result }
    {
        Leaving {
            persons: [0; PLACES],
        }
    }

    /// Counts one call more, which a car makes in this pass.
    pub(crate) fn add(&mut self, pass: Pass, row: &Row)
        ensures added { (rows : List RowValue) (position : PositionValue) → length rows ≤ MOST_ROWS
            → pass ≡ pass_of position row.now → AreLeaving rows position self.old
            → AreLeaving (rows ++ row.now ∷ []) position self.new }
        ensures party { HasParty row.now }
    {
        let place = goal_of(pass, row);
        let persons = u16::from(row.party.get());
        // (33 calls of 15 persons at most: it never wraps)
        self.persons[place] = self.persons[place].wrapping_add(persons);
    }

    /// Who leaves where, of these calls of a car at this position, at most 33.
    pub fn of(rows: &[Row], position: &Position) -> Self
        requires { length rows.now ≤ MOST_WEIGHED }
        ensures leaving { AreLeaving rows.now position.now result }
        ensures parties { All HasParty rows.now }
    {
        let mut leaving = Leaving::new();
        for row in rows {
            leaving.add(pass_of(row, *position), row);
        }
        leaving
    }

    /// How many persons leave at a halt.
    pub fn at(&self, halt: &Halt) -> u16
        ensures value { result ≡ slice_index self.now (place_of halt.now) }
        ensures told { (rows : List RowValue) (position : PositionValue)
            → AreLeaving rows position self.now → result ≡ leaving_at rows position halt.now }
    {
        self.persons[place_of(halt)]
    }
}
