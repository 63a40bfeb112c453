//! The open calls of each car.
ghost use Rattle.std.specs.Prelude.{◌≡◌, ◌↔◌, IsTrue, ◌+◌, ◌<◌, ◌≤◌, [], ◌∷◌, ◌++◌, length};
ghost use Rattle.std.specs.Prelude.{slice_index_or, slice_set, None, IfSome};
ghost use Rattle.std.specs.List.{flat_map};
ghost use Rattle.lift_base.specs.History.{row_after};
ghost use Rattle.lift_register.specs.Rows.{row_lists};

use arrayvec::ArrayVec;
use lift_base::{Last, Letter, MOST_CARS, MOST_ROWS, MOST_TERMINALS, Row, Stop, serve_rows};

/// Takes a stop of a car into the car's rows, and answers how many calls it ends, none where it
/// changes none.
fn serve(rows: &mut ArrayVec<Row, MOST_ROWS>, stop: &Stop) -> Option<u32>
    ensures rows { rows.new.items ≡ flat_map (row_after stop.now) rows.old.items }
    ensures unchanged { result ≡ None → rows.new.items ≡ rows.old.items }
    ensures ended { IfSome result (λ ended. ended + length rows.new.items ≡ length rows.old.items) }
    ensures limit { length rows.old.items ≤ MOST_ROWS }
{
    let count = rows.len();
    if serve_rows(rows, stop) {
        Some((count - rows.len()) as u32)
    } else {
        None
    }
}

/// Adds an open call to the rows of its car.
pub fn push_row(rows: &mut [ArrayVec<Row, MOST_ROWS>; MOST_CARS], row: Row)
    requires { length (slice_index_or (row_lists rows.old) row.car []) < MOST_ROWS }
    ensures car { row.car < MOST_CARS }
    ensures rows { row_lists rows.new
        ≡ slice_set (row_lists rows.old) row.car
        (slice_index_or (row_lists rows.old) row.car [] ++ row ∷ []) }
{
    let rows = &mut rows[row.car.get() as usize];
    rows.push(row);
}

/// Takes a stop of a car, and answers how many calls it ends, none where it changes none.
pub fn serve_car(
    rows: &mut [ArrayVec<Row, MOST_ROWS>; MOST_CARS],
    car: Letter,
    stop: &Stop,
) -> Option<u32>
    ensures rows { row_lists rows.new
        ≡ slice_set (row_lists rows.old) car
        (flat_map (row_after stop.now) (slice_index_or (row_lists rows.old) car [])) }
    ensures unchanged { result ≡ None → row_lists rows.new ≡ row_lists rows.old }
    ensures ended { IfSome result (λ ended. ended
        + length (flat_map (row_after stop.now) (slice_index_or (row_lists rows.old) car []))
        ≡ length (slice_index_or (row_lists rows.old) car [])) }
    ensures car { car < MOST_CARS }
    ensures limit { IfSome result (λ ended. ended ≤ MOST_ROWS) }
{
    let rows = &mut rows[car.get() as usize];
    serve(rows, stop)
}

/// Whether both have the same open calls in each car.
pub fn same_rows(
    rows: &[ArrayVec<Row, MOST_ROWS>; MOST_CARS],
    others: &[ArrayVec<Row, MOST_ROWS>; MOST_CARS],
) -> bool
    ensures { IsTrue result ↔ (row_lists rows.now ≡ row_lists others.now) }
{
    rows == others
}

/// Whether both have the same last commands.
pub fn same_lasts(
    lasts: &[Option<Last>; MOST_TERMINALS],
    others: &[Option<Last>; MOST_TERMINALS],
) -> bool
    ensures { IsTrue result ↔ (lasts.now ≡ others.now) }
{
    lasts == others
}
