//! What a register shows after a recovery.
use crate::device::Device;
use crate::faults::case::{Case, Work};
use crate::groups::{floor, kiosk};
use lift_base::{Letter, Row, Terminal};
use lift_clerk::{Clerk, crash_shows_letters};
use lift_keeper::Keeper;
use lift_policy::Etd;
use lift_register::Register;

/// Whether there are this many calls, of which the first waits, for floor 5.
fn has_rows(rows: &[Row], calls: usize) -> bool {
    rows.len() == calls && rows.len() >= 1 && rows[0].to == floor(5) && !rows[0].aboard
}

/// Whether these are the last numbers where this many batches of the work are in.
fn has_numbers(register: &Register, work: &Work, batches: u32) -> bool {
    let stops = work.stops.wrapping_add(u32::from(batches > 2));
    register.last_number(kiosk(0)) == 1 + u32::from(batches > 1)
        && register.last_number(kiosk(1)) == u32::from(batches > 0)
        && register.last_number(kiosk(2)) == u32::from(batches > 0)
        && register.last_number(Terminal::of_car(Letter::default())) == stops
}

/// Whether the register shows just what was told before, and this many batches of the work.
pub(crate) fn has(register: &Register, work: &Work, batches: u32) -> bool {
    let calls = match batches {
        0 => 1,
        1 => 3,
        _ => 4,
    };
    has_rows(register.open_rows(Letter::default()), calls)
        && register.open_count() as usize == calls
        && register.done() == 0
        && has_numbers(register, work, batches)
}

/// Whether the keeper has begun.
fn has_begun(keeper: &Keeper<Device>) -> bool {
    !keeper.is_broken()
        && keeper.pending() == 0
        && keeper.view().position(Letter::default()) == None
}

/// Whether the clerk has begun, and shows what is in. A crash would show the letters.
pub(crate) fn shows(clerk: &Clerk<Device, Etd>, case: &Case) -> bool {
    crash_shows_letters(clerk);
    has_begun(clerk.keeper()) && has(clerk.keeper().register(), case.work, case.batches_in())
}
