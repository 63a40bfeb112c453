//! Registers: one that grows by entries, and one that is read from a checkpoint's records.
ghost use Rattle.lift_register.specs.Balanced.{IsBalanced};

use crate::cases::{Came, entry_of, record_of, terminal_of};
use lift_base::text::{letter_of_word, number_up_to};
use lift_base::{Record, Row, Terminal};
use lift_building::Building;
use lift_register::Register;

#[derive(Drop)]
pub(crate) struct Registers<'b> {
    building: &'b Building,
    register: Register,
    checkpoint: Register,
    ghost balanced: { IsBalanced register },
}

/// What an entry or a record comes to that can't be taken in.
const MISFIT: &str = "misfit";

/// A car's open calls, in order of allotment.
fn push_rows(rows: &[Row], came: &mut Came) {
    for (index, row) in rows.iter().enumerate() {
        if index > 0 {
            came.joined(',');
        }
        came.row(row);
    }
    if rows.is_empty() {
        came.word("none");
    }
}

/// A terminal's last command.
fn push_last(register: &Register, terminal: Terminal, came: &mut Came) {
    match register.last(terminal) {
        Some(last) => came.last(terminal, &last),
        None => came.word("none"),
    }
}

/// The record at a place of the register's checkpoint, counted from 0.
fn push_record(register: &Register, place: u32, came: &mut Came) -> Option<()> {
    let place = place as usize;
    if place >= register.base_len() {
        return None;
    }
    came.record(&register.base_record(place));
    Some(())
}

fn push_calls(register: &Register, came: &mut Came) {
    came.word(register.open_count());
    came.word("open,");
    came.word(register.done());
    came.word("done");
}

/// What is asked of a register.
pub(crate) fn asked(register: &Register, words: &[&str], came: &mut Came) -> Option<()> {
    match words {
        ["open", car] => push_rows(register.open_rows(letter_of_word(car)?), came),
        ["last", who] => push_last(register, terminal_of(who)?, came),
        ["number", who] => came.word(register.last_number(terminal_of(who)?)),
        ["record", place] => push_record(register, number_up_to(place, 575)?, came)?,
        ["records"] => came.word(register.base_len()),
        ["calls"] => push_calls(register, came),
        _ => return None,
    }
    Some(())
}

impl<'b> Registers<'b> {
    pub(crate) fn new(building: &'b Building) -> Self {
        let shape = building.shape(64);
        Registers {
            building,
            register: Register::empty(shape),
            checkpoint: Register::empty(shape),
        }
    }

    /// `register allot K0 1 0 5 A x2` and `register stop A 1 0 up`: an entry more, where it fits.
    fn take(&mut self, words: &[&str], came: &mut Came) -> Option<()> {
        let entry = &entry_of(words)?;
        if self.register.fits(self.building, entry) {
            self.register.apply(self.building, entry);
        } else {
            came.word(MISFIT);
        }
        Some(())
    }

    /// `checkpoint holds row K0 1 0 5 A aboard`: a record more, where it fits.
    fn take_record(&mut self, record: Option<Record>, came: &mut Came) -> Option<()> {
        match record {
            Some(record) => {
                if self.checkpoint.base_fits(self.building, &record) {
                    self.checkpoint.apply_base(self.building, &record);
                } else {
                    came.word(MISFIT);
                }
                Some(())
            }
            None => None,
        }
    }

    /// `checkpoint fits done 1`.
    fn fits(&self, record: Option<Record>, came: &mut Came) -> Option<()> {
        match record {
            Some(record) => {
                came.yes_or_no(self.checkpoint.base_fits(self.building, &record));
                Some(())
            }
            None => None,
        }
    }

    pub(crate) fn answer(&mut self, words: &[&str], came: &mut Came) -> Option<()> {
        match words {
            ["allot" | "stop", ..] => self.take(words, came),
            ["fits", entry @ ..] => {
                came.yes_or_no(self.register.fits(self.building, &entry_of(entry)?));
                Some(())
            }
            _ => asked(&self.register, words, came),
        }
    }

    pub(crate) fn checkpoint(&mut self, words: &[&str], came: &mut Came) -> Option<()> {
        match words {
            ["holds", record @ ..] => self.take_record(record_of(record), came),
            ["fits", record @ ..] => self.fits(record_of(record), came),
            ["same"] => {
                came.yes_or_no(self.checkpoint.is_same(&self.register));
                Some(())
            }
            _ => asked(&self.checkpoint, words, came),
        }
    }
}
