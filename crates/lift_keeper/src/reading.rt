//! What an opening reads of a journal.

ghost use Rattle.std.specs.Prelude.{◌≡◌, ◌⊎◌, true, IfOk, IfErr};
ghost use Rattle.lift_keeper.specs.Reading.{reading_from, GivesAtEnd};

use crate::recovery::Recovery;
use arrayvec::ArrayVec;
use lift_base::{MOST_ENTRIES, Record};
use lift_building::Building;
use lift_journal::Visitor;
use lift_register::Register;
use std::marker::Model;

/// More records than a journal has room for.
const MOST_RECORDS: u32 = 4_000_000_000;

/// Takes in the records of the batches that it is shown, up to the first that doesn't fit.
#[derive(Drop)]
pub struct Reading<'b> {
    recovery: Recovery<'b>,
    /// A record didn't fit: none after it is taken.
    is_over: bool,
}

impl<'b> Model for Reading<'b> {
    ghost use Rattle.lift_keeper.specs.Reading.{ReadingState};

    ghost Value = { ReadingState };

    ghost view = { λ r. record { recovery = r.recovery; is_over = r.is_over } };
}

impl<'b> Reading<'b> {
    /// Before the first batch.
    pub fn new(building: &'b Building) -> Self
        ensures { result ≡ reading_from building.now }
    {
        Reading {
            recovery: Recovery::new(building),
            is_over: false,
        }
    }

    /// The register that the records have made, if all were taken and no checkpoint is open; else
    /// how many were taken.
    pub fn register(self) -> Result<Register, u32>
        ensures gives { IfOk result (λ register. GivesAtEnd self.entry register) }
        ensures none { IfErr result (λ place. (place ≡ self.entry.recovery.taken)
            × ((self.entry.is_over ≡ true) ⊎ (self.entry.recovery.is_open ≡ true))) }
    {
        let taken = self.recovery.taken();
        if self.is_over {
            return Err(taken);
        }
        self.recovery.register().ok_or(taken)
    }
}

impl<'b> Visitor for Reading<'b> {
    ghost use Rattle.lift_keeper.specs.Reading.{ReadsBatch};

    ghost takes = { ReadsBatch };

    fn visit(&mut self, records: &ArrayVec<Record, MOST_ENTRIES>) {
        if self.is_over {
            return;
        }
        if self.recovery.taken() > MOST_RECORDS {
            self.is_over = true;
            return;
        }
        self.is_over = !self.recovery.take_all(records);
    }
}
