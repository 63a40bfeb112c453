//! The register that the records of a journal make.

ghost use Rattle.std.specs.Prelude.{◌≡◌, ◌≤◌, ◌<◌, ◌+◌, ◌^◌, ◌↔◌, ◌∷◌, [], ◌*◌, IsTrue, IsFalse};
ghost use Rattle.std.specs.Prelude.{IfSome, IfNone, length, true, false};
ghost use Rattle.lift_register.specs.Prelude.{register_of, Fits, BelongsTo, IsBalanced};
ghost use Rattle.lift_register.specs.Prelude.{IsWellFormed};
ghost use Rattle.lift_register.specs.Base.{BaseFits, with_record};
ghost use Rattle.lift_keeper.specs.Recovery.{beginning, leaves_open, Passes, passed, AllPass};
ghost use Rattle.lift_keeper.specs.Recovery.{all_passed, EndsAtMisfit};

use lift_base::{Entry, LEAST_HALF, Record};
use lift_building::Building;
use lift_register::Register;
use std::marker::Model;

/// What the records so far have made.
#[derive(Drop)]
pub struct Recovery<'b> {
    building: &'b Building,
    register: Register,
    /// A checkpoint has begun and not ended.
    is_open: bool,
    /// How many records were taken.
    taken: u32,
}

impl<'b> Model for Recovery<'b> {
    ghost use Rattle.lift_keeper.specs.Recovery.{RecoveryState, IsRecovery};

    ghost Value = { RecoveryState };

    ghost view = { λ r. record {
      plan = r.building.now;
      register = r.register;
      is_open = r.is_open;
      taken = r.taken;
    } };

    ghost invariant = { λ r. IsRecovery r.building.now r.register r.is_open };
}

impl<'b> Recovery<'b> {
    /// Before the first record.
    pub fn new(building: &'b Building) -> Self
        ensures { result ≡ beginning building.now }
    {
        Recovery {
            building,
            register: Register::empty(building.shape(LEAST_HALF)),
            is_open: false,
            taken: 0,
        }
    }

    /// How many records were taken.
    pub fn taken(&self) -> u32
        ensures { result ≡ self.now.taken }
    {
        self.taken
    }

    /// Takes in an accepted command, if it fits and no checkpoint is open.
    fn take_entry(&mut self, entry: &Entry) -> bool
        requires room { self.old.taken + 1 < 2 ^ 32 }
        ensures fits { IsTrue result
            ↔ ((self.old.is_open ≡ false) × Fits self.old.plan self.old.register entry.now) }
        ensures passed { IsTrue result → self.new ≡ record {
          plan = self.old.plan;
          register = register_of self.old.register (entry.now ∷ []);
          is_open = false;
          taken = self.old.taken + 1;
        } }
        ensures stays { IsFalse result → self.new ≡ self.old }
    {
        if self.is_open || !self.register.fits(self.building, entry) {
            return false;
        }
        self.register.apply(self.building, entry);
        self.taken += 1;
        true
    }

    /// Takes in a part of a checkpoint, if it fits.
    // (few records are such parts: apart from the loop, it costs the others nothing)
    #[inline(never)]
    fn take_base(&mut self, content: &Record) -> bool
        requires room { self.old.taken + 1 < 2 ^ 32 }
        ensures fits { IsTrue result ↔ BaseFits self.old.plan self.old.register content.now }
        ensures passed { IsTrue result → self.new ≡ record {
          plan = self.old.plan;
          register = with_record self.old.register content.now;
          is_open = leaves_open content.now;
          taken = self.old.taken + 1;
        } }
        ensures stays { IsFalse result → self.new ≡ self.old }
    {
        if !self.register.base_fits(self.building, content) {
            return false;
        }
        self.register.apply_base(self.building, content);
        self.is_open = leaves_open(content);
        self.taken += 1;
        true
    }

    /// Takes in a record, if it fits and no entry stands within a checkpoint.
    fn take(&mut self, content: &Record) -> bool
        requires room { self.old.taken + 1 < 2 ^ 32 }
        ensures fits { IsTrue result ↔ Passes self.old content.now }
        ensures passed { IsTrue result → self.new ≡ passed self.old content.now }
        ensures stays { IsFalse result → self.new ≡ self.old }
    {
        match *content {
            Record::Entry(ref entry) => self.take_entry(entry),
            Record::Row(_) | Record::Last { .. } | Record::Done { .. } => self.take_base(content),
        }
    }

    /// Takes in these records, up to the first that doesn't fit.
    // (as a function of its own it keeps in registers what it looks at for each record)
    #[inline(never)]
    pub fn take_all(&mut self, records: &[Record]) -> bool
        requires room { self.old.taken + length records.now + 1 < 2 ^ 32 }
        ensures pass { IsTrue result
            → AllPass self.old records.now × (self.new ≡ all_passed self.old records.now) }
        ensures misfit { IsFalse result → EndsAtMisfit self.old self.new records.now }
        ensures plan { self.new.plan ≡ self.old.plan }
        ensures limit { self.new.taken ≤ self.old.taken + length records.now }
    {
        for content in records {
            if !self.take(content) {
                return false;
            }
        }
        true
    }

    /// The register that the records have made, if no checkpoint is open.
    pub fn register(self) -> Option<Register>
        ensures some { IfSome result (λ register. (register ≡ self.entry.register)
            × (self.entry.is_open ≡ false) × IsWellFormed register
            × BelongsTo self.entry.plan register × IsBalanced register) }
        ensures none { IfNone result (self.entry.is_open ≡ true) }
    {
        if self.is_open {
            None
        } else {
            Some(self.register)
        }
    }
}

/// Whether a checkpoint has begun and not ended after this record.
fn leaves_open(content: &Record) -> bool
    ensures { result ≡ leaves_open content.now }
{
    match *content {
        Record::Row(_) | Record::Last { .. } => true,
        Record::Entry(_) | Record::Done { .. } => false,
    }
}
