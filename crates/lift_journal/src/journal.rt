//! Batches of records, each in the journal whole or not at all.
ghost use Rattle.std.specs.Prelude.{◌≡◌, ◌≤◌, ◌<◌, ◌+◌, ◌-◌, ◌⊎◌, ◌↔◌, ℕ, List};
ghost use Rattle.std.specs.Prelude.{None, IsTrue, length, OnOk, true, false};
ghost use Rattle.std.specs.Prelude.{All, Ok, Err, IfOk, IfErr};
ghost use Rattle.lift_base.specs.History.{IsWithinLimits};
ghost use Rattle.lift_base.specs.Records.{IsLawful};
ghost use Rattle.lift_disk.specs.Disk.{IsSynced};
ghost use Rattle.lift_register.specs.Base.{base_records};
ghost use Rattle.lift_journal.specs.Layout.{body_size, Batch, Holds};
ghost use Rattle.lift_journal.specs.Order.{IsEntry};
ghost use Rattle.lift_journal.specs.Steps.{ReadsOnly, IsSyncedAt};
ghost use Rattle.lift_journal.specs.ChainStep.{IsOfCursor};
ghost use Rattle.lift_journal.specs.Becomes.{AddsBatch, PutsCheckpoint, RefusesForRoom};
ghost use Rattle.lift_journal.specs.Becomes.{GoesAfterBatch, GoesAfterCheckpoint};
ghost use Rattle.lift_journal.specs.Storing.{AppendCalls, AppendStops};
ghost use Rattle.lift_journal.specs.Storing.{CheckpointCalls, CheckpointStops};
ghost use Rattle.lift_journal.specs.Next.{GivesNext, MovesCursor, NextCalls};
ghost use Rattle.lift_journal.specs.Visits.{TakesAll, HasTaken, ShownBefore};

use crate::batch::Stored;
use crate::body::body_count;
use crate::checkpoint::{batches_for, other_half, write_checkpoint};
use crate::device::write_records;
use crate::fault::JournalFault;
use crate::place::{Place, find_place};
use crate::reads::{AtGate, look};
use crate::visitor::{Nobody, Visitor};
use arrayvec::ArrayVec;
use lift_base::{MOST_ENTRIES, Record, Shape};
use lift_disk::{Arm, Disk, DiskFault};
use lift_register::Register;
use std::marker::Model;
use std::mem::replace;
use std::snapshot::Snapshot;

/// A journal over a device.
#[derive(Drop)]
pub struct Journal<D: Disk> {
    device: D,
    place: Place,
    is_broken: bool,
    /// The device when it was last opened.
    at_opening: Snapshot<D>,
}

impl<D: Disk> Model for Journal<D> {
    ghost use Rattle.lift_journal.specs.Journal.{JournalView, IsJournal, view_from};

    ghost Value = { JournalView D };

    ghost view = { λ j. view_from j.device j.place j.is_broken
        (D.state j.at_opening.value).failures };

    ghost invariant = { λ j.
        IsJournal j.place j.is_broken (D.state j.at_opening.value).failures (D.state j.device) };
}

/// A place in the list of batches, for [`Journal::next`].
#[derive(Clone, Copy)]
pub struct Cursor {
    skipped: u32,
    given: u32,
}

impl Model for Cursor {
    ghost use Rattle.std.specs.Prelude.{◌<◌, ◌≤◌};
    ghost use Rattle.lift_journal.specs.Journal.{CursorView};

    ghost Value = { CursorView };

    ghost view = { λ c. record { skipped = c.skipped; given = c.given } };

    ghost invariant = { λ c. (c.skipped < 1000000) × (c.given ≤ c.skipped) };

    ghost inverse = { λ c. record { skipped = c.skipped; given = c.given } };
}

/// Where a journal stood before it was opened again, for [`Journal::return_to`]: all of it but the
/// device.
#[derive(Drop)]
pub struct FormerPlace<D: Disk> {
    place: Place,
    is_broken: bool,
    at_opening: Snapshot<D>,
    device: Snapshot<D>,
}

impl<D: Disk> Model for FormerPlace<D> {
    ghost use Rattle.lift_journal.specs.Journal.{JournalView, IsJournal, view_from};

    ghost Value = { JournalView D };

    ghost view = { λ f.
        view_from f.device.value f.place f.is_broken (D.state f.at_opening.value).failures };

    ghost invariant = { λ f.
        IsJournal f.place f.is_broken (D.state f.at_opening.value).failures
        (D.state f.device.value) };
}

impl<D: Disk> Journal<D> {
    ghost use Rattle.lift_journal.specs.Journal.{JournalHolds, IsCursorIn};
    ghost use Rattle.lift_journal.specs.Answers.{OpensAs, RefusesAt, JournalReopens, BreaksByFault};

    /// The installation that the device was formatted for.
    pub fn shape(&self) -> Shape
        ensures value { result ≡ self.now.shape }
        ensures within { IsWithinLimits result }
    {
        self.place.shape
    }

    /// Whether a batch of this many records (1 to 63) has room.
    pub fn room(&self, count: usize) -> bool
        ensures room { IsTrue result ↔ (self.now.used + body_size count + 2 ≤ self.now.shape.half) }
        // Until a call of the device fails, an honest one has some batches.
        ensures holds { self.now.is_broken ≡ false → (D.state self.now.device).is_honest
            → (batches : List Batch) × JournalHolds D.state self.now batches }
    {
        let used = (self.place.gate - self.place.start) as usize;
        used + body_count(count) + 2 <= self.place.shape.half as usize
    }

    /// The device, as it is.
    #[inline(never)]
    pub fn into_disk(self) -> D
        ensures { result ≡ self.device }
    {
        self.device
    }

    /// Opens a device that a crash may have left. It writes nothing. An `Err` hands the device
    /// back.
    pub fn open(disk: D) -> Result<Journal<D>, (D, JournalFault)>
        ensures opens { IfOk result (λ journal. OpensAs D.state (D.state disk) journal) }
        ensures refused { IfErr result (λ err. RefusesAt (D.state disk) (D.state err.0) err.1) }
    {
        Journal::open_with(disk, &mut Nobody)
    }

    /// Opens it as [`Journal::open`] does, and shows the visitor each batch on the way, so that
    /// each is read once. Where it is refused, the visitor was shown those before the refusal.
    // (the compiler takes minutes over what moves a device of 16 sectors through it)
    #[inline(never)]
    pub fn open_with<V: Visitor>(disk: D, visitor: &mut V) -> Result<Journal<D>, (D, JournalFault)>
        ensures opens { IfOk result (λ journal. OpensAs D.state (D.state disk) journal) }
        ensures refused { IfErr result (λ err. RefusesAt (D.state disk) (D.state err.0) err.1) }
        // Just the batches that are there, each once and in their order.
        ensures shown { IfOk result (λ journal. (D.state disk).is_honest → (batches : List Batch)
            → Holds journal.shape batches (D.state journal.device).image
            → TakesAll V.takes visitor.old batches visitor.new) }
        // Of any device, and where it is refused: batches that may begin a chain.
        ensures shown_some { HasTaken V.takes 1000000 visitor.old visitor.new }
        // Where it is refused, of an honest device: just the batches before what refuses it.
        ensures shown_before { IfErr result (λ err. ShownBefore V.takes err.1
            (D.state disk) (D.state err.0) visitor.old visitor.new) }
    {
        let mut device = disk;
        match find_place(&mut device, visitor) {
            Ok(place) => {
                let at_opening = Snapshot::of(&device);
                Ok(Journal {
                    device,
                    place,
                    is_broken: false,
                    at_opening,
                })
            }
            Err(fault) => Err((device, fault)),
        }
    }

    /// Adds a batch after those that the journal holds. At `Ok` it is safe: until the next append or
    /// checkpoint each crash of an honest device leaves an image that has it.
    pub fn append(&mut self, batch: &ArrayVec<Record, MOST_ENTRIES>) -> Result<(), JournalFault>
        requires some { 1 ≤ length batch.now.items }
        requires lawful { All IsLawful batch.now.items }
        requires entries { All IsEntry batch.now.items }
        // It becomes the batches from before and this one, in the same half.
        ensures becomes { self.old.is_broken ≡ false → AddsBatch D.state self.old batch.now.items self.new result }
        // At Ok the next batch goes after this one, else where this one would have gone.
        ensures goes { GoesAfterBatch self.old (length batch.now.items) self.new result }
        // A call of the device that fails breaks it; a broken journal makes none and stays as it
        // is.
        ensures breaks { BreaksByFault D.state self.old self.new result }
        // Full just where there is no room, and then nothing is changed.
        ensures refuses { RefusesForRoom self.old (length batch.now.items) self.new result }
        // The body and the next gate, a sync, the gate, a sync.
        ensures calls { AppendCalls D.state self.old batch.now.items self.new result }
        // Where it failed says what a cut leaves.
        ensures fails { AppendStops D.state self.old batch.now.items self.new result }
    {
        if self.is_broken {
            return Err(JournalFault::Broken);
        }
        let bodies = body_count(batch.len());
        let used = (self.place.gate - self.place.start) as usize;
        if used + bodies + 2 > self.place.shape.half as usize {
            return Err(JournalFault::Full);
        }
        if write_records(&mut self.device, self.place.gate, batch, self.place.number).is_err() {
            self.is_broken = true;
            return Err(JournalFault::Disk);
        }
        self.place.gate += bodies as u32 + 1;
        self.place.number += 1;
        Ok(())
    }

    /// Puts a checkpoint of this register in the place of all batches, in the half that isn't
    /// picked. At `Ok` it is safe.
    pub fn replace(&mut self, register: &Register) -> Result<(), JournalFault>
        // It becomes the checkpoint alone, in the other half.
        ensures becomes { self.old.is_broken ≡ false
            → PutsCheckpoint D.state self.old (base_records register.now) self.new result }
        ensures goes { GoesAfterCheckpoint self.old (length (base_records register.now)) self.new result }
        // After a checkpoint any batch has room.
        ensures roomy { OnOk result ((count : ℕ)
            → self.new.used + body_size count + 2 ≤ self.new.shape.half) }
        ensures breaks { BreaksByFault D.state self.old self.new result }
        ensures causes { IfErr result (λ fault. (fault ≡ JournalFault.Disk)
            ⊎ (fault ≡ JournalFault.Broken)) }
        // In that half each batch and its gate, a closed gate, a sync, the pick, a sync.
        ensures calls { CheckpointCalls D.state self.old (base_records register.now) self.new result }
        // Where it failed says which half a cut leaves picked.
        ensures fails { CheckpointStops D.state self.old (base_records register.now) self.new result }
    {
        if self.is_broken {
            return Err(JournalFault::Broken);
        }
        let (start, pick) = other_half(self.place.start, self.place.shape.half);
        let batches = batches_for(register.base_len());
        match write_checkpoint(&mut self.device, register, start, &pick) {
            Ok(gate) => {
                self.place.start = start;
                self.place.gate = gate;
                self.place.number = batches as u32 + 1;
                Ok(())
            }
            Err(DiskFault) => {
                self.is_broken = true;
                Err(JournalFault::Disk)
            }
        }
    }

    /// The place of the first batch. [`Journal::next`] takes it until the next reopening or
    /// checkpoint.
    pub fn first(&self) -> Cursor
        ensures start { (batches : List Batch) → IsCursorIn batches result }
        ensures none { result.given ≡ 0 }
    {
        Cursor {
            skipped: 0,
            given: 0,
        }
    }

    /// The next batch, and the cursor goes on after it; `None` at the end. It writes nothing.
    pub fn next(
        &mut self,
        cursor: &mut Cursor,
    ) -> Result<Option<ArrayVec<Record, MOST_ENTRIES>>, JournalFault>
        ensures gives { (D.state self.old.device).is_honest → (batches : List Batch)
            → Holds self.old.shape batches (D.state self.old.device).image
            → IsCursorIn batches cursor.old → GivesNext batches cursor.old cursor.new result }
        ensures kept { OnOk result ((D.state self.old.device).is_honest
            → IsSyncedAt (D.state self.old.device).image (D.state self.new.device)) }
        ensures moves { MovesCursor self.old cursor.old self.new cursor.new result }
        ensures breaks { BreaksByFault D.state self.old self.new result }
        ensures causes { IfErr result (λ fault. IsOfCursor fault) }
        ensures calls { NextCalls D.state self.old cursor.old self.new result }
    {
        if self.is_broken {
            return Err(JournalFault::Broken);
        }
        if cursor.skipped >= self.place.gate - self.place.start {
            return Ok(None);
        }
        let gate = self.place.start + cursor.skipped;
        let mut stored = Stored::empty();
        match look(
            &mut self.device,
            gate,
            self.place.start + self.place.shape.half,
            cursor.given + 1,
            &mut stored,
        ) {
            Err(DiskFault) => {
                self.is_broken = true;
                Err(JournalFault::Disk)
            }
            Ok(AtGate::Damaged) => Err(JournalFault::Damaged(gate)),
            Ok(AtGate::Closed) => Err(JournalFault::Damaged(gate)),
            Ok(AtGate::Batch) => {
                cursor.skipped += 1 + body_count(stored.records.len()) as u32;
                cursor.given += 1;
                Ok(Some(stored.records))
            }
        }
    }

    /// Opens it again, also after a fault. It writes nothing. A fault of the device leaves it
    /// broken, a refusal for another cause as it was.
    pub fn reopen(&mut self) -> Result<(), JournalFault>
        ensures reopens { JournalReopens D.state self.old self.new result }
    {
        match self.reopen_from(&mut Nobody) {
            Ok(_former) => Ok(()),
            Err(fault) => Err(fault),
        }
    }

    /// Opens it again as [`Journal::reopen`] does, shows the visitor each batch on the way, and
    /// gives where it stood, for a caller who may yet refuse what it finds.
    pub fn reopen_from<V: Visitor>(
        &mut self,
        visitor: &mut V,
    ) -> Result<FormerPlace<D>, JournalFault>
        ensures former { IfOk result (λ former. former ≡ self.old) }
        ensures reads { ReadsOnly (D.state self.old.device) (D.state self.new.device) }
        ensures reopens { JournalReopens D.state self.old self.new result }
        // Just the batches that are there, each once and in their order.
        ensures shown { OnOk result ((D.state self.old.device).is_honest → (batches : List Batch)
            → Holds self.new.shape batches (D.state self.new.device).image
            → TakesAll V.takes visitor.old batches visitor.new) }
        // Of any device, and where it is refused: batches that may begin a chain.
        ensures shown_some { HasTaken V.takes 1000000 visitor.old visitor.new }
        // Where it is refused, of an honest device: just the batches before what refuses it.
        ensures shown_before { IfErr result (λ fault. ShownBefore V.takes fault
            (D.state self.old.device) (D.state self.new.device) visitor.old visitor.new) }
    {
        let device = Snapshot::of(&self.device);
        match find_place(&mut self.device, visitor) {
            Ok(place) => {
                let former = FormerPlace {
                    place: self.place,
                    is_broken: self.is_broken,
                    at_opening: replace(&mut self.at_opening, Snapshot::of(&self.device)),
                    device,
                };
                self.place = place;
                self.is_broken = false;
                Ok(former)
            }
            Err(fault) => {
                if fault.is_of_disk() {
                    self.is_broken = true;
                }
                Err(fault)
            }
        }
    }

    /// Goes back to where it stood before [`Journal::reopen_from`], as if that had been refused. It
    /// makes no device call.
    pub fn return_to(&mut self, former: FormerPlace<D>)
        requires reads { ReadsOnly (D.state former.device) (D.state self.old.device) }
        requires safe { self.old.is_broken ≡ false → (D.state self.old.device).is_honest
            → IsSynced (D.state self.old.device) }
        requires failed { self.old.is_broken ≡ true
            → (D.state former.device).failures < (D.state self.old.device).failures }
        ensures device { self.new.device ≡ self.old.device }
        ensures same { (self.new.shape ≡ former.shape) × (self.new.used ≡ former.used)
            × (self.new.failures_at_opening ≡ former.failures_at_opening) }
        ensures second { self.new.is_in_second_half ≡ former.is_in_second_half }
        ensures number { self.new.number ≡ former.number }
        ensures breaks { self.old.is_broken ≡ true → self.new.is_broken ≡ true }
        ensures stays { self.old.is_broken ≡ false → self.new.is_broken ≡ former.is_broken }
    {
        self.place = former.place;
        self.is_broken = self.is_broken || former.is_broken;
        self.at_opening = former.at_opening;
    }
}

impl<D: Arm> Journal<D> {
    ghost use Rattle.lift_disk.specs.Disk.{IsUnchanged, IsArmedWith};

    /// Tells the device again which calls to fail. It changes no image.
    pub fn arm(&mut self, calls: u32)
        ensures same { IsUnchanged (D.state self.old.device) (D.state self.new.device) }
        ensures armed { IsArmedWith (D.fails_by calls (D.state self.old.device).calls)
            (D.state self.new.device) }
        ensures rest { (self.new.shape ≡ self.old.shape) × (self.new.used ≡ self.old.used)
            × (self.new.failures_at_opening ≡ self.old.failures_at_opening)
            × (self.new.is_broken ≡ self.old.is_broken) }
        ensures second { self.new.is_in_second_half ≡ self.old.is_in_second_half }
        ensures number { self.new.number ≡ self.old.number }
    {
        self.device.arm(calls);
    }

    /// Whether a growth inside the device was refused, now or earlier.
    pub fn short(&self) -> bool
        ensures { result ≡ (D.state self.now.device).is_short }
    {
        self.device.short()
    }
}
