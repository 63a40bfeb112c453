//! The safe register, and the journal that it is safe in.

ghost use Rattle.std.specs.Prelude.{◌≡◌, ◌<◌, ◌⊎◌, [], length, true, false};
ghost use Rattle.std.specs.Prelude.{IfOk, IfErr, OnOk, OnErr};
ghost use Rattle.lift_disk.specs.Disk.{LeavesNow};
ghost use Rattle.lift_register.specs.Prelude.{FitFrom, BelongsTo, IsBalanced, IsWellFormed};
ghost use Rattle.lift_keeper.specs.Prelude.{IsImageOf, IsImageIn, IsInDoubt, Commits, Recovers};
ghost use Rattle.lift_keeper.specs.Prelude.{Reopens, WriterOpens, RefusesReopening};
ghost use Rattle.lift_keeper.specs.Calls.{CommitCalls, OpeningCalls, OpensByCalls, RefusedCalls};
ghost use Rattle.lift_keeper.specs.Calls.{ReopeningCalls};
ghost use Rattle.lift_keeper.specs.Writer.{Guards};

use crate::copies::{apply_all, put_records};
use crate::fault::KeeperFault;
use crate::opening::recovered;
use crate::reading::Reading;
use crate::store::store;
use arrayvec::ArrayVec;
use lift_base::{Entry, MOST_ENTRIES, Record};
use lift_building::Building;
use lift_disk::{Arm, Disk};
use lift_journal::{Journal, JournalFault};
use lift_register::Register;
use std::marker::Model;
use std::snapshot::Snapshot;

/// Evidence that a batch was committed: every crash from then on leaves it. Only `Writer::commit` makes
/// one, where it has succeeded. So what is answered by one alone is answered after its commit, also in a
/// call that never returns.
#[derive(Drop)]
pub struct Safe {
    made: (),
}

/// The register that is safe on a device, whatever a crash leaves.
#[derive(Drop)]
pub struct Writer<'b, D: Disk> {
    building: &'b Building,
    journal: Journal<D>,
    register: Register,
    is_broken: bool,
    /// The batch that a fault left in doubt.
    doubt: Snapshot<ArrayVec<Entry, MOST_ENTRIES>>,
    /// The journal when it was last opened.
    at_opening: Snapshot<Journal<D>>,
    /// Room for the records of a batch, so that none is made for each.
    records: ArrayVec<Record, MOST_ENTRIES>,
}

impl<'b, D: Disk> Model for Writer<'b, D> {
    ghost use Rattle.lift_keeper.specs.Writer.{WriterView, IsWriter};

    ghost Value = { WriterView D };

    ghost view = { λ w. record {
      plan = w.building.now;
      device = w.journal.device;
      half = w.journal.shape.half;
      is_in_second_half = w.journal.is_in_second_half;
      used = w.journal.used;
      register = w.register;
      doubt = w.doubt.value.items;
      failures_at_opening = (D.state w.at_opening.value.device).failures;
      is_broken = w.is_broken;
    } };

    ghost invariant = { λ w.
        IsWriter w.building.now w.journal w.register w.doubt.value.items
        (D.state w.at_opening.value.device).failures w.is_broken (D.state w.journal.device) };
}

impl<'b, D: Disk> Writer<'b, D> {
    /// Opens a device that a crash may have left, with the building that its journal is of. It
    /// writes nothing. An `Err` hands the device back.
    ///
    /// `Journal` with the journal's faults 1 to 3, then `OtherBuilding`, then `BadEntry`;
    /// `Journal(Disk)` where a call of the device failed: of an inert one that was the last.
    pub fn open(disk: D, building: &'b Building) -> Result<Self, (D, KeeperFault)>
        ensures opens { IfOk result (λ writer.
            WriterOpens D.state building.now (D.state disk) writer) }
        ensures refused { IfErr result (λ err.
            RefusesReopening building.now (D.state disk) (D.state err.0) err.1) }
        // The opening of its journal, and no other call; where it is refused, as far as that came.
        ensures calls { IfOk result (λ writer. OpensByCalls D.state (D.state disk) writer) }
        ensures calls_before { IfErr result (λ err.
            RefusedCalls (D.state disk) (D.state err.0) err.1) }
    {
        let mut reading = Reading::new(building);
        let journal = match Journal::open_with(disk, &mut reading) {
            Ok(journal) => journal,
            Err((disk, fault)) => return Err((disk, KeeperFault::Journal(fault))),
        };
        match recovered(&journal, reading, building) {
            Ok(register) => {
                let at_opening = Snapshot::of(&journal);
                Ok(Writer {
                    building,
                    journal,
                    register,
                    is_broken: false,
                    doubt: Snapshot::of(&ArrayVec::new()),
                    at_opening,
                    records: ArrayVec::new(),
                })
            }
            Err(fault) => Err((journal.into_disk(), fault)),
        }
    }

    /// The register that is safe: from the last opening on, every crash leaves an image that reads
    /// as it. Of a broken writer, the register that was safe before the fault.
    pub fn register(&self) -> &Register
        ensures value { result.now ≡ self.now.register }
        ensures lawful { IsWellFormed result.now }
        ensures belongs { BelongsTo self.now.plan result.now }
        ensures balanced { IsBalanced result.now }
        ensures safe { self.now.is_broken ≡ false
            → LeavesNow (D.state self.now.device) (IsImageOf self.now.plan result.now) }
        // Of the batch that a fault left in doubt a crash leaves all or nothing.
        ensures in_doubt { self.now.is_broken ≡ true
            → LeavesNow (D.state self.now.device)
            (IsInDoubt self.now.plan result.now self.now.doubt) }
        ensures no_doubt { self.now.is_broken ≡ false → self.now.doubt ≡ [] }
        ensures placed { self.now.is_broken ≡ false
            → LeavesNow (D.state self.now.device)
            (IsImageIn self.now.plan self.now.half self.now.is_in_second_half self.now.used
            result.now) }
    {
        &self.register
    }

    /// Whether a call of the device has failed, and no reopening has succeeded since.
    pub fn is_broken(&self) -> bool
        ensures value { result ≡ self.now.is_broken }
        ensures failed { self.now.is_broken ≡ true
            → self.now.failures_at_opening < (D.state self.now.device).failures }
    {
        self.is_broken
    }

    /// Makes a batch safe. At `Ok` the safe register is the one with the batch; also where it has no
    /// entries.
    pub fn commit(&mut self, batch: &ArrayVec<Entry, MOST_ENTRIES>) -> Result<Safe, KeeperFault>
        requires fits { self.old.is_broken ≡ false
            → FitFrom self.old.plan self.old.register batch.now.items }
        ensures commits { Commits D.state self.old batch.now.items self.new result }
        ensures calls { CommitCalls D.state self.old (length batch.now.items) self.new result }
    {
        if self.is_broken {
            return Err(KeeperFault::Journal(JournalFault::Broken));
        }
        if batch.is_empty() {
            return Ok(Safe { made: () });
        }
        put_records(batch, &mut self.records);
        match store(&mut self.journal, &self.register, &self.records) {
            Ok(()) => {
                apply_all(&mut self.register, self.building, batch);
                Ok(Safe { made: () })
            }
            Err(fault) => {
                self.is_broken = true;
                self.doubt = Snapshot::of(batch);
                Err(KeeperFault::Journal(fault))
            }
        }
    }

    /// Opens it again, also after a fault. It writes nothing, and gives the register that was safe,
    /// or that with the batch in doubt. An honest device is refused for a failed call alone. A
    /// refusal leaves it as it was, but that a failed call leaves it broken: a later batch goes
    /// where it would have gone before.
    pub fn reopen(&mut self) -> Result<(), KeeperFault>
        ensures recovers { Recovers D.state self.old self.new result }
        ensures calls { ReopeningCalls D.state self.old self.new result }
    {
        match reopened(&mut self.journal, self.building) {
            Ok(register) => {
                self.register = register;
                self.is_broken = false;
                self.doubt = Snapshot::of(&ArrayVec::new());
                self.at_opening = Snapshot::of(&self.journal);
                Ok(())
            }
            Err(fault) => {
                if fault.is_of_disk() {
                    self.is_broken = true;
                }
                Err(fault)
            }
        }
    }

    /// The device, as it is.
    pub fn into_disk(self) -> D
        ensures { result ≡ self.entry.device }
    {
        self.journal.into_disk()
    }
}

impl<'b, D: Arm> Writer<'b, D> {
    ghost use Rattle.lift_disk.specs.Disk.{IsUnchanged, IsArmedWith};

    /// Tells the device again which calls to fail. It changes no image.
    pub fn arm(&mut self, calls: u32)
        ensures same { IsUnchanged (D.state self.old.device) (D.state self.new.device) }
        ensures armed { IsArmedWith (D.fails_by calls (D.state self.old.device).calls)
            (D.state self.new.device) }
        ensures rest { self.new ≡ record self.old { device = self.new.device } }
    {
        self.journal.arm(calls);
    }

    /// Whether a growth inside the device was refused, now or earlier.
    pub fn short(&self) -> bool
        ensures { result ≡ (D.state self.now.device).is_short }
    {
        self.journal.short()
    }
}

/// Opens a journal again, and recovers its register. A refused journal stands where it stood.
fn reopened<D: Disk>(journal: &mut Journal<D>, building: &Building) -> Result<Register, KeeperFault>
    ensures opens { IfOk result (λ register.
        Reopens building.now (D.state journal.old.device)
        (D.state journal.new.device) register journal.new.shape.half journal.new.is_in_second_half
        journal.new.used) }
    ensures guards { IfOk result (λ register.
        Guards building.now journal.new.shape journal.new.is_in_second_half journal.new.used
        register
        (D.state journal.new.device)) }
    ensures whole { OnOk result (journal.new.is_broken ≡ false) }
    ensures refused { IfErr result (λ fault.
        RefusesReopening building.now (D.state journal.old.device)
        (D.state journal.new.device) fault) }
    ensures stays { IfErr result (λ fault. (fault ≡ KeeperFault.Journal JournalFault.Disk)
        ⊎ (journal.new.is_broken ≡ journal.old.is_broken)) }
    ensures unmoved { OnErr result ((journal.new.shape ≡ journal.old.shape)
        × (journal.new.is_in_second_half ≡ journal.old.is_in_second_half)
        × (journal.new.used ≡ journal.old.used)) }
    ensures number { OnErr result (journal.new.number ≡ journal.old.number) }
    ensures calls { OnOk result
        (OpeningCalls building.now (D.state journal.old.device) (D.state journal.new.device)
        journal.new.shape.half journal.new.is_in_second_half journal.new.used) }
    ensures calls_before { IfErr result (λ fault.
        RefusedCalls (D.state journal.old.device) (D.state journal.new.device) fault) }
{
    let mut reading = Reading::new(building);
    let former = match journal.reopen_from(&mut reading) {
        Ok(former) => former,
        Err(fault) => return Err(KeeperFault::Journal(fault)),
    };
    match recovered(journal, reading, building) {
        Ok(register) => Ok(register),
        Err(fault) => {
            journal.return_to(former);
            Err(fault)
        }
    }
}
