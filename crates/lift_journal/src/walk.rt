//! The way along a chain to its closed gate.
ghost use Rattle.std.specs.Prelude.{◌≡◌, ◌≤◌, ◌<◌, ◌+◌, ◌-◌, ◌++◌, ◌^◌, ◌↔◌, [], IsTrue, IsErrOf};
ghost use Rattle.std.specs.Prelude.{IfOk, IfErr, OnOk, None, List, take, drop};
ghost use Rattle.lift_disk.specs.Disk.{IsSynced};
ghost use Rattle.lift_record.specs.declared.version.Version.TheVariants.{One};
ghost use Rattle.lift_journal.specs.Steps.{Examines};
ghost use Rattle.lift_journal.specs.Calls.{reads_from};
ghost use Rattle.lift_journal.specs.RefusedOpening.{EndsIn};
ghost use Rattle.lift_journal.specs.Walk.{EndsAt, IsDamagedAt};
ghost use Rattle.lift_journal.specs.ChainStep.{Passes, passed, IsOfChain};
ghost use Rattle.lift_journal.specs.Layout.{Batch, IsChain};
ghost use Rattle.lift_journal.specs.Visits.{TakesAll, HasTaken, TakesBefore};

use crate::batch::Stored;
use crate::body::body_count;
use crate::fault::JournalFault;
use crate::order::{may_end, pass_records};
use crate::reads::{AtGate, look};
use crate::visitor::Visitor;
use lift_base::Record;
use lift_disk::{Disk, DiskFault};
use lift_record::Version;

/// How far a walk along a chain has come.
#[derive(Drop)]
pub struct Front {
    /// The gate that it stands at, and the number of the batch there, counted from 1.
    pub gate: u32,
    pub number: u32,
    /// The version and the last record of the batches before it.
    version: Version,
    last: Option<Record>,
}

impl Front {
    fn at(start: u32) -> Self
        ensures { result ≡ record { gate = start; number = 1; version = One; last = None } }
    {
        Front {
            gate: start,
            number: 1,
            version: Version::One,
            last: None,
        }
    }

    /// Goes on to the next gate, if this batch may stand here.
    fn pass(&mut self, stored: &Stored) -> bool
        requires room { self.old.gate + 3 < 2 ^ 32 }
        requires few { self.old.number ≤ self.old.gate }
        ensures may { IsTrue result ↔ Passes self.old stored.now }
        ensures passed { IsTrue result → self.new ≡ passed self.old stored.now }
    {
        if stored.version.number() < self.version.number() {
            return false;
        }
        if !pass_records(&mut self.last, &stored.records) {
            return false;
        }
        self.version = stored.version;
        self.gate += 1 + body_count(stored.records.len()) as u32;
        self.number += 1;
        true
    }
}

/// The closed gate at the end of a chain, and the number of the batch that would stand there. Each
/// batch before it is shown to the visitor.
pub fn walk<D: Disk, V: Visitor>(
    disk: &mut D,
    start: u32,
    end: u32,
    visitor: &mut V,
) -> Result<Front, JournalFault>
    requires first { 1 ≤ start }
    requires below { start < end }
    requires inside { end ≤ (D.state disk.old).size }
    ensures examines { Examines result (D.state disk.old) (D.state disk.new) }
    ensures causes { IfErr result (λ fault. IsOfChain fault) }
    ensures found { IfOk result (λ at. (D.state disk.old).is_honest → IsSynced (D.state disk.old)
        → EndsAt (D.state disk.old).image start end at.gate at.number) }
    ensures place { IfOk result (λ at. (start ≤ at.gate) × (at.gate < end) × (1 ≤ at.number)
        × (at.number ≤ at.gate)) }
    ensures damaged { (s : _) → IsErrOf result (JournalFault.Damaged s)
        → (D.state disk.old).is_honest → IsSynced (D.state disk.old)
        → IsDamagedAt (D.state disk.old).image start end s }
    ensures behind { IfErr result (λ fault.
        EndsIn fault [] start end ((D.state disk.old).is_honest × IsSynced (D.state disk.old))
        (D.state disk.old).image
        (D.state disk.old) (D.state disk.new)) }
    ensures whole { IfOk result (λ at.
        (D.state disk.new).trace ≡ (D.state disk.old).trace
        ++ reads_from start (at.gate - start + 1)) }
    ensures shown { OnOk result ((D.state disk.old).is_honest → IsSynced (D.state disk.old)
        → (batches : List Batch)
        → IsChain batches 1 (take (end - start) (drop start (D.state disk.old).image))
        → TakesAll V.takes visitor.old batches visitor.new) }
    ensures shown_some { HasTaken V.takes (end - start) visitor.old visitor.new }
    ensures shown_before { IfErr result (λ fault. (D.state disk.old).is_honest
        → IsSynced (D.state disk.old)
        → TakesBefore V.takes fault [] start end (D.state disk.old).image (D.state disk.old)
        (D.state disk.new) visitor.old visitor.new) }
{
    let mut front = Front::at(start);
    let mut stored = Stored::empty();
    loop {
        match look(disk, front.gate, end, front.number, &mut stored) {
            Err(DiskFault) => return Err(JournalFault::Disk),
            Ok(AtGate::Damaged) => return Err(JournalFault::Damaged(front.gate)),
            Ok(AtGate::Closed) => {
                if may_end(&front.last) {
                    return Ok(front);
                }
                return Err(JournalFault::Damaged(front.gate));
            }
            Ok(AtGate::Batch) => {
                let gate = front.gate;
                if !front.pass(&stored) {
                    return Err(JournalFault::Damaged(gate));
                }
                visitor.visit(&stored.records);
            }
        }
    }
}
