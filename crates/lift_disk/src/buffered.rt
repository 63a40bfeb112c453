//! A device that reads ahead, and holds neighbouring writes back until it makes them as one.
ghost use Rattle.std.specs.Prelude.{◌≡◌, ◌≤◌, ◌<◌, ◌+◌, [], ℕ, List, length, Some};
ghost use Rattle.std.specs.Prelude.{slice_get, take, IsTrue, OnOk, OnErr, IfSome, IfNone, ◌↔◌};
ghost use Rattle.lift_disk.specs.Disk.{CountsFault, IsAccess, WritesStay, LeavesAsBefore, MayLeave};
ghost use Rattle.lift_disk.specs.Trace.Access.{Read};
ghost use Rattle.lift_disk.specs.Holding.{HoldsTheSame};
ghost use Rattle.lift_disk.specs.Runs.{Announces, GivesRun, HoldsRun, IsInRun};
ghost use Rattle.lift_disk.specs.Runs.{MakesCalls, Loosens, Rests};
ghost use Rattle.lift_disk.specs.Runs.{left_with, left_without, run_calls, run_loose, run_whole};
ghost use Rattle.lift_disk.specs.Runs.{with_run};

use crate::runs::RunDisk;
use crate::trace::{Made, ProofTrace};
use crate::{Disk, DiskFault};
use arrayvec::ArrayVec;
use lift_base::ProofCount;

/// At most this many sectors are read in one call.
const MOST_AHEAD: usize = 16;

/// Room for the sectors of one such read.
type Ahead = [[u8; 512]; MOST_AHEAD];

/// At most this many writes are held back.
const MOST_HELD: usize = 16;

/// Reads this many sectors from this one on, to the front of the room.
fn read_to_front<R: RunDisk>(
    device: &mut R,
    sector: u32,
    count: usize,
    room: &mut Ahead,
) -> Result<(), DiskFault>
    requires count { count ≤ 16 }
    requires inside { sector + count ≤ (R.state device.old).size }
    ensures access { IsAccess result (Read sector) (R.state device.old) (R.state device.new) }
    ensures leaves { LeavesAsBefore (R.state device.old) (R.state device.new) }
    ensures keeps { OnOk result (WritesStay (R.state device.old) (R.state device.new)) }
    ensures gives { OnOk result ((R.state device.old).is_honest
        → HoldsRun sector count room.new (R.state device.new).image) }
    ensures given { OnOk result (GivesRun (R.has_read_bytes device.new) sector count room.new) }
    ensures own { R.read_run_gives device.old sector (take count room.new) result device.new }
    ensures long { length (take count room.new) ≡ count }
{
    device.read_run(sector, &mut room[..count])
}

/// A device over another one. It reads 16 sectors at once, and makes up to 16 writes of
/// neighbouring sectors, each after the one before, as one: at the next write elsewhere, or at the
/// next sync. A call that finds such a write failing fails.
#[derive(Drop)]
pub struct Buffered<R: RunDisk + Drop> {
    device: R,
    /// The first of the sectors that are still to be written.
    from: u32,
    pending: ArrayVec<[u8; 512], MOST_HELD>,
    /// The first of the sectors that were read ahead, and how many.
    ahead_from: u32,
    ahead_count: usize,
    ahead: Ahead,
    calls: ProofCount,
    writes: ProofCount,
    trace: ProofTrace,
    ghost inside: { from + length pending.items ≤ (R.state device).size },
    ghost announced: { (R.state device).is_honest → (i : ℕ) → ¬ (R.state device).is_loose i
        → ¬ IsInRun from (length pending.items) i },
    ghost count: { ahead_count ≤ 16 },
    ghost read: { (R.state device).is_honest
        → HoldsRun ahead_from ahead_count ahead (R.state device).image },
    ghost given: { GivesRun (R.has_read_bytes device) ahead_from ahead_count ahead },
}

impl<R: RunDisk + Drop> Buffered<R> {
    ghost use Rattle.lift_disk.specs.Below.{AsksAhead, CanWait, GivesBelow, IsHeldBack, IsNextHeld};
    ghost use Rattle.lift_disk.specs.Below.{as_written, below, held_back};

    /// A device of which nothing was read or written yet. It makes no call of the other one and
    /// announces nothing.
    pub fn over(device: R) -> Buffered<R>
        ensures below { below result ≡ device }
        ensures none_held { held_back result ≡ [] }
        ensures size { (⟦<Buffered<R> as Disk>⟧.state result).size ≡ (R.state device).size }
        ensures failures { (⟦<Buffered<R> as Disk>⟧.state result).failures
            ≡ (R.state device).failures }
        ensures calls { (⟦<Buffered<R> as Disk>⟧.state result).calls ≡ 0 }
        ensures writes { (⟦<Buffered<R> as Disk>⟧.state result).writes ≡ 0 }
        ensures trace { (⟦<Buffered<R> as Disk>⟧.state result).trace ≡ [] }
        ensures image { (⟦<Buffered<R> as Disk>⟧.state result).image ≡ (R.state device).image }
        ensures held { HoldsTheSame (R.state device) (⟦<Buffered<R> as Disk>⟧.state result) }
        ensures honest { (R.state device).is_honest
            → (⟦<Buffered<R> as Disk>⟧.state result).is_honest }
    {
        Buffered {
            device,
            from: 0,
            pending: ArrayVec::new(),
            ahead_from: 0,
            ahead_count: 0,
            ahead: [[0; 512]; MOST_AHEAD],
            calls: ProofCount::new(),
            writes: ProofCount::new(),
            trace: ProofTrace::new(),
        }
    }

    /// The other device. What is still held back is not written: a crash might have left the same.
    pub fn into_inner(self) -> R
        ensures below { result ≡ below self }
        ensures left { (R.state result).is_honest
            → MayLeave (⟦<Buffered<R> as Disk>⟧.state self) (R.state result).image }
    {
        let Buffered { device, .. } = self;
        device
    }

    /// What is still to be written to a sector.
    fn held_back(&self, sector: u32) -> Option<&[u8; 512]>
        ensures some { IfSome result (λ bytes. (R.state self.now.device).is_honest
            → slice_get (with_run self.now.from self.now.pending.items
            (R.state self.now.device).image) sector ≡ Some bytes.now) }
        ensures none { IfNone result
            (¬ IsInRun self.now.from (length self.now.pending.items) sector) }
        ensures held { IfSome result (λ bytes. IsHeldBack self.now sector bytes.now) }
    {
        if sector < self.from {
            return None;
        }
        let place = (sector - self.from) as usize;
        if self.pending.len() <= place {
            return None;
        }
        Some(&self.pending[place])
    }

    /// What was read ahead of a sector.
    fn read_ahead(&self, sector: u32) -> Option<&[u8; 512]>
        ensures some { IfSome result (λ bytes. (R.state self.now.device).is_honest
            → slice_get (R.state self.now.device).image sector ≡ Some bytes.now) }
        ensures given { IfSome result (λ bytes.
            ∥ R.has_read_bytes self.now.device sector bytes.now ∥₁) }
    {
        if sector < self.ahead_from {
            return None;
        }
        let place = (sector - self.ahead_from) as usize;
        if self.ahead_count <= place {
            return None;
        }
        Some(&self.ahead[place])
    }

    /// Makes the writes that were held back, as one. After it none is, also where it fails.
    fn flush(&mut self) -> Result<(), DiskFault>
        ensures rests { Rests (as_written R.state self.old) (as_written R.state self.new) }
        ensures keeps { OnOk result
            (WritesStay (as_written R.state self.old) (as_written R.state self.new)) }
        ensures made { MakesCalls result (run_calls self.old.from self.old.pending.items)
            (R.state self.old.device) (R.state self.new.device) }
        ensures none { self.new.pending.items ≡ [] }
        ensures idle { self.old.pending.items ≡ [] → self.new.device ≡ self.old.device }
        ensures forgets { self.new.ahead_count ≡ 0 }
        ensures faults { CountsFault result (R.state self.old.device) (R.state self.new.device) }
        ensures counts { (self.new.calls ≡ self.old.calls) × (self.new.writes ≡ self.old.writes) }
        ensures trace { self.new.trace ≡ self.old.trace }
    {
        self.ahead_count = 0;
        if self.pending.is_empty() {
            return Ok(());
        }
        let outcome = self.device.write_run(self.from, self.pending.as_slice());
        self.pending.clear();
        outcome
    }

    /// Whether the sector is the next after those that are held back, and one more has room.
    fn is_next(&self, sector: u32) -> bool
        ensures { IsTrue result ↔ IsNextHeld self.now sector }
    {
        let held = self.pending.len();
        held < MOST_HELD && self.from as usize + held == sector as usize
    }

    /// Makes the sector the next after those that are held back.
    fn make_room(&mut self, sector: u32) -> Result<(), DiskFault>
        requires { sector < (R.state self.old.device).size }
        ensures opens { Loosens sector (as_written R.state self.old) (as_written R.state self.new) }
        ensures keeps { OnOk result
            (WritesStay (as_written R.state self.old) (as_written R.state self.new)) }
        ensures waits { CanWait self.old sector
            → Announces sector (R.state self.old.device) (R.state self.new.device) }
        ensures held { OnOk result (CanWait self.old sector
            → self.new.pending.items ≡ self.old.pending.items) }
        ensures made { ¬ CanWait self.old sector
            → MakesCalls result (run_calls self.old.from self.old.pending.items)
            (R.state self.old.device) (R.state self.new.device) }
        ensures alone { OnOk result (¬ CanWait self.old sector → self.new.pending.items ≡ []) }
        ensures failed { OnErr result (self.new.pending.items ≡ []) }
        ensures next { OnOk result (self.new.from + length self.new.pending.items ≡ sector) }
        ensures room { OnOk result (length self.new.pending.items < 16) }
        ensures faults { CountsFault result (R.state self.old.device) (R.state self.new.device) }
        ensures counts { (self.new.calls ≡ self.old.calls) × (self.new.writes ≡ self.old.writes) }
        ensures trace { self.new.trace ≡ self.old.trace }
    {
        self.device.announce(sector);
        if self.is_next(sector) {
            return Ok(());
        }
        self.flush()?;
        self.from = sector;
        Ok(())
    }

    /// Reads 16 sectors from this one on, or as many as there are.
    fn look_ahead(&mut self, sector: u32) -> Result<(), DiskFault>
        requires { sector < (R.state self.old.device).size }
        ensures rests { Rests (as_written R.state self.old) (as_written R.state self.new) }
        ensures keeps { OnOk result
            (WritesStay (as_written R.state self.old) (as_written R.state self.new)) }
        ensures gives { OnOk result ((R.state self.old.device).is_honest
            → slice_get (R.state self.new.device).image sector ≡ slice_get self.new.ahead 0) }
        ensures given { OnOk result ((bytes : List ℕ) → slice_get self.new.ahead 0 ≡ Some bytes
            → ∥ R.has_read_bytes self.new.device sector bytes ∥₁) }
        ensures asked { AsksAhead R.state R.read_run_gives self.old.device sector result
            self.new.device }
        ensures pending { (self.new.from ≡ self.old.from) × (self.new.pending ≡ self.old.pending) }
        ensures faults { CountsFault result (R.state self.old.device) (R.state self.new.device) }
        ensures counts { (self.new.calls ≡ self.old.calls) × (self.new.writes ≡ self.old.writes) }
        ensures trace { self.new.trace ≡ self.old.trace }
    {
        let left = (self.device.sectors() - sector) as usize;
        let count = left.min(MOST_AHEAD);
        self.ahead_count = 0;
        read_to_front(&mut self.device, sector, count, &mut self.ahead)?;
        self.ahead_from = sector;
        self.ahead_count = count;
        Ok(())
    }

    /// Puts the sector's bytes into the buffer, as they are to be read.
    fn fetch(&mut self, sector: u32, buffer: &mut [u8; 512]) -> Result<(), DiskFault>
        requires { sector < (R.state self.old.device).size }
        ensures rests { Rests (as_written R.state self.old) (as_written R.state self.new) }
        ensures keeps { OnOk result
            (WritesStay (as_written R.state self.old) (as_written R.state self.new)) }
        ensures gives { OnOk result ((R.state self.old.device).is_honest
            → slice_get (as_written R.state self.new).image sector ≡ Some buffer.new) }
        ensures below { GivesBelow R.state R.has_read_bytes R.read_run_gives self.old sector buffer.new
            result self.new }
        ensures faults { CountsFault result (R.state self.old.device) (R.state self.new.device) }
        ensures counts { (self.new.calls ≡ self.old.calls) × (self.new.writes ≡ self.old.writes) }
        ensures trace { self.new.trace ≡ self.old.trace }
    {
        if let Some(bytes) = self.held_back(sector) {
            *buffer = *bytes;
            return Ok(());
        }
        if let Some(bytes) = self.read_ahead(sector) {
            *buffer = *bytes;
            return Ok(());
        }
        self.look_ahead(sector)?;
        *buffer = self.ahead[0];
        Ok(())
    }
}

impl<R: RunDisk + Drop> Disk for Buffered<R> {
    ghost use Rattle.lift_disk.specs.Below.{GivesBelow, HoldsBack, SyncsBelow};
    ghost use Rattle.lift_disk.specs.Runs.{buffered};

    ghost state = { λ d. buffered (R.state d.device) d.from d.pending.items d.calls.count
        d.writes.count d.trace.calls };

    // the other device has no call, or one: a read of 16 sectors
    ghost read_gives = { λ old sector bytes result new.
        GivesBelow R.state R.has_read_bytes R.read_run_gives old sector bytes result new };

    // it has no call, or one: a write of all that was held back
    ghost write_gives = { λ old sector bytes result new.
        HoldsBack R.state old sector bytes result new };

    // it has that write, if any was held back, and then a sync
    ghost sync_gives = { λ old result new. SyncsBelow R.state old result new };

    ghost whole = { λ d honest.
        run_whole d.pending.items d.from (R.state d.device).image (R.state d.device).size
        (R.whole d.device honest) };

    ghost counts_now = { λ d honest t left late now. R.counts_now d.device honest t left late
        (left_without (R.state d.device).is_loose (R.state d.device).image
        (with_run d.from d.pending.items (R.state d.device).image) left
        (run_loose (R.state d.device).is_loose d.pending.items d.from (R.state d.device).image
        (d.announced honest)) now) };

    ghost only_now = { λ d honest left since.
        left_with (R.state d.device).is_loose (R.state d.device).image
        (with_run d.from d.pending.items (R.state d.device).image) left
        (run_loose (R.state d.device).is_loose d.pending.items d.from (R.state d.device).image
        (d.announced honest)) (R.only_now d.device honest left since) };

    ghost may_lose = { λ d honest.
        left_with (R.state d.device).is_loose (R.state d.device).image
        (with_run d.from d.pending.items (R.state d.device).image) (R.state d.device).synced
        (run_loose (R.state d.device).is_loose d.pending.items d.from (R.state d.device).image
        (d.announced honest)) (R.may_lose d.device honest) };

    fn sectors(&self) -> u32 {
        self.device.sectors()
    }

    fn read(&mut self, sector: u32, buffer: &mut [u8; 512]) -> Result<(), DiskFault> {
        self.calls = ProofCount::next(&self.calls);
        self.fetch(sector, buffer)?;
        self.trace = self.trace.then(&Made::Read(u64::from(sector)));
        Ok(())
    }

    fn write(&mut self, sector: u32, bytes: &[u8; 512]) -> Result<(), DiskFault> {
        self.calls = ProofCount::next(&self.calls);
        self.writes = ProofCount::next(&self.writes);
        self.make_room(sector)?;
        self.pending.push(*bytes);
        self.trace = self.trace.then(&Made::Write(u64::from(sector), bytes));
        Ok(())
    }

    fn sync(&mut self) -> Result<(), DiskFault> {
        self.calls = ProofCount::next(&self.calls);
        self.flush()?;
        self.device.sync()?;
        self.trace = self.trace.then(&Made::Sync);
        Ok(())
    }
}
