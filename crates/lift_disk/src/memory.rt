//! A device in memory. Proofs know its calls, so they know what a crash at any past moment might
//! have left.
ghost use Rattle.std.specs.Prelude.{◌≡◌, ◌<◌, refl, IfOk, IfSome, ⊤};
ghost use Rattle.std.proofs.Common.{inl};
ghost use Rattle.lift_disk.specs.Blank.{IsBlankDisk};
ghost use Rattle.lift_disk.specs.Memory.{image_after, no_other};
ghost use Rattle.lift_disk.specs.Places.{all_now};
ghost use Rattle.lift_disk.specs.Runs.{with_run};

use crate::call::ProofHistory;
use crate::memory_sectors::MemorySectors;
use crate::runs::RunDisk;
use crate::trace::{Made, ProofTrace};
use crate::{Disk, DiskFault, Outcome};
use lift_base::ProofCount;
use lift_memory::Memory;
use std::alloc::Global;
use std::slice;

/// A disk in memory, no call of which fails by itself: a read gives what was written last. It keeps
/// what was synced apart, so that a crash can be tried; proofs read which calls were made.
#[derive(Drop)]
pub struct MemDisk {
    history: ProofHistory,
    sectors: MemorySectors,
    is_steady: bool,
    failures: ProofCount,
    calls: ProofCount,
    writes: ProofCount,
    trace: ProofTrace,
    ghost recorded: { image_after history.calls history.first ≡ all_now sectors.places.items },
}

impl MemDisk {
    ghost use Rattle.lift_disk.specs.Outcomes.{state_of, SpoilsAt, IsLeftBy, IsCut};

    /// This many sectors of zeros, all of them on the disk. Refused only where memory runs out.
    pub fn new(alloc: Global, sectors: u32) -> Result<MemDisk, Memory>
        ensures blank { IfOk result (λ disk. IsBlankDisk sectors (state_of disk)) }
    {
        let sectors = MemorySectors::new(alloc, sectors)?;
        Ok(MemDisk {
            history: ProofHistory::begin(sectors.as_slice()),
            sectors,
            is_steady: true,
            failures: ProofCount::new(),
            calls: ProofCount::new(),
            writes: ProofCount::new(),
            trace: ProofTrace::new(),
        })
    }

    /// Stands for a failed call: a write of this sector, or a read or a sync.
    pub fn spoil(&mut self, sector: Option<u32>)
        requires { IfSome sector (λ i. i < (state_of self.old).size) }
        ensures { SpoilsAt sector (state_of self.old) (state_of self.new) }
    {
        self.failures = ProofCount::next(&self.failures);
        self.calls = ProofCount::next(&self.calls);
        self.is_steady = false;
        if let Some(i) = sector {
            self.writes = ProofCount::next(&self.writes);
            self.sectors.loosen(i);
        }
    }

    /// The image becomes what a cut leaves, and time begins again.
    fn lose(&mut self, outcome: Outcome)
        ensures image { IsLeftBy outcome (state_of self.old) (state_of self.new).image }
        ensures cut { IsCut (state_of self.old) (state_of self.new) }
    {
        self.sectors.leave(outcome);
        self.history = ProofHistory::begin(self.sectors.as_slice());
    }

    /// Cuts the power. It takes no memory; what a crash might have left before is no longer asked.
    pub fn cut(self, outcome: Outcome) -> MemDisk
        ensures image { IsLeftBy outcome (state_of self) (state_of result).image }
        ensures cut { IsCut (state_of self) (state_of result) }
    {
        let mut left = self;
        left.lose(outcome);
        left
    }
}

impl Disk for MemDisk {
    ghost use Rattle.lift_disk.specs.Outcomes.{state_of};

    ghost state = { λ m. state_of m };

    ghost whole = { λ m _. refl };

    ghost counts_now = { λ m _ t left le now. inl now };

    ghost only_now = { λ m _ left since.
        no_other m.history.first m.history.calls (all_now m.sectors.places.items)
        m.sectors.loose.items left since };

    ghost may_lose = { λ m _. m.sectors.kept };

    fn sectors(&self) -> u32 {
        self.sectors.count()
    }

    fn read(&mut self, sector: u32, buffer: &mut [u8; 512]) -> Result<(), DiskFault> {
        self.calls = ProofCount::next(&self.calls);
        self.trace = self.trace.then(&Made::Read(u64::from(sector)));
        *buffer = *self.sectors.get(sector);
        Ok(())
    }

    fn write(&mut self, sector: u32, bytes: &[u8; 512]) -> Result<(), DiskFault> {
        self.announce(sector);
        self.write_run(sector, slice::from_ref(bytes))
    }

    fn sync(&mut self) -> Result<(), DiskFault> {
        self.history.note_sync(self.sectors.loose());
        self.calls = ProofCount::next(&self.calls);
        self.trace = self.trace.then(&Made::Sync);
        self.sectors.sync();
        self.is_steady = true;
        Ok(())
    }
}

impl RunDisk for MemDisk {
    ghost use Rattle.lift_disk.specs.Outcomes.{state_of};

    ghost has_read_bytes = { λ _ _ _. ⊤ };

    // it is read at once, also after a failed call
    ghost write_run_gives = { λ old sector run _ new.
        (state_of new).image ≡ with_run sector run (state_of old).image };

    fn announce(&mut self, sector: u32) {
        self.sectors.loosen(sector);
    }

    fn read_run(&mut self, sector: u32, run: &mut [[u8; 512]]) -> Result<(), DiskFault> {
        self.calls = ProofCount::next(&self.calls);
        self.trace = self.trace.then(&Made::Read(u64::from(sector)));
        self.sectors.read_run(sector, run);
        Ok(())
    }

    fn write_run(&mut self, sector: u32, run: &[[u8; 512]]) -> Result<(), DiskFault> {
        self.history.note_run(sector, run);
        self.calls = ProofCount::next(&self.calls);
        self.writes = ProofCount::next(&self.writes);
        self.trace = self
            .trace
            .then(&Made::Write(u64::from(sector), run.as_flattened()));
        self.sectors.write_run(sector, run);
        Ok(())
    }
}
