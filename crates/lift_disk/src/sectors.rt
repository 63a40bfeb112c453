//! Sectors on a file, by its calls alone.
ghost use Rattle.std.specs.Prelude.{◌≡◌, ◌↔◌, ◌*◌, [], ◌∷◌, IsTrue, false};
ghost use Rattle.std.proofs.Common.{◌∙◌};
ghost use Rattle.lift_disk.specs.FileCalls.{in_bytes, without_bytes};
ghost use Rattle.lift_disk.specs.Blank.{IsUncalledDisk};
ghost use Rattle.lift_disk.specs.Holding.{IsKnownSteady};
ghost use Rattle.lift_disk.specs.Traced.{traced_calls, failures_of, making_of};

use crate::listed::ListedFile;
use crate::runs::RunDisk;
use crate::trace::{Made, ProofTrace};
use crate::traced::TracedFile;
use crate::{Disk, DiskFault};
use lift_base::ProofCount;
use std::slice;

pub(crate) const SECTOR_BYTES: u64 = 512;

/// Where a sector begins, in bytes.
pub(crate) fn offset_of(sector: u32) -> u64
    ensures { result ≡ sector * 512 }
{
    u64::from(sector) * SECTOR_BYTES
}

/// A device on anything that takes the calls of a file: each of its calls is one of the file's, at
/// the sector's offset.
#[derive(Drop)]
pub struct SectorFile<F: ListedFile + Drop> {
    file: TracedFile<F>,
    sectors: u32,
    /// It is known that no call has failed since the last sync that dropped what was cached.
    is_steady: bool,
    calls: ProofCount,
    writes: ProofCount,
    trace: ProofTrace,
    ghost at_offsets: { without_bytes file.calls.calls ≡ in_bytes trace.calls },
    ghost steady: { IsTrue is_steady → (F.holds file.file).is_honest
        → (F.holds file.file).size ≡ sectors → IsKnownSteady (F.holds file.file) },
}

impl<F: ListedFile + Drop> SectorFile<F> {
    ghost use Rattle.lift_disk.specs.Files.{sector_file_state_of, file_below, making_below};
    ghost use Rattle.lift_disk.specs.Files.{calls_below, is_known_steady};
    ghost use Rattle.lift_disk.specs.Traced.{file_of};

    /// So many sectors of a file that was not called yet. It makes no call of it.
    pub fn over(file: TracedFile<F>, sectors: u32) -> SectorFile<F>
        requires { traced_calls file ≡ [] }
        ensures same { file_below result ≡ file_of file }
        ensures making { making_below result ≡ making_of file }
        ensures uncalled { calls_below result ≡ [] }
        ensures size { (sector_file_state_of F.holds result).size ≡ sectors }
        ensures failures { (sector_file_state_of F.holds result).failures ≡ failures_of file }
        ensures none_made { IsUncalledDisk (sector_file_state_of F.holds result) }
        // It is honest exactly where the file is, and where it has so many whole sectors.
        ensures honest { (sector_file_state_of F.holds result).is_honest
            ↔ ((F.holds (file_of file)).is_honest × ((F.holds (file_of file)).size ≡ sectors)) }
        ensures image { (sector_file_state_of F.holds result).image ≡ (F.holds (file_of file)).image }
        ensures unknown { is_known_steady result ≡ false }
    {
        SectorFile {
            file,
            sectors,
            is_steady: false,
            calls: ProofCount::new(),
            writes: ProofCount::new(),
            trace: ProofTrace::new(),
        }
    }
}

impl<F: ListedFile + Drop> Disk for SectorFile<F> {
    ghost use Rattle.lift_disk.specs.Files.{KnownStays, ReadsByCall, SyncsByCalls};
    ghost use Rattle.lift_disk.specs.Files.{sector_file_state_of};
    ghost use Rattle.lift_disk.specs.Traced.{file_of};

    ghost state = { λ d. sector_file_state_of F.holds d };

    // these are the bytes that its file gave
    ghost read_gives = { λ old sector bytes result new.
        ReadsByCall sector (bytes ∷ []) result old new };

    ghost write_gives = { λ old _ _ result new. KnownStays result old new };

    // what is cached is dropped after a sync, unless it is known that this isn't needed
    ghost sync_gives = { λ old result new. SyncsByCalls result old new };

    ghost whole = { λ d honest. F.whole (file_of d.file) honest.0 ∙ honest.1 };

    ghost counts_now = { λ d honest. F.counts_now (file_of d.file) honest.0 };

    ghost only_now = { λ d honest. F.only_now (file_of d.file) honest.0 };

    ghost may_lose = { λ d honest. F.may_lose (file_of d.file) honest.0 };

    fn sectors(&self) -> u32 {
        self.sectors
    }

    fn read(&mut self, sector: u32, buffer: &mut [u8; 512]) -> Result<(), DiskFault> {
        self.read_run(sector, slice::from_mut(buffer))
    }

    fn write(&mut self, sector: u32, bytes: &[u8; 512]) -> Result<(), DiskFault> {
        self.announce(sector);
        self.write_run(sector, slice::from_ref(bytes))
    }

    fn sync(&mut self) -> Result<(), DiskFault> {
        self.calls = ProofCount::next(&self.calls);
        if self.file.sync(self.is_steady).is_err() {
            self.is_steady = false;
            return Err(DiskFault);
        }
        self.is_steady = true;
        self.trace = self.trace.then(&Made::Sync);
        Ok(())
    }
}

impl<F: ListedFile + Drop> RunDisk for SectorFile<F> {
    ghost use Rattle.lift_disk.specs.Files.{HasReadBytes, KnownStays, ReadsByCall, calls_below};
    ghost use Rattle.lift_disk.specs.Files.{is_known_steady};

    ghost has_read_bytes = { λ d. HasReadBytes (calls_below d) };

    ghost announce_gives = { λ old _ new. is_known_steady new ≡ is_known_steady old };

    // its file was asked for just these
    ghost read_run_gives = { λ old sector run result new. ReadsByCall sector run result old new };

    ghost write_run_gives = { λ old _ _ result new. KnownStays result old new };

    fn announce(&mut self, sector: u32) {
        self.file.announce(sector);
    }

    fn read_run(&mut self, sector: u32, run: &mut [[u8; 512]]) -> Result<(), DiskFault> {
        self.calls = ProofCount::next(&self.calls);
        if self.file.read_sectors(run, offset_of(sector)).is_err() {
            self.is_steady = false;
            return Err(DiskFault);
        }
        self.trace = self.trace.then(&Made::Read(u64::from(sector)));
        Ok(())
    }

    fn write_run(&mut self, sector: u32, run: &[[u8; 512]]) -> Result<(), DiskFault> {
        self.calls = ProofCount::next(&self.calls);
        self.writes = ProofCount::next(&self.writes);
        if self.file.write_sectors(run, offset_of(sector)).is_err() {
            self.is_steady = false;
            return Err(DiskFault);
        }
        self.trace = self
            .trace
            .then(&Made::Write(u64::from(sector), run.as_flattened()));
        Ok(())
    }
}
