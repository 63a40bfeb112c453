//! A file that is only read.
ghost use Rattle.std.specs.Prelude.{◌≡◌};
ghost use Rattle.std.proofs.Common.{◌∙◌};
ghost use Rattle.lift_disk.specs.Files.{file_below, sector_file_state_of, writes_of};

use lift_base::ProofCount;
use lift_disk::{Buffered, Disk, DiskFault, ListedFile, RunDisk, SectorFile};

/// A file that is never written: a write of it fails, and is no call of the file.
#[derive(Drop)]
pub struct UnwrittenFile<F: ListedFile + Drop> {
    file: SectorFile<F>,
    refused: ProofCount,
    ghost unwritten: { writes_of file ≡ 0 },
}

/// The file of a journal that is shown. It is read 16 sectors at once, and never written.
pub type ShownImage<F> = Buffered<UnwrittenFile<F>>;

impl<F: ListedFile + Drop> UnwrittenFile<F> {
    ghost use Rattle.lift_program.specs.Unwritten.{unwritten_file_of, unwritten_state_of};

    /// A device over a file of which no call was a write. It makes no call of it.
    pub fn over(file: SectorFile<F>) -> UnwrittenFile<F>
        requires { writes_of file ≡ 0 }
        ensures file { unwritten_file_of result ≡ file }
        ensures failures { (unwritten_state_of F.holds result).failures
            ≡ (sector_file_state_of F.holds file).failures }
    {
        UnwrittenFile {
            file,
            refused: ProofCount::new(),
        }
    }
}

impl<F: ListedFile + Drop> Disk for UnwrittenFile<F> {
    ghost use Rattle.lift_program.specs.Unwritten.{unwritten_file_of, unwritten_state_of};

    ghost state = { λ d. unwritten_state_of F.holds d };

    ghost whole = { λ d honest. F.whole (file_below (unwritten_file_of d)) honest.0 ∙ honest.1 };

    ghost counts_now = { λ d honest. F.counts_now (file_below (unwritten_file_of d)) honest.0 };

    ghost only_now = { λ d honest. F.only_now (file_below (unwritten_file_of d)) honest.0 };

    ghost may_lose = { λ d honest. F.may_lose (file_below (unwritten_file_of d)) honest.0 };

    fn sectors(&self) -> u32 {
        self.file.sectors()
    }

    fn read(&mut self, sector: u32, buffer: &mut [u8; 512]) -> Result<(), DiskFault> {
        self.file.read(sector, buffer)
    }

    fn write(&mut self, sector: u32, _bytes: &[u8; 512]) -> Result<(), DiskFault> {
        self.refused = ProofCount::next(&self.refused);
        self.file.announce(sector);
        Err(DiskFault)
    }

    fn sync(&mut self) -> Result<(), DiskFault> {
        self.file.sync()
    }
}

impl<F: ListedFile + Drop> RunDisk for UnwrittenFile<F> {
    ghost use Rattle.lift_disk.specs.Files.{AsksForRun, HasReadBytes, calls_below};
    ghost use Rattle.lift_program.specs.Unwritten.{unwritten_file_of};

    ghost has_read_bytes = { λ d. HasReadBytes (calls_below (unwritten_file_of d)) };

    // the file was asked for just these
    ghost read_run_gives = { λ old sector run result new.
        AsksForRun (calls_below (unwritten_file_of old)) sector run result
        (calls_below (unwritten_file_of new)) };

    fn announce(&mut self, sector: u32) {
        self.file.announce(sector);
    }

    fn read_run(&mut self, sector: u32, run: &mut [[u8; 512]]) -> Result<(), DiskFault> {
        self.file.read_run(sector, run)
    }

    fn write_run(&mut self, _sector: u32, _run: &[[u8; 512]]) -> Result<(), DiskFault> {
        self.refused = ProofCount::next(&self.refused);
        Err(DiskFault)
    }
}
