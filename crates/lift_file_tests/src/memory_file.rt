//! A file in memory: its calls are those of a device in memory.
ghost use Rattle.std.specs.Prelude.{◌≡◌, ◌≤◌, ◌+◌, ◌*◌, ⊤, IfOk, IfSome, Some};
ghost use Rattle.lift_disk.specs.Holding.{sectors_in};
ghost use Rattle.lift_disk.specs.Traced.{to_be_made};

use lift_disk::{Buffered, Disk, FileFault, FileOpener, ListedFile, MemDisk, RunDisk, SectorFile};
use lift_memory::Memory;
use std::alloc::Global;
use std::io;
use std::io::ErrorKind;

/// A file of whole sectors in memory. It fails a call that isn't one of whole sectors of it. Where
/// its length changes, its sectors become zeros.
#[derive(Drop)]
pub struct MemoryFile {
    disk: MemDisk,
    alloc: Global,
}

/// How many whole sectors this many bytes have, 4,294,967,295 at most.
fn whole_sectors(bytes: u64) -> u32
    ensures { result ≡ sectors_in bytes }
{
    u32::try_from(bytes / 512).unwrap_or(u32::MAX)
}

fn refused() -> io::Error {
    io::Error::from(ErrorKind::InvalidInput)
}

impl MemoryFile {
    ghost use Rattle.lift_file_tests.specs.Held.{OpensRun, held};

    /// This many sectors of zeros.
    pub fn new(alloc: Global, sectors: u32) -> Result<MemoryFile, Memory>
        ensures honest { IfOk result (λ file. (held file).is_honest) }
    {
        Ok(MemoryFile {
            disk: MemDisk::new(alloc, sectors)?,
            alloc,
        })
    }

    /// The sector at this offset, where this many from it on are in the file.
    fn sector_at(&self, offset: u64, count: usize) -> Option<u32>
        ensures { IfSome result (λ sector. (offset ≡ sector * 512)
            × (sector + count ≤ (held self.now).size)) }
    {
        if offset % 512 != 0 {
            return None;
        }
        let Ok(sector) = u32::try_from(offset / 512) else {
            return None;
        };
        let sectors = self.disk.sectors();
        if sectors < sector {
            return None;
        }
        if ((sectors - sector) as usize) < count {
            return None;
        }
        Some(sector)
    }

    /// Says that these sectors are to be written.
    fn announce_run(&mut self, from: u32, count: u32)
        requires { from + count ≤ (held self.old).size }
        ensures { OpensRun from count (held self.old) (held self.new) }
    {
        for i in 0..count {
            self.disk.announce(from + i);
        }
    }
}

impl ListedFile for MemoryFile {
    ghost use Rattle.lift_file_tests.specs.Held.{held, last_moment, stays_kept};
    ghost use Rattle.std.specs.Prelude.{refl};
    ghost use Rattle.std.proofs.Common.{inl};

    ghost gives = { λ _ _ _. ⊤ };

    ghost fails = { λ _ _ _. ⊤ };

    ghost holds = { λ f. held f };

    ghost is_written_back = { λ _. ⊤ };

    ghost whole = { λ _ _. refl };

    ghost counts_now = { λ _ _ t left le now. inl now };

    ghost only_now = { λ f _ left since. last_moment f left since };

    ghost may_lose = { λ f _. stays_kept f };

    fn lock_listed(&mut self) -> io::Result<()> {
        Ok(())
    }

    fn restrict_listed(&mut self) -> io::Result<()> {
        Ok(())
    }

    fn announce_listed(&mut self, sector: u32) {
        if sector < self.disk.sectors() {
            self.disk.announce(sector);
        }
    }

    fn read_sectors_listed(&mut self, run: &mut [[u8; 512]], offset: u64) -> io::Result<()> {
        let Some(sector) = self.sector_at(offset, run.len()) else {
            return Err(refused());
        };
        match self.disk.read_run(sector, run) {
            Ok(()) => Ok(()),
            Err(_) => Err(refused()),
        }
    }

    fn write_sectors_listed(&mut self, run: &[[u8; 512]], offset: u64) -> io::Result<()> {
        let Some(sector) = self.sector_at(offset, run.len()) else {
            return Err(refused());
        };
        self.announce_run(sector, run.len() as u32);
        match self.disk.write_run(sector, run) {
            Ok(()) => Ok(()),
            Err(_) => Err(refused()),
        }
    }

    fn sync_data_listed(&mut self) -> io::Result<()> {
        match self.disk.sync() {
            Ok(()) => Ok(()),
            Err(_) => Err(refused()),
        }
    }

    // what was written is kept until the sync after it
    fn write_back_listed(&mut self) -> io::Result<()> {
        Ok(())
    }

    fn drop_cached_listed(&mut self) -> io::Result<()> {
        match self.disk.sync() {
            Ok(()) => Ok(()),
            Err(_) => Err(refused()),
        }
    }

    fn set_length_listed(&mut self, bytes: u64) -> io::Result<()> {
        let sectors = whole_sectors(bytes);
        if sectors == self.disk.sectors() {
            return Ok(());
        }
        match MemDisk::new(self.alloc, sectors) {
            Ok(disk) => {
                self.disk = disk;
                Ok(())
            }
            Err(_) => Err(io::Error::from(ErrorKind::OutOfMemory)),
        }
    }

    fn sync_all_listed(&mut self) -> io::Result<()> {
        self.sync_data_listed()
    }

    fn length_listed(&mut self) -> io::Result<u64> {
        Ok(u64::from(self.disk.sectors()) * 512)
    }
}

/// A device of 40 sectors on a file that is made by an opener, whatever opener it is. It is honest
/// where that file was when it was opened.
pub fn made<O: FileOpener>(
    opener: O,
    path: &str,
) -> Result<Buffered<SectorFile<O::Listed>>, FileFault<O::Listed, O>>
    ensures honest { IfOk result (λ device. (file : O.Listed)
        × O.opens opener to_be_made path.now (Some file)
        × ((O.Listed.holds file).is_honest
        → (⟦<Buffered<SectorFile<O::Listed>> as Disk>⟧.state device).is_honest)) }
    ensures size { IfOk result (λ device.
        (⟦<Buffered<SectorFile<O::Listed>> as Disk>⟧.state device).size ≡ 40) }
{
    match SectorFile::create(opener, path, 40) {
        Ok(device) => Ok(Buffered::over(device)),
        Err(fault) => Err(fault),
    }
}
