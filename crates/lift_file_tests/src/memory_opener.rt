//! What opens a file in memory.
ghost use Rattle.std.specs.Prelude.{IfOk, IfSome, ⊤};

use crate::memory_file::{MemoryFile, made};
use lift_disk::{Buffered, Disk, FileFault, FileOpener, SectorFile};
use std::alloc::Global;
use std::fs::OpenOptions;
use std::io;
use std::io::ErrorKind;

/// Opens a file of this many sectors of zeros, at whatever path.
#[derive(Drop)]
pub struct MemoryOpener {
    alloc: Global,
    sectors: u32,
}

impl MemoryOpener {
    pub fn new(alloc: Global, sectors: u32) -> MemoryOpener {
        MemoryOpener { alloc, sectors }
    }
}

/// The folder of such a file.
#[derive(Drop)]
pub struct MemoryFolder {
    opener: MemoryOpener,
}

impl FileOpener for MemoryOpener {
    ghost use Rattle.lift_file_tests.specs.Held.{held};

    type Listed = MemoryFile;

    type Folder = MemoryFolder;

    // an honest file
    ghost opens = { λ _ _ _ given. IfSome given (λ file. (held file).is_honest) };

    ghost names = { λ _ _ _. ⊤ };

    ghost stands = { λ _ _ _. ⊤ };

    ghost unnamed = { λ _ _ _. ⊤ };

    ghost opener_of = { λ folder. folder.opener };

    fn is_file_at(&self, _path: &str) -> io::Result<bool> {
        Ok(true)
    }

    fn open_once(self, _how: &OpenOptions, _path: &str) -> io::Result<(MemoryFile, MemoryFolder)> {
        match MemoryFile::new(self.alloc, self.sectors) {
            Ok(file) => Ok((file, MemoryFolder { opener: self })),
            Err(_) => Err(io::Error::from(ErrorKind::OutOfMemory)),
        }
    }

    fn sync_folder(_folder: MemoryFolder, _path: &str, _made: &MemoryFile) -> io::Result<()> {
        Ok(())
    }
}

/// A device on its file: it is honest, with no premise left.
pub fn made_in_memory(
    opener: MemoryOpener,
    path: &str,
) -> Result<Buffered<SectorFile<MemoryFile>>, FileFault<MemoryFile, MemoryOpener>>
    ensures honest { IfOk result (λ device.
        (⟦<Buffered<SectorFile<MemoryFile>> as Disk>⟧.state device).is_honest) }
{
    made(opener, path)
}
