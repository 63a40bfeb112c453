//! A device on a file of the operating system.
ghost use Rattle.std.specs.Prelude.{◌≡◌, [], ◌∷◌, IfErr, IfOk};
ghost use Rattle.lift_disk.specs.Holding.{sectors_in};
ghost use Rattle.lift_disk.specs.FileCalls.FileCall.{Lock};

use crate::buffered::Buffered;
use crate::listed::ListedFile;
use crate::opener::FileOpener;
use crate::sectors::{SECTOR_BYTES, SectorFile};
use crate::traced::TracedFile;
use std::fs::OpenOptions;
use std::io;

/// A file that was opened, and of which a call then failed by which it was to become a device. It
/// is as that call left it.
#[derive(Drop)]
pub struct FailedFile<F: Drop> {
    pub error: io::Error,
    pub file: F,
}

/// Why a file can't be a device. Where nothing was opened by it, what opens it comes back.
#[derive(Drop)]
pub enum FileFault<F: Drop, O: Drop> {
    /// The system didn't say what stands there.
    Unclear(io::Error, O),
    /// A folder, a pipe or another thing that is no plain file stands there.
    NotAFile(O),
    /// The system refused to open it.
    Unopened(io::Error),
    /// It was opened, and then a call of it failed, or its folder couldn't be made safe.
    Failed(FailedFile<F>),
}

/// How many whole sectors a file of this many bytes has, 4,294,967,295 at most.
fn whole_sectors(bytes: u64) -> u32
    ensures { result ≡ sectors_in bytes }
{
    u32::try_from(bytes / SECTOR_BYTES).unwrap_or(u32::MAX)
}

/// A file of whole sectors. That it keeps what was synced is its honesty: nothing shows it of a file
/// of the system.
pub type FileDisk<F> = SectorFile<F>;

/// A file of whole sectors that is read 16 sectors at once, and whose neighbouring writes are made
/// as one.
pub type BufferedFile<F> = Buffered<SectorFile<F>>;

impl<F: ListedFile + Drop> SectorFile<F> {
    ghost use Rattle.lift_disk.specs.Files.{IsMeasured, IsMadeDevice, sector_file_state_of};
    ghost use Rattle.lift_disk.specs.Files.{IsRefused, stands_in_the_way, fails_making};
    ghost use Rattle.lift_disk.specs.Files.{fails_opening};
    ghost use Rattle.lift_disk.specs.Files.{calls_below, making_below};
    ghost use Rattle.lift_disk.specs.Traced.{making_calls, to_be_made, to_be_read, to_be_used};

    /// Opens a file that is there, if its lock is free. Its whole sectors count, 4,294,967,295
    /// at most; the end that is less than one doesn't. A pipe or a terminal isn't opened, so that
    /// nothing waits for its other end. A file that was opened and is refused comes back.
    pub fn open<O: FileOpener<Listed = F>>(
        opener: O,
        path: &str,
    ) -> Result<SectorFile<F>, FileFault<F, O>>
        ensures measured { IfOk result (λ disk. IsMeasured (O.opens opener to_be_used path.now)
            F.gives F.holds (Lock ∷ []) disk) }
        ensures refused { IfErr result (IsRefused opener (O.stands opener path.now)
            (O.opens opener to_be_used path.now) (fails_opening F.gives F.fails F.holds (Lock ∷ []))) }
        ensures uncalled { IfOk result (λ disk. calls_below disk ≡ []) }
        ensures failures { IfOk result (λ disk. (sector_file_state_of F.holds disk).failures ≡ 0) }
        ensures calls { IfOk result (λ disk. (sector_file_state_of F.holds disk).calls ≡ 0) }
        ensures writes { IfOk result (λ disk. (sector_file_state_of F.holds disk).writes ≡ 0) }
        ensures trace { IfOk result (λ disk. (sector_file_state_of F.holds disk).trace ≡ []) }
    {
        match opener.is_file_at(path) {
            Ok(true) => {}
            Ok(false) => return Err(FileFault::NotAFile(opener)),
            Err(error) => return Err(FileFault::Unclear(error, opener)),
        }
        let file = match opener.open_once(OpenOptions::new().read(true).write(true), path) {
            Ok((file, _folder)) => file,
            Err(error) => return Err(FileFault::Unopened(error)),
        };
        match TracedFile::locked(file) {
            Ok((traced, bytes)) => Ok(SectorFile::over(traced, whole_sectors(bytes))),
            Err(failed) => Err(FileFault::Failed(failed)),
        }
    }

    /// The same to be read alone, beside whoever has the lock: what is read may change meanwhile.
    pub fn open_to_read<O: FileOpener<Listed = F>>(
        opener: O,
        path: &str,
    ) -> Result<SectorFile<F>, FileFault<F, O>>
        ensures measured { IfOk result (λ disk. IsMeasured (O.opens opener to_be_read path.now)
            F.gives F.holds [] disk) }
        ensures refused { IfErr result (IsRefused opener (O.stands opener path.now)
            (O.opens opener to_be_read path.now) (fails_opening F.gives F.fails F.holds [])) }
        ensures uncalled { IfOk result (λ disk. calls_below disk ≡ []) }
        ensures failures { IfOk result (λ disk. (sector_file_state_of F.holds disk).failures ≡ 0) }
        ensures calls { IfOk result (λ disk. (sector_file_state_of F.holds disk).calls ≡ 0) }
        ensures writes { IfOk result (λ disk. (sector_file_state_of F.holds disk).writes ≡ 0) }
        ensures trace { IfOk result (λ disk. (sector_file_state_of F.holds disk).trace ≡ []) }
    {
        match opener.is_file_at(path) {
            Ok(true) => {}
            Ok(false) => return Err(FileFault::NotAFile(opener)),
            Err(error) => return Err(FileFault::Unclear(error, opener)),
        }
        let file = match opener.open_once(OpenOptions::new().read(true), path) {
            Ok((file, _folder)) => file,
            Err(error) => return Err(FileFault::Unopened(error)),
        };
        match TracedFile::measured(file) {
            Ok((looked_at, bytes)) => Ok(SectorFile::over(looked_at, whole_sectors(bytes))),
            Err(failed) => Err(FileFault::Failed(failed)),
        }
    }

    /// Makes a file of this many sectors of zeros, or makes one that is there into that, if its
    /// lock is free. Nobody but its owner may have it then. Its sectors are written and its folder
    /// is made safe, so that it has its room and its name. A file that was opened and is refused
    /// comes back.
    pub fn create<O: FileOpener<Listed = F>>(
        opener: O,
        path: &str,
        sectors: u32,
    ) -> Result<SectorFile<F>, FileFault<F, O>>
        ensures made { IfOk result (λ disk. IsMadeDevice (O.opens opener to_be_made path.now)
            (O.names opener path.now) F.gives F.holds sectors disk) }
        ensures refused { IfErr result (IsRefused opener
            (stands_in_the_way (O.stands opener path.now)) (O.opens opener to_be_made path.now)
            (fails_making (O.unnamed opener path.now) F.gives F.fails sectors)) }
        ensures making { IfOk result (λ disk. making_below disk ≡ making_calls sectors) }
        ensures uncalled { IfOk result (λ disk. calls_below disk ≡ []) }
        ensures size { IfOk result (λ disk. (sector_file_state_of F.holds disk).size ≡ sectors) }
        ensures failures { IfOk result (λ disk. (sector_file_state_of F.holds disk).failures ≡ 0) }
        ensures calls { IfOk result (λ disk. (sector_file_state_of F.holds disk).calls ≡ 0) }
        ensures writes { IfOk result (λ disk. (sector_file_state_of F.holds disk).writes ≡ 0) }
        ensures trace { IfOk result (λ disk. (sector_file_state_of F.holds disk).trace ≡ []) }
    {
        if let Ok(false) = opener.is_file_at(path) {
            return Err(FileFault::NotAFile(opener));
        }
        let mut how = OpenOptions::new();
        how.read(true).write(true).create(true);
        let (file, folder) = match opener.open_once(&how, path) {
            Ok(opened) => opened,
            Err(error) => return Err(FileFault::Unopened(error)),
        };
        let made = match TracedFile::zeroed(file, sectors) {
            Ok(made) => made,
            Err(failed) => return Err(FileFault::Failed(failed)),
        };
        match made.named::<O>(folder, path) {
            Ok(named) => Ok(SectorFile::over(named, sectors)),
            Err(failed) => Err(FileFault::Failed(failed)),
        }
    }
}
