//! A file whose calls can be listed.
ghost use Rattle.std.specs.Prelude.{◌↔◌, ◌≡◌, IfOk, OnOk, ⊤};
ghost use Rattle.lift_disk.specs.Disk.{CountsNow, DiskState, IsWhole, LeavesNoOther, MayLose};
ghost use Rattle.lift_disk.specs.FileCalls.{FileCall, IsOneAnswer, IsOneCall};
ghost use Rattle.lift_disk.specs.FileCalls.FileCall.{ReadSectors, WriteSectors, SyncData};
ghost use Rattle.lift_disk.specs.FileCalls.FileCall.{DropCached, GetLength, Lock, SetLength};
ghost use Rattle.lift_disk.specs.FileCalls.FileCall.{Restrict, SyncAll};
ghost use Rattle.lift_disk.specs.Holding.{sectors_in};
ghost use Rattle.lift_disk.specs.Holding.{IsKnownSteady, IsUntouched, OpensSector, Reads, Syncs};
ghost use Rattle.lift_disk.specs.Holding.{Writes, WritesBack};
ghost use Rattle.lift_disk.specs.Holding.{nothing_known};

use std::fs::{File, OpenFile, Permissions};
use std::io;
use std::os::unix::fs::{FileExt, PermissionsExt};

/// A file's rights, of which its owner may read and write it, and nobody else.
pub(crate) const OWNER_ALONE: u32 = 0o600;

/// A file whose calls can be listed: each step from one state to the next is a call of it.
///
/// What it holds is told as of a device of sectors, and whether it is honest: what each call does
/// to that is promised of an honest file alone. Of a file of the system nothing shows that it is.
pub trait ListedFile {
    /// This call has succeeded, and leads from one state to the next.
    ghost gives: { Self → FileCall → Self → Type 0 };

    /// This call was made and has failed, and leads from one state to the next.
    ghost fails: { Self → FileCall → Self → Type 0 };

    /// What it holds, by its whole sectors, as many of them as can be numbered.
    ghost holds: { Self → DiskState };

    /// What was written has reached the disk, or was given up.
    ghost is_written_back: { Self → Type 0 };

    /// Takes the lock that one process has at a time, or fails at once. It is held until the file
    /// is closed.
    fn lock_listed(&mut self) -> io::Result<()>
        ensures one { IsOneCall gives fails result Lock self.old self.new }
        ensures untouched { IsUntouched (holds self.old) (holds self.new) };

    /// Makes it its owner's alone to read and write, whoever might before.
    fn restrict_listed(&mut self) -> io::Result<()>
        ensures one { IsOneCall gives fails result Restrict self.old self.new }
        ensures untouched { IsUntouched (holds self.old) (holds self.new) };

    /// Says that a sector is to be written. It is no call: from now on a crash may leave any bytes
    /// at all in the sector, as if its write had begun.
    fn announce_listed(&mut self, sector: u32)
        ensures opens { OpensSector sector (holds self.old) (holds self.new) };

    /// Reads as many sectors as there is room for, from this offset on.
    fn read_sectors_listed(&mut self, run: &mut [[u8; 512]], offset: u64) -> io::Result<()>
        ensures one { IsOneCall gives fails result (ReadSectors offset run.new) self.old self.new }
        ensures held { Reads result offset run.new (holds self.old) (holds self.new) };

    /// Writes these sectors from this offset on.
    fn write_sectors_listed(&mut self, run: &[[u8; 512]], offset: u64) -> io::Result<()>
        ensures one { IsOneCall gives fails result (WriteSectors offset run.now) self.old self.new }
        ensures held { Writes result offset run.now (holds self.old) (holds self.new) };

    /// By `fdatasync`: the bytes and what is needed to find them, without the file's times. It is
    /// relied on where no call has failed since the last sync: a system that failed to write
    /// something back may never try again, and say Ok.
    fn sync_data_listed(&mut self) -> io::Result<()>
        ensures one { IsOneCall gives fails result SyncData self.old self.new }
        ensures held { Syncs (IsKnownSteady (holds self.old)) result (holds self.old)
            (holds self.new) };

    /// By `fdatasync` too, where a call may have failed: what was written is given to the disk.
    fn write_back_listed(&mut self) -> io::Result<()>
        ensures one { IsOneCall gives fails result SyncData self.old self.new }
        ensures held { WritesBack result (holds self.old) (holds self.new) }
        ensures back { OnOk result (is_written_back self.new) };

    /// Drops what is cached, so that what is read from now on is what the disk holds.
    fn drop_cached_listed(&mut self) -> io::Result<()>
        ensures one { IsOneCall gives fails result DropCached self.old self.new }
        ensures held { Syncs (is_written_back self.old) result (holds self.old) (holds self.new) };

    /// Makes it this many bytes long.
    fn set_length_listed(&mut self, bytes: u64) -> io::Result<()>
        ensures one { IsOneCall gives fails result (SetLength bytes) self.old self.new }
        ensures honest { (holds self.new).is_honest ↔ (holds self.old).is_honest }
        ensures size { OnOk result ((holds self.old).is_honest
            → (holds self.new).size ≡ sectors_in bytes) };

    /// Makes all of it safe, its length too.
    fn sync_all_listed(&mut self) -> io::Result<()>
        ensures one { IsOneCall gives fails result SyncAll self.old self.new }
        ensures held { Syncs (IsKnownSteady (holds self.old)) result (holds self.old)
            (holds self.new) };

    /// How many bytes it has.
    fn length_listed(&mut self) -> io::Result<u64>
        ensures one { IsOneAnswer gives fails result GetLength self.old self.new }
        ensures untouched { IsUntouched (holds self.old) (holds self.new) }
        ensures size { IfOk result (λ bytes. (holds self.old).is_honest
            → (holds self.old).size ≡ sectors_in bytes) };

    /// The image has as many sectors as the file.
    ghost whole: { (file : Self) → IsWhole (holds file) };

    /// This moment is one of those since an earlier one.
    ghost counts_now: { (file : Self) → CountsNow (holds file) };

    /// Since this moment there is no other.
    ghost only_now: { (file : Self) → LeavesNoOther (holds file) };

    /// Sectors that aren't loose are as the last sync left them.
    ghost may_lose: { (file : Self) → MayLose (holds file) };
}

/// What a file of the system takes beside reads, writes and syncs.
pub trait HostFile: FileExt + OpenFile {
    /// Takes the lock that one open file has at a time, or fails at once.
    fn try_lock(&self) -> io::Result<()>;

    /// Asks the system to forget what it has cached of the file and written to the disk.
    fn drop_cached(&self) -> io::Result<()>;
}

impl HostFile for File {
    fn try_lock(&self) -> io::Result<()> {
        File::try_lock(self).map_err(io::Error::from)
    }

    fn drop_cached(&self) -> io::Result<()> {
        lift_system::drop_cached(self)
    }
}

/// A file of the system, or what stands for one: nothing is known of what it holds.
#[derive(Drop)]
pub struct SystemFile<F> {
    file: F,
}

impl<F> SystemFile<F> {
    /// A file that was opened to be read and written.
    pub fn over(file: F) -> SystemFile<F> {
        SystemFile { file }
    }
}

impl<F: HostFile> ListedFile for SystemFile<F> {
    ghost gives = { λ _ _ _. ⊤ };

    ghost fails = { λ _ _ _. ⊤ };

    ghost holds = { λ _. nothing_known };

    ghost is_written_back = { λ _. ⊤ };

    ghost whole = { λ _ no. absurd no };

    ghost counts_now = { λ _ no. absurd no };

    ghost only_now = { λ _ no. absurd no };

    ghost may_lose = { λ _ no. absurd no };

    fn lock_listed(&mut self) -> io::Result<()> {
        self.file.try_lock()
    }

    fn restrict_listed(&mut self) -> io::Result<()> {
        self.file
            .set_permissions(Permissions::from_mode(OWNER_ALONE))
    }

    fn announce_listed(&mut self, _sector: u32) {}

    fn read_sectors_listed(&mut self, run: &mut [[u8; 512]], offset: u64) -> io::Result<()> {
        self.file.read_exact_at(run.as_flattened_mut(), offset)
    }

    fn write_sectors_listed(&mut self, run: &[[u8; 512]], offset: u64) -> io::Result<()> {
        self.file.write_all_at(run.as_flattened(), offset)
    }

    fn sync_data_listed(&mut self) -> io::Result<()> {
        self.file.sync_data()
    }

    fn write_back_listed(&mut self) -> io::Result<()> {
        self.file.sync_data()
    }

    fn drop_cached_listed(&mut self) -> io::Result<()> {
        self.file.drop_cached()
    }

    fn set_length_listed(&mut self, bytes: u64) -> io::Result<()> {
        self.file.set_len(bytes)
    }

    fn sync_all_listed(&mut self) -> io::Result<()> {
        self.file.sync_all()
    }

    fn length_listed(&mut self) -> io::Result<u64> {
        Ok(self.file.metadata()?.len())
    }
}
