//! A file whose calls are listed.
ghost use Rattle.std.specs.Prelude.{◌≡◌, ◌↔◌, ◌+◌, ◌*◌, ◌/◌, ◌++◌, [], ◌∷◌, IfOk, IsOk, OnErr, OnOk};
ghost use Rattle.std.specs.Prelude.{ℕ, IfErr, IsTrue, false, ⊤};
ghost use Rattle.lift_disk.specs.Holding.{sectors_in};
ghost use Rattle.lift_disk.specs.Holding.{IsKnownSteady, IsSameFile, IsUntouched, OpensSector};
ghost use Rattle.lift_disk.specs.Holding.{Reads, Syncs, Writes};
ghost use Rattle.lift_disk.specs.FileCalls.{FailsIn, LeadsBy, MakesCalls, sync_calls};
ghost use Rattle.lift_disk.specs.FileCalls.FileCall.{ReadSectors, WriteSectors, SyncData};
ghost use Rattle.lift_disk.specs.FileCalls.FileCall.{GetLength, Lock, Restrict, SetLength, SyncAll};

use crate::DiskFault;
use crate::file::FailedFile;
use crate::file_calls::{Called, ProofFileCalls};
use crate::listed::ListedFile;
use crate::opener::FileOpener;
use lift_base::ProofCount;
use std::io;

/// This many sectors of a file are written at once while it is made.
const AT_ONCE: u32 = 128;

/// A file with the list of its calls that have succeeded and the count of those that have failed,
/// which only proofs read. The only way to the file is by the calls below, so both bind.
#[derive(Drop)]
pub struct TracedFile<F: Drop> {
    file: F,
    making: ProofFileCalls,
    calls: ProofFileCalls,
    failures: ProofCount,
}

impl<F: ListedFile + Drop> TracedFile<F> {
    ghost use Rattle.lift_disk.specs.Noted.{file_call_of};
    ghost use Rattle.lift_disk.specs.Traced.{traced_calls, failures_of, making_of, file_of};
    ghost use Rattle.lift_disk.specs.Traced.{AreTraced, IsMaking, IsOpenedBy, IsTraced};
    ghost use Rattle.lift_disk.specs.Traced.{making_calls, zero_writes};

    /// A file that was opened to be read and written, and not called yet.
    pub fn over(file: F) -> TracedFile<F>
        ensures making { making_of result ≡ [] }
        ensures calls { traced_calls result ≡ [] }
        ensures failures { failures_of result ≡ 0 }
        ensures same { file_of result ≡ file }
    {
        TracedFile {
            file,
            making: ProofFileCalls::new(),
            calls: ProofFileCalls::new(),
            failures: ProofCount::new(),
        }
    }

    /// Takes the file's lock.
    fn lock(&mut self) -> io::Result<()>
        ensures making { OnOk result (IsMaking F.gives (Lock ∷ []) self.old self.new) }
        ensures failed { OnErr result (F.fails (file_of self.old) Lock (file_of self.new)) }
        ensures untouched { IsUntouched (F.holds (file_of self.old)) (F.holds (file_of self.new)) }
    {
        self.file.lock_listed()?;
        self.making = self.making.then(&Called::Lock);
        Ok(())
    }

    /// Makes it its owner's alone.
    fn restrict(&mut self) -> io::Result<()>
        ensures making { OnOk result (IsMaking F.gives (Restrict ∷ []) self.old self.new) }
        ensures failed { OnErr result (F.fails (file_of self.old) Restrict (file_of self.new)) }
        ensures untouched { IsUntouched (F.holds (file_of self.old)) (F.holds (file_of self.new)) }
    {
        self.file.restrict_listed()?;
        self.making = self.making.then(&Called::Restrict);
        Ok(())
    }

    /// Makes it this many bytes long.
    fn set_length(&mut self, bytes: u64) -> io::Result<()>
        ensures making { OnOk result (IsMaking F.gives (SetLength bytes ∷ []) self.old self.new) }
        ensures failed { OnErr result
            (F.fails (file_of self.old) (SetLength bytes) (file_of self.new)) }
        ensures honest { (F.holds (file_of self.new)).is_honest
            ↔ (F.holds (file_of self.old)).is_honest }
        ensures size { OnOk result ((F.holds (file_of self.old)).is_honest
            → (F.holds (file_of self.new)).size ≡ sectors_in bytes) }
    {
        self.file.set_length_listed(bytes)?;
        self.making = self.making.then(&Called::SetLength(bytes));
        Ok(())
    }

    /// Writes these sectors from this offset on, while it is made.
    fn fill(&mut self, run: &[[u8; 512]], offset: u64) -> io::Result<()>
        ensures making { OnOk result
            (IsMaking F.gives (WriteSectors offset run.now ∷ []) self.old self.new) }
        ensures failed { OnErr result
            (F.fails (file_of self.old) (WriteSectors offset run.now) (file_of self.new)) }
        ensures same { IsSameFile (F.holds (file_of self.old)) (F.holds (file_of self.new)) }
    {
        self.file.write_sectors_listed(run, offset)?;
        self.making = self.making.then(&Called::WriteSectors(offset, run));
        Ok(())
    }

    /// Writes zeros into all of this many sectors.
    fn fill_with_zeros(&mut self, sectors: u32) -> io::Result<()>
        ensures making { OnOk result
            (IsMaking F.gives (zero_writes sectors ((sectors + 127) / 128)) self.old self.new) }
        ensures failed { OnErr result (FailsIn F.gives F.fails
            (zero_writes sectors ((sectors + 127) / 128)) (file_of self.old) (file_of self.new)) }
        ensures same { IsSameFile (F.holds (file_of self.old)) (F.holds (file_of self.new)) }
    {
        let zeros = [[0; 512]; AT_ONCE as usize];
        for i in 0..sectors.div_ceil(AT_ONCE) {
            let from = i * AT_ONCE;
            let count = AT_ONCE.min(sectors - from);
            self.fill(&zeros[..count as usize], u64::from(from) * 512)?;
        }
        Ok(())
    }

    /// Makes all of it safe, its length too.
    fn sync_all(&mut self) -> io::Result<()>
        ensures making { OnOk result (IsMaking F.gives (SyncAll ∷ []) self.old self.new) }
        ensures failed { OnErr result (F.fails (file_of self.old) SyncAll (file_of self.new)) }
        ensures same { IsSameFile (F.holds (file_of self.old)) (F.holds (file_of self.new)) }
    {
        self.file.sync_all_listed()?;
        self.making = self.making.then(&Called::SyncAll);
        Ok(())
    }

    /// Makes it into one of this many sectors of zeros, up to a call that fails.
    fn make(&mut self, sectors: u32) -> io::Result<()>
        ensures making { OnOk result (IsMaking F.gives (making_calls sectors) self.old self.new) }
        ensures failed { OnErr result (FailsIn F.gives F.fails (making_calls sectors)
            (file_of self.old) (file_of self.new)) }
        ensures honest { (F.holds (file_of self.new)).is_honest
            ↔ (F.holds (file_of self.old)).is_honest }
        ensures size { OnOk result ((F.holds (file_of self.old)).is_honest
            → (F.holds (file_of self.new)).size ≡ sectors_in (sectors * 512)) }
    {
        self.lock()?;
        self.restrict()?;
        self.set_length(0)?;
        self.set_length(u64::from(sectors) * 512)?;
        self.fill_with_zeros(sectors)?;
        self.sync_all()
    }

    /// A file that was opened to be read and written, made into one of this many sectors of zeros,
    /// where its lock is free. Each is written, so that the file has its room. Where a call
    /// fails none is made after it, and the file comes back as it was left.
    pub fn zeroed(file: F, sectors: u32) -> Result<TracedFile<F>, FailedFile<F>>
        ensures led { IfOk result (λ made.
            LeadsBy F.gives (making_calls sectors) file (file_of made)) }
        ensures honest { IfOk result (λ made.
            (F.holds (file_of made)).is_honest ↔ (F.holds file).is_honest) }
        ensures size { IfOk result (λ made. (F.holds file).is_honest
            → (F.holds (file_of made)).size ≡ sectors_in (sectors * 512)) }
        ensures making { IfOk result (λ made. making_of made ≡ making_calls sectors) }
        ensures calls { IfOk result (λ made. traced_calls made ≡ []) }
        ensures failures { IfOk result (λ made. failures_of made ≡ 0) }
        ensures failed { IfErr result (λ failed.
            FailsIn F.gives F.fails (making_calls sectors) file failed.file) }
    {
        let mut traced = TracedFile::over(file);
        match traced.make(sectors) {
            Ok(()) => Ok(traced),
            Err(error) => Err(traced.failed(error)),
        }
    }

    /// Asks it for its length. That is listed with the calls that made the file.
    fn measure(&mut self) -> io::Result<u64>
        ensures listed { IfOk result (λ bytes.
            IsMaking F.gives (GetLength bytes ∷ []) self.old self.new) }
        ensures failed { OnErr result ((bytes : ℕ)
            → F.fails (file_of self.old) (GetLength bytes) (file_of self.new)) }
        ensures untouched { IsUntouched (F.holds (file_of self.old)) (F.holds (file_of self.new)) }
        ensures size { IfOk result (λ bytes. (F.holds (file_of self.old)).is_honest
            → (F.holds (file_of self.old)).size ≡ sectors_in bytes) }
    {
        let bytes = self.file.length_listed()?;
        self.making = self.making.then(&Called::GetLength(bytes));
        Ok(bytes)
    }

    /// Takes its lock and then asks it for its length.
    fn lock_and_measure(&mut self) -> io::Result<u64>
        ensures listed { IfOk result (λ bytes.
            IsMaking F.gives (Lock ∷ GetLength bytes ∷ []) self.old self.new) }
        ensures failed { OnErr result ((bytes : ℕ) → FailsIn F.gives F.fails
            (Lock ∷ GetLength bytes ∷ []) (file_of self.old) (file_of self.new)) }
        ensures untouched { IsUntouched (F.holds (file_of self.old)) (F.holds (file_of self.new)) }
        ensures size { IfOk result (λ bytes. (F.holds (file_of self.old)).is_honest
            → (F.holds (file_of self.old)).size ≡ sectors_in bytes) }
    {
        self.lock()?;
        self.measure()
    }

    /// A file that was opened to be read and written, once its lock was taken, and its length in
    /// bytes. Where a call fails none is made after it, and the file comes back. It holds what it held.
    pub fn locked(file: F) -> Result<(TracedFile<F>, u64), FailedFile<F>>
        ensures listed { IfOk result (λ opened. IsOpenedBy F.gives F.holds
            (Lock ∷ GetLength opened.1 ∷ []) file opened.1 opened.0) }
        ensures failed { IfErr result (λ failed. (bytes : ℕ)
            → FailsIn F.gives F.fails (Lock ∷ GetLength bytes ∷ []) file failed.file) }
        ensures untouched { IfErr result (λ failed.
            IsUntouched (F.holds file) (F.holds failed.file)) }
    {
        let mut traced = TracedFile::over(file);
        match traced.lock_and_measure() {
            Ok(bytes) => Ok((traced, bytes)),
            Err(error) => Err(traced.failed(error)),
        }
    }

    /// A file that was opened to be read, and its length in bytes, likewise.
    pub fn measured(file: F) -> Result<(TracedFile<F>, u64), FailedFile<F>>
        ensures listed { IfOk result (λ opened. IsOpenedBy F.gives F.holds
            (GetLength opened.1 ∷ []) file opened.1 opened.0) }
        ensures failed { IfErr result (λ failed. (bytes : ℕ)
            → FailsIn F.gives F.fails (GetLength bytes ∷ []) file failed.file) }
        ensures untouched { IfErr result (λ failed.
            IsUntouched (F.holds file) (F.holds failed.file)) }
    {
        let mut traced = TracedFile::over(file);
        match traced.measure() {
            Ok(bytes) => Ok((traced, bytes)),
            Err(error) => Err(traced.failed(error)),
        }
    }

    /// It, once its folder names it for good, which comes back unless that is so.
    pub(crate) fn named<O: FileOpener<Listed = F>>(
        self,
        folder: O::Folder,
        path: &str,
    ) -> Result<TracedFile<F>, FailedFile<F>>
        ensures same { IfOk result (λ named. named ≡ self) }
        ensures named { IfOk result (λ named.
            O.names (O.opener_of folder) path.now (file_of named)) }
        ensures failed { IfErr result (λ failed. failed.file ≡ file_of self) }
        ensures unnamed { IfErr result (λ failed.
            O.unnamed (O.opener_of folder) path.now failed.file) }
    {
        match O::sync_folder(folder, path, &self.file) {
            Ok(()) => Ok(self),
            Err(error) => Err(self.failed(error)),
        }
    }

    /// The file itself, of which a call failed.
    fn failed(self, error: io::Error) -> FailedFile<F>
        ensures { result.file ≡ file_of self }
    {
        FailedFile {
            error,
            file: self.file,
        }
    }

    /// Lists a call of the file that succeeded, or counts one that failed.
    fn note(&mut self, outcome: io::Result<()>, called: &Called<'_>) -> Result<(), DiskFault>
        ensures made { MakesCalls result (file_call_of called.now ∷ []) (traced_calls self.old)
            (traced_calls self.new) (failures_of self.old) (failures_of self.new) }
        ensures making { making_of self.new ≡ making_of self.old }
        ensures answered { IsOk result ↔ IsOk outcome }
        ensures same { file_of self.new ≡ file_of self.old }
    {
        match outcome {
            Ok(()) => {
                self.calls = self.calls.then(called);
                Ok(())
            }
            Err(_) => {
                self.failures = ProofCount::next(&self.failures);
                Err(DiskFault)
            }
        }
    }

    /// Says that a sector is to be written. It is no call of the file.
    pub(crate) fn announce(&mut self, sector: u32)
        ensures opens { OpensSector sector (F.holds (file_of self.old))
            (F.holds (file_of self.new)) }
        ensures making { making_of self.new ≡ making_of self.old }
        ensures calls { traced_calls self.new ≡ traced_calls self.old }
        ensures failures { failures_of self.new ≡ failures_of self.old }
    {
        self.file.announce_listed(sector);
    }

    /// Reads as many sectors as there is room for, from this offset on, in one call.
    pub(crate) fn read_sectors(
        &mut self,
        run: &mut [[u8; 512]],
        offset: u64,
    ) -> Result<(), DiskFault>
        ensures traced { IsTraced F.gives F.fails result (ReadSectors offset run.new) self.old
            self.new }
        ensures held { Reads result offset run.new (F.holds (file_of self.old))
            (F.holds (file_of self.new)) }
    {
        let outcome = self.file.read_sectors_listed(run, offset);
        self.note(outcome, &Called::ReadSectors(offset, run))
    }

    /// Writes these sectors from this offset on, in one call.
    pub(crate) fn write_sectors(&mut self, run: &[[u8; 512]], offset: u64) -> Result<(), DiskFault>
        ensures traced { IsTraced F.gives F.fails result (WriteSectors offset run.now) self.old
            self.new }
        ensures held { Writes result offset run.now (F.holds (file_of self.old))
            (F.holds (file_of self.new)) }
    {
        let outcome = self.file.write_sectors_listed(run, offset);
        self.note(outcome, &Called::WriteSectors(offset, run))
    }

    /// By `fdatasync`: the bytes and what is needed to find them, without the file's times.
    fn sync_once(&mut self) -> Result<(), DiskFault>
        ensures traced { IsTraced F.gives F.fails result SyncData self.old self.new }
        ensures held { Syncs (IsKnownSteady (F.holds (file_of self.old))) result
            (F.holds (file_of self.old)) (F.holds (file_of self.new)) }
    {
        let outcome = self.file.sync_data_listed();
        self.note(outcome, &Called::SyncData)
    }

    /// The same, and then drops what is cached: so it is known again what the disk holds. Where
    /// the system refuses that, it failed.
    fn sync_anew(&mut self) -> Result<(), DiskFault>
        ensures traced { AreTraced F.gives F.fails result (sync_calls false) self.old self.new }
        ensures held { Syncs ⊤ result (F.holds (file_of self.old)) (F.holds (file_of self.new)) }
    {
        if self.file.write_back_listed().is_err() {
            self.failures = ProofCount::next(&self.failures);
            return Err(DiskFault);
        }
        if self.file.drop_cached_listed().is_err() {
            self.failures = ProofCount::next(&self.failures);
            return Err(DiskFault);
        }
        let written = self.calls.then(&Called::SyncData);
        self.calls = written.then(&Called::DropCached);
        Ok(())
    }

    /// Makes safe what was written, and drops what is cached unless it is known that no call has
    /// failed since that was done.
    pub(crate) fn sync(&mut self, is_steady: bool) -> Result<(), DiskFault>
        ensures traced { AreTraced F.gives F.fails result (sync_calls is_steady) self.old self.new }
        ensures held { Syncs (IsTrue is_steady → IsKnownSteady (F.holds (file_of self.old))) result
            (F.holds (file_of self.old)) (F.holds (file_of self.new)) }
    {
        if is_steady {
            self.sync_once()
        } else {
            self.sync_anew()
        }
    }
}
