//! What a device promises. Its contract says what is read, and what a crash at any moment may
//! leave.
ghost use Rattle.std.specs.Prelude.{◌≡◌, ◌<◌, ℕ, OnOk, OnErr, List, Some, Result, slice_get, ⊤};
ghost use Rattle.lift_disk.specs.Trace.Access.{Read, Write, Sync};
ghost use Rattle.lift_disk.specs.Disk.{DiskState, IsAccess, ReadsAsBefore, SyncedStays, WritesStay};
ghost use Rattle.lift_disk.specs.Disk.{LeavesAsBefore, SavesAll, StoresSector, Touches};
ghost use Rattle.lift_disk.specs.Disk.{IsUnchanged, IsArmedWith, IsWhole, CountsNow, LeavesNoOther};
ghost use Rattle.lift_disk.specs.Disk.{MayLose};

/// A call of the device has failed.
#[derive(Clone, Copy, PartialEq, Eq)]
pub struct DiskFault;

/// A device of sectors. What was written may be lost, or torn, until a sync succeeds.
pub trait Disk {
    ghost use Rattle.lift_disk.specs.declared.disk.DiskFault.{DiskFault};

    /// What is said of the device.
    ghost state: { Self → DiskState };

    /// What a device says of a read beside: of the device before, the sector, the bytes that were
    /// read, the answer and the device after it.
    ghost read_gives: { Self → ℕ → List ℕ → Result (Unit {0}) DiskFault → Self
        → Type 0 } = { λ _ _ _ _ _. ⊤ };

    /// The same of a write of these bytes.
    ghost write_gives: { Self → ℕ → List ℕ → Result (Unit {0}) DiskFault → Self
        → Type 0 } = { λ _ _ _ _ _. ⊤ };

    /// The same of a sync.
    ghost sync_gives: { Self → Result (Unit {0}) DiskFault → Self → Type 0 } = { λ _ _ _. ⊤ };

    /// How many sectors the device has.
    fn sectors(&self) -> u32
        ensures { result ≡ (state self.now).size };

    /// Reads a sector. A failed read leaves the buffer open.
    fn read(&mut self, sector: u32, buffer: &mut [u8; 512]) -> Result<(), DiskFault>
        requires { sector < (state self.old).size }
        ensures access { IsAccess result (Read sector) (state self.old) (state self.new) }
        ensures leaves { LeavesAsBefore (state self.old) (state self.new) }
        ensures keeps { OnOk result (WritesStay (state self.old) (state self.new)) }
        ensures gives { OnOk result ((state self.old).is_honest
            → slice_get (state self.new).image sector ≡ Some buffer.new) }
        ensures image { ReadsAsBefore (state self.old) (state self.new) }
        ensures own { read_gives self.old sector buffer.new result self.new };

    /// Writes a sector. Until a sync succeeds a crash may leave any bytes at all in it, also where
    /// the write failed.
    fn write(&mut self, sector: u32, bytes: &[u8; 512]) -> Result<(), DiskFault>
        requires { sector < (state self.old).size }
        ensures access { IsAccess result (Write sector bytes.now) (state self.old)
            (state self.new) }
        ensures touched { (state self.old).is_honest
            → Touches sector (state self.old) (state self.new) }
        ensures kept { SyncedStays (state self.old) (state self.new) }
        ensures stores { OnOk result
            (StoresSector sector bytes.now (state self.old) (state self.new)) }
        ensures image_err { OnErr result (ReadsAsBefore (state self.old) (state self.new)) }
        ensures own { write_gives self.old sector bytes.now result self.new };

    /// Once it succeeds, a crash leaves what is read.
    fn sync(&mut self) -> Result<(), DiskFault>
        ensures access { IsAccess result Sync (state self.old) (state self.new) }
        ensures saves { OnOk result ((state self.old).is_honest
            → SavesAll (state self.old) (state self.new)) }
        ensures leaves { OnErr result (LeavesAsBefore (state self.old) (state self.new)) }
        ensures image { ReadsAsBefore (state self.old) (state self.new) }
        ensures own { sync_gives self.old result self.new };

    /// The image has as many sectors as the device says.
    ghost whole: { (disk : Self) → IsWhole (state disk) };

    /// This moment is one of those since an earlier one.
    ghost counts_now: { (disk : Self) → CountsNow (state disk) };

    /// Since this moment there is no other.
    ghost only_now: { (disk : Self) → LeavesNoOther (state disk) };

    /// Sectors that aren't loose are as the last sync left them.
    ghost may_lose: { (disk : Self) → MayLose (state disk) };
}

/// A device that can be armed to fail.
pub trait Arm: Disk {
    /// Armed with this number, when this many calls had been made: whether it fails this call,
    /// counted from the first of all.
    ghost fails_by: { ℕ → ℕ → ℕ → Type 0 };

    /// Tells it again which calls to fail. It changes no image and is no call of the device.
    fn arm(&mut self, calls: u32)
        ensures same { IsUnchanged (Self.state self.old) (Self.state self.new) }
        ensures armed { IsArmedWith (fails_by calls (Self.state self.old).calls) (Self.state self.new) };

    /// Whether a growth inside the device was refused, now or earlier.
    fn short(&self) -> bool
        ensures { result ≡ (Self.state self.now).is_short };
}
