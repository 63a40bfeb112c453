//! Devices that take several neighbouring sectors in one call.
ghost use Rattle.std.specs.Prelude.{◌≡◌, ◌≤◌, ◌<◌, ◌+◌, ℕ, OnOk, List, length, Result, ⊤};
ghost use Rattle.lift_disk.specs.Disk.{IsAccess, WritesStay, LeavesAsBefore};
ghost use Rattle.lift_disk.specs.Runs.{Announces, GivesRun, HoldsRun, IsInRun, StoresRun, joined};
ghost use Rattle.lift_disk.specs.Trace.Access.{Read, Write};

use crate::{Disk, DiskFault};

/// A device that also takes several neighbouring sectors in one call.
pub trait RunDisk: Disk {
    ghost use Rattle.lift_disk.specs.declared.disk.DiskFault.{DiskFault};

    /// A call of the device has given these bytes for the sector.
    ghost has_read_bytes: { Self → ℕ → List ℕ → Type 0 };

    /// What a device says of an announcement beside: of the device before, the sector, and the
    /// device after it.
    ghost announce_gives: { Self → ℕ → Self → Type 0 } = { λ _ _ _. ⊤ };

    /// What it says of a read of several sectors beside: of the device before, the first of them,
    /// what was read, the answer and the device after it.
    ghost read_run_gives: { Self → ℕ → List (List ℕ) → Result (Unit {0}) DiskFault → Self
        → Type 0 } = { λ _ _ _ _ _. ⊤ };

    /// The same of a write of these.
    ghost write_run_gives: { Self → ℕ → List (List ℕ) → Result (Unit {0}) DiskFault → Self
        → Type 0 } = { λ _ _ _ _ _. ⊤ };

    /// Says that a sector is to be written. It is no call: from now on a crash may leave any bytes
    /// at all in the sector, as if its write had begun.
    fn announce(&mut self, sector: u32)
        requires { sector < (Self.state self.old).size }
        ensures announced { Announces sector (Self.state self.old) (Self.state self.new) }
        ensures given { (i : ℕ) (bytes : List ℕ) → ∥ has_read_bytes self.old i bytes ∥₁
            → ∥ has_read_bytes self.new i bytes ∥₁ }
        ensures own { announce_gives self.old sector self.new };

    /// Reads as many sectors as there is room for, from this one on. A failed read leaves the room
    /// open.
    fn read_run(&mut self, sector: u32, run: &mut [[u8; 512]]) -> Result<(), DiskFault>
        requires { sector + length run.old ≤ (Self.state self.old).size }
        ensures access { IsAccess result (Read sector) (Self.state self.old) (Self.state self.new) }
        ensures leaves { LeavesAsBefore (Self.state self.old) (Self.state self.new) }
        ensures keeps { OnOk result (WritesStay (Self.state self.old) (Self.state self.new)) }
        ensures gives { OnOk result ((Self.state self.old).is_honest
            → HoldsRun sector (length run.new) run.new (Self.state self.new).image) }
        ensures given { OnOk result (GivesRun (has_read_bytes self.new) sector (length run.new) run.new) }
        ensures own { read_run_gives self.old sector run.new result self.new };

    /// Writes these sectors from that one on, each of which was announced. Until a sync succeeds a
    /// crash may leave any bytes at all in each of them, also where the write failed.
    fn write_run(&mut self, sector: u32, run: &[[u8; 512]]) -> Result<(), DiskFault>
        requires inside { sector + length run.now ≤ (Self.state self.old).size }
        requires announced { (Self.state self.old).is_honest → (i : ℕ)
            → ¬ (Self.state self.old).is_loose i → ¬ IsInRun sector (length run.now) i }
        ensures access { IsAccess result (Write sector (joined run.now)) (Self.state self.old)
            (Self.state self.new) }
        ensures leaves { LeavesAsBefore (Self.state self.old) (Self.state self.new) }
        ensures stores { OnOk result
            (StoresRun sector run.now (Self.state self.old) (Self.state self.new)) }
        ensures own { write_run_gives self.old sector run.now result self.new };
}
