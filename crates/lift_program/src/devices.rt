//! What is true of letters, over whatever device.
ghost use Rattle.lift_program.specs.Devices.{HoldsForAnyDevice, KeepsForAnyDevice};

use lift_disk::Disk;

/// The next start may be over a device of another type, as one in memory that a power cut left of one
/// that failed: what the last serving left to its own type it finds too.
pub fn letters_know_no_device<D: Disk, E: Disk, F: Disk>()
    ensures images { KeepsForAnyDevice D E }
    ensures holds { HoldsForAnyDevice D E F.state }
{}
