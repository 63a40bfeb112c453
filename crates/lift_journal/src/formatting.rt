//! The making of an empty journal.
ghost use Rattle.std.specs.Prelude.{◌≡◌, ◌≤◌, ◌<◌, ◌+◌, ◌*◌, [], ◌∷◌, false, OnOk, Some, slice_get};
ghost use Rattle.std.specs.Prelude.{slice_set};
ghost use Rattle.lift_base.specs.History.{IsWithinLimits};
ghost use Rattle.lift_disk.specs.Disk.{IsSynced, TouchesOnly};
ghost use Rattle.lift_journal.specs.Layout.{filled, stamp_bytes, Picks};
ghost use Rattle.lift_journal.specs.Journal.{ReadsAs};
ghost use Rattle.lift_disk.specs.Trace.Access.{Write, Sync};
ghost use Rattle.lift_journal.specs.Calls.{Performs, puts, format_calls};
ghost use Rattle.lift_journal.specs.Steps.{IsSyncedAt, IsFormatted, unmarked};

use crate::stamp::stamp_of;
use lift_base::Shape;
use lift_disk::{Disk, DiskFault};

/// Picks the first half and closes its first gate.
fn empty_half<D: Disk>(disk: &mut D) -> Result<(), DiskFault>
    requires { 2 < (D.state disk.old).size }
    ensures performs { Performs result (Write 0 unmarked ∷ Write 2 unmarked ∷ Sync ∷ []) 3 2
        (D.state disk.old) (D.state disk.new) }
    ensures touched { TouchesOnly (IsFormatted (D.state disk.old)) (D.state disk.old)
        (D.state disk.new) }
    // Whatever was in doubt before.
    ensures picked { OnOk result ((D.state disk.old).is_honest
        → slice_get (D.state disk.new).image 0 ≡ Some unmarked) }
    ensures closed { OnOk result ((D.state disk.old).is_honest
        → slice_get (D.state disk.new).image 2 ≡ Some unmarked) }
    ensures synced { OnOk result ((D.state disk.old).is_honest → IsSynced (D.state disk.new)) }
{
    disk.write(0, &[0; 512])?;
    disk.write(2, &[0; 512])?;
    disk.sync()
}

/// Writes the stamp.
fn put_stamp<D: Disk>(disk: &mut D, shape: &Shape) -> Result<(), DiskFault>
    requires { 1 < (D.state disk.old).size }
    ensures performs { Performs result (puts 1 (filled 1 (stamp_bytes shape.now))) 2 1
        (D.state disk.old) (D.state disk.new) }
    ensures touched { TouchesOnly (IsFormatted (D.state disk.old)) (D.state disk.old)
        (D.state disk.new) }
    ensures stored { OnOk result ((D.state disk.old).is_honest → (D.state disk.old).is_steady
        → IsSyncedAt (slice_set (D.state disk.old).image 1 (filled 1 (stamp_bytes shape.now)))
        (D.state disk.new)) }
    ensures synced { OnOk result ((D.state disk.old).is_honest → IsSynced (D.state disk.new)) }
{
    disk.write(1, &stamp_of(shape))?;
    disk.sync()
}

/// Makes an empty journal of this shape, over whatever the device holds. The other sectors stay as
/// they are. After a fault it is begun again.
pub fn format<D: Disk>(disk: &mut D, shape: Shape) -> Result<(), DiskFault>
    requires within { IsWithinLimits shape }
    requires room { 2 * shape.half + 2 ≤ (D.state disk.old).size }
    ensures performs { Performs result (format_calls shape) 5 3 (D.state disk.old)
        (D.state disk.new) }
    // Also where it fails, no other sector is touched.
    ensures touched { TouchesOnly (IsFormatted (D.state disk.old)) (D.state disk.old)
        (D.state disk.new) }
    ensures synced { OnOk result ((D.state disk.old).is_honest → IsSynced (D.state disk.new)) }
    // Whatever was in doubt before: its first sync settles that.
    ensures empty { OnOk result ((D.state disk.old).is_honest
        → ReadsAs shape [] [] (D.state disk.new).image) }
    ensures half { OnOk result ((D.state disk.old).is_honest
        → Picks false (D.state disk.new).image) }
{
    empty_half(disk)?;
    put_stamp(disk, &shape)
}
