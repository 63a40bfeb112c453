//! The journal's writes, in steps of a few device calls each.
ghost use Rattle.std.specs.Prelude.{◌≡◌, ◌≤◌, ◌<◌, ◌+◌, ◌^◌, ◌++◌, [], ◌∷◌, ℕ, length};
ghost use Rattle.std.specs.Prelude.{OnOk, OnErr, slice_set, All};
ghost use Rattle.lift_base.specs.Records.{IsLawful};
ghost use Rattle.lift_disk.specs.Disk.{LooseWithin, TouchesOnly, IsSteadyAt};
ghost use Rattle.lift_journal.specs.Layout.{IsBody, body_size, new_batch};
ghost use Rattle.lift_journal.specs.Steps.{overwritten, IsInRange, marked, unmarked, IsSyncedAt};
ghost use Rattle.lift_journal.specs.Failed.{Misses};
ghost use Rattle.lift_disk.specs.Trace.Access.{Write, Sync};
ghost use Rattle.lift_journal.specs.Calls.{Performs, writes_from, puts, batch_body};
ghost use Rattle.lift_journal.specs.Writing.{WritesBatch};

use crate::batch::RecordList;
use crate::body::{body_count, put_body};
use lift_disk::{Disk, DiskFault};

/// Writes these sectors in a row.
pub fn write_sectors<D: Disk>(
    disk: &mut D,
    first: u32,
    sectors: &[[u8; 512]],
) -> Result<(), DiskFault>
    requires there { first + length sectors.now ≤ (D.state disk.old).size }
    requires fits { first + length sectors.now < 2 ^ 32 }
    ensures performs { Performs result (writes_from first sectors.now) (length sectors.now)
        (length sectors.now) (D.state disk.old) (D.state disk.new) }
    ensures touched { (low high : ℕ) → low ≤ first → first + length sectors.now ≤ high
        → LooseWithin (IsInRange low high) (D.state disk.old)
        → TouchesOnly (IsInRange low high) (D.state disk.old) (D.state disk.new) }
    ensures written { OnOk result ((D.state disk.old).is_honest → (D.state disk.old).is_steady
        → IsSteadyAt (overwritten (D.state disk.old).image first sectors.now) (D.state disk.new)) }
{
    let mut at = first;
    for sector in sectors {
        disk.write(at, sector)?;
        at += 1;
    }
    Ok(())
}

/// A closed gate.
static CLOSED_GATE: [u8; 512] = [0; 512];

/// An open gate. It is spelled out: where it is put together of two writes of different widths, a
/// device in memory that copies it waits for both.
static OPEN_GATE: &[u8; 512] = b"\xA5\0\0\0\0\0\0\0\0\0\0\0\0\0\0\0\0\0\0\0\0\0\0\0\0\0\0\0\0\0\0\0\
    \0\0\0\0\0\0\0\0\0\0\0\0\0\0\0\0\0\0\0\0\0\0\0\0\0\0\0\0\0\0\0\0\
    \0\0\0\0\0\0\0\0\0\0\0\0\0\0\0\0\0\0\0\0\0\0\0\0\0\0\0\0\0\0\0\0\
    \0\0\0\0\0\0\0\0\0\0\0\0\0\0\0\0\0\0\0\0\0\0\0\0\0\0\0\0\0\0\0\0\
    \0\0\0\0\0\0\0\0\0\0\0\0\0\0\0\0\0\0\0\0\0\0\0\0\0\0\0\0\0\0\0\0\
    \0\0\0\0\0\0\0\0\0\0\0\0\0\0\0\0\0\0\0\0\0\0\0\0\0\0\0\0\0\0\0\0\
    \0\0\0\0\0\0\0\0\0\0\0\0\0\0\0\0\0\0\0\0\0\0\0\0\0\0\0\0\0\0\0\0\
    \0\0\0\0\0\0\0\0\0\0\0\0\0\0\0\0\0\0\0\0\0\0\0\0\0\0\0\0\0\0\0\0\
    \0\0\0\0\0\0\0\0\0\0\0\0\0\0\0\0\0\0\0\0\0\0\0\0\0\0\0\0\0\0\0\0\
    \0\0\0\0\0\0\0\0\0\0\0\0\0\0\0\0\0\0\0\0\0\0\0\0\0\0\0\0\0\0\0\0\
    \0\0\0\0\0\0\0\0\0\0\0\0\0\0\0\0\0\0\0\0\0\0\0\0\0\0\0\0\0\0\0\0\
    \0\0\0\0\0\0\0\0\0\0\0\0\0\0\0\0\0\0\0\0\0\0\0\0\0\0\0\0\0\0\0\0\
    \0\0\0\0\0\0\0\0\0\0\0\0\0\0\0\0\0\0\0\0\0\0\0\0\0\0\0\0\0\0\0\0\
    \0\0\0\0\0\0\0\0\0\0\0\0\0\0\0\0\0\0\0\0\0\0\0\0\0\0\0\0\0\0\0\0\
    \0\0\0\0\0\0\0\0\0\0\0\0\0\0\0\0\0\0\0\0\0\0\0\0\0\0\0\0\0\0\0\0\
    \0\0\0\0\0\0\0\0\0\0\0\0\0\0\0\0\0\0\0\0\0\0\0\0\0\0\0\0\0\0\0\0";

/// An open gate, and the pick of the second half.
pub fn mark() -> [u8; 512]
    ensures { result ≡ marked }
{
    *OPEN_GATE
}

/// Writes the body of a batch after a closed gate, and a closed gate after it.
fn store_after<D: Disk>(disk: &mut D, gate: u32, body: &[[u8; 512]]) -> Result<(), DiskFault>
    requires there { gate + 1 + length body.now < (D.state disk.old).size }
    requires fits { gate + 1 + length body.now < 2 ^ 32 }
    ensures performs { Performs result (writes_from (gate + 1) body.now
        ++ Write (gate + 1 + length body.now) unmarked ∷ Sync ∷ []) (length body.now + 2)
        (length body.now + 1) (D.state disk.old) (D.state disk.new) }
    ensures touched { LooseWithin (IsInRange (gate + 1) (gate + length body.now + 2))
        (D.state disk.old)
        → TouchesOnly (IsInRange (gate + 1) (gate + length body.now + 2)) (D.state disk.old)
        (D.state disk.new) }
    ensures stored { OnOk result ((D.state disk.old).is_honest → (D.state disk.old).is_steady
        → IsSyncedAt (slice_set (overwritten (D.state disk.old).image (gate + 1) body.now)
        (gate + 1 + length body.now) unmarked) (D.state disk.new)) }
{
    write_sectors(disk, gate + 1, body)?;
    disk.write(gate + 1 + body.len() as u32, &CLOSED_GATE)?;
    disk.sync()
}

/// Opens a gate, so that the batch after it counts.
fn open_gate<D: Disk>(disk: &mut D, gate: u32) -> Result<(), DiskFault>
    requires { gate < (D.state disk.old).size }
    ensures performs { Performs result (puts gate marked) 2 1 (D.state disk.old)
        (D.state disk.new) }
    ensures touched { LooseWithin (IsInRange gate (gate + 1)) (D.state disk.old)
        → TouchesOnly (IsInRange gate (gate + 1)) (D.state disk.old) (D.state disk.new) }
    ensures opened { OnOk result ((D.state disk.old).is_honest → (D.state disk.old).is_steady
        → IsSyncedAt (slice_set (D.state disk.old).image gate marked) (D.state disk.new)) }
    ensures misses { OnErr result ((D.state disk.old).is_honest → (D.state disk.old).is_inert
        → Misses gate marked (D.state disk.old) (D.state disk.new)) }
{
    disk.write(gate, &mark())?;
    disk.sync()
}

/// Writes a batch. A crash at any moment leaves the batches from before, or these and the new one.
fn write_batch<D: Disk>(disk: &mut D, gate: u32, body: &[[u8; 512]]) -> Result<(), DiskFault>
    requires there { gate + 1 + length body.now < (D.state disk.old).size }
    requires fits { gate + 1 + length body.now < 2 ^ 32 }
    ensures writes { WritesBatch result gate body.now (D.state disk.old) (D.state disk.new) }
{
    store_after(disk, gate, body)?;
    open_gate(disk, gate)
}

/// Writes a batch of these records. Where its body takes one sector, just one is zeroed first.
pub fn write_records<D: Disk>(
    disk: &mut D,
    gate: u32,
    batch: &RecordList,
    number: u32,
) -> Result<(), DiskFault>
    requires there { gate + 1 + body_size (length batch.now.items) < (D.state disk.old).size }
    requires fits { gate + 1 + body_size (length batch.now.items) < 2 ^ 32 }
    requires some { 1 ≤ length batch.now.items }
    requires numbered { 1 ≤ number }
    requires lawful { All IsLawful batch.now.items }
    ensures spelled { IsBody number (new_batch batch.now.items)
        (batch_body number (new_batch batch.now.items)) }
    ensures writes { WritesBatch result gate (batch_body number (new_batch batch.now.items))
        (D.state disk.old) (D.state disk.new) }
{
    if body_count(batch.len()) == 1 {
        let mut text = [0; 512];
        write_batch(disk, gate, put_body(&mut text, batch, number))
    } else {
        let mut text = [0; 1024];
        write_batch(disk, gate, put_body(&mut text, batch, number))
    }
}
