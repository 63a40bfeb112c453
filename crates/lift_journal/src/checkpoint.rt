//! The steps of a checkpoint: a register's records are written into the half that isn't picked,
//! which is then picked.
ghost use Rattle.std.specs.Prelude.{◌≡◌, ◌≤◌, ◌<◌, ◌+◌, ◌^◌, ◌⊎◌, ◌++◌, [], ◌∷◌, ℕ, length, take};
ghost use Rattle.std.specs.Prelude.{drop, slice_get, slice_set, OnOk, OnErr, IfOk};
ghost use Rattle.lift_disk.specs.Disk.{HasCause, LooseWithin, TouchesOnly, LeavesOnly};
ghost use Rattle.lift_disk.specs.Disk.{ChangesWithin, IsSteadyAt, IsSynced, RunsOn};
ghost use Rattle.lift_register.specs.Base.{base_records};
ghost use Rattle.lift_journal.specs.Layout.{sector_at, used};
ghost use Rattle.lift_journal.specs.Steps.{Makes, overwritten, IsInRange, IsSyncedAt, marked};
ghost use Rattle.lift_journal.specs.Steps.{unmarked};
ghost use Rattle.lift_journal.specs.Walk.{Reaches};
ghost use Rattle.lift_journal.specs.Checkpoint.{batch_count, checkpoint_of, sectors_for};
ghost use Rattle.lift_journal.specs.Switch.{IsOtherHalf, HasWritten, IsFailedSwitch};
ghost use Rattle.lift_journal.specs.Switch.{IsFailedWriting};
ghost use Rattle.lift_journal.specs.Failed.{Misses};
ghost use Rattle.lift_journal.specs.Armed.{EndsAtFirstFailure};
ghost use Rattle.lift_disk.specs.Trace.Access.{Write};
ghost use Rattle.lift_journal.specs.Calls.{Follows, Performs, writes_from, puts, draft_calls};
ghost use Rattle.lift_journal.specs.Calls.{checkpoint_calls};

use crate::body::{body_count, put_body};
use crate::device::{mark, write_sectors};
use arrayvec::ArrayVec;
use lift_base::{LEAST_HALF, MOST_ENTRIES, MOST_RECORDS, Record, push_some};
use lift_disk::{Disk, DiskFault};
use lift_register::Register;

/// How many batches so many records take.
pub fn batches_for(count: usize) -> usize
    requires { count ≤ MOST_RECORDS }
    ensures value { result ≡ batch_count count }
    ensures limit { result ≤ 10 }
{
    (count + MOST_ENTRIES - 1) / MOST_ENTRIES
}

/// Where the half that isn't picked begins, and the sector that picks it.
pub fn other_half(start: u32, half: u32) -> (u32, [u8; 512])
    requires { half ≤ 1000000 }
    ensures { IsOtherHalf half start result.0 result.1 }
{
    if start == 2 {
        (half + 2, mark())
    } else {
        (2, [0; 512])
    }
}

/// One batch of a register's checkpoint of so many records: 63 records from this place on, or those
/// that are left.
fn base_batch(register: &Register, count: usize, from: usize) -> ArrayVec<Record, MOST_ENTRIES>
    requires count { count ≡ length (base_records register.now) }
    requires limit { from ≤ MOST_RECORDS }
    ensures { result.items ≡ take MOST_ENTRIES (drop from (base_records register.now)) }
{
    let mut batch = ArrayVec::new();
    for place in from..count.min(from + MOST_ENTRIES) {
        push_some(&mut batch, Some(register.base_record(place)));
    }
    batch
}

/// Writes a batch in a half that isn't picked: its body, and its gate open.
fn write_open_batch<D: Disk>(disk: &mut D, gate: u32, body: &[[u8; 512]]) -> Result<(), DiskFault>
    requires there { gate + 1 + length body.now ≤ (D.state disk.old).size }
    requires fits { gate + 1 + length body.now < 2 ^ 32 }
    ensures runs { RunsOn (D.state disk.old) (D.state disk.new) }
    ensures made { Makes result (1 + length body.now) (1 + length body.now) (D.state disk.old)
        (D.state disk.new) }
    ensures cause { HasCause result (D.state disk.old) (D.state disk.new) }
    ensures follows { Follows result (writes_from (gate + 1) body.now ++ Write gate marked ∷ [])
        (D.state disk.old) (D.state disk.new) }
    ensures armed { EndsAtFirstFailure result (D.state disk.old) (D.state disk.new) }
    ensures touched { (low high : ℕ) → low ≤ gate → gate + 1 + length body.now ≤ high
        → LooseWithin (IsInRange low high) (D.state disk.old)
        → TouchesOnly (IsInRange low high) (D.state disk.old) (D.state disk.new) }
    ensures written { OnOk result ((D.state disk.old).is_honest → (D.state disk.old).is_steady
        → IsSteadyAt (slice_set (overwritten (D.state disk.old).image (gate + 1) body.now) gate
        marked) (D.state disk.new)) }
{
    write_sectors(disk, gate + 1, body)?;
    disk.write(gate, &mark())
}

/// Writes the batches of a register's checkpoint from this sector on, and answers where its closing
/// gate goes.
fn write_batches<D: Disk>(disk: &mut D, register: &Register, start: u32) -> Result<u32, DiskFault>
    requires there { start + LEAST_HALF ≤ (D.state disk.old).size }
    requires fits { start + LEAST_HALF < 2 ^ 32 }
    ensures performs { Performs result
        (draft_calls start 1 (checkpoint_of (base_records register.now)))
        (sectors_for (length (base_records register.now)))
        (sectors_for (length (base_records register.now))) (D.state disk.old) (D.state disk.new) }
    ensures touched { LooseWithin (IsInRange start (start + LEAST_HALF)) (D.state disk.old)
        → TouchesOnly (IsInRange start (start + LEAST_HALF)) (D.state disk.old) (D.state disk.new) }
    ensures gate { IfOk result (λ gate.
        (gate ≡ start + sectors_for (length (base_records register.now))) × (gate < start + LEAST_HALF)) }
    ensures placed { IfOk result (λ gate.
        gate ≡ start + used (checkpoint_of (base_records register.now))) }
    ensures steady { OnOk result ((D.state disk.old).is_honest → (D.state disk.old).is_steady
        → (D.state disk.new).is_steady) }
    ensures reached { IfOk result (λ gate. (D.state disk.old).is_honest
        → (D.state disk.old).is_steady
        → (end : ℕ) → start + LEAST_HALF ≤ end → end ≤ (D.state disk.old).size
        → Reaches (D.state disk.new).image start end gate
        (checkpoint_of (base_records register.now))) }
{
    let mut gate = start;
    let count = register.base_len();
    for index in 0..batches_for(count) {
        let batch = base_batch(register, count, MOST_ENTRIES * index);
        let bodies = body_count(batch.len());
        let mut text = [0; 1024];
        let body = put_body(&mut text[..512 * bodies], &batch, index as u32 + 1);
        write_open_batch(disk, gate, body)?;
        gate += bodies as u32 + 1;
    }
    Ok(gate)
}

/// Writes a sector and makes it safe.
fn put_sector<D: Disk>(disk: &mut D, sector: u32, bytes: &[u8; 512]) -> Result<(), DiskFault>
    requires { sector < (D.state disk.old).size }
    ensures performs { Performs result (puts sector bytes.now) 2 1 (D.state disk.old)
        (D.state disk.new) }
    ensures touched { (low high : ℕ) → low ≤ sector → sector < high
        → LooseWithin (IsInRange low high) (D.state disk.old)
        → TouchesOnly (IsInRange low high) (D.state disk.old) (D.state disk.new) }
    ensures stored { OnOk result ((D.state disk.old).is_honest → (D.state disk.old).is_steady
        → IsSyncedAt (slice_set (D.state disk.old).image sector bytes.now) (D.state disk.new)) }
    ensures misses { OnErr result ((D.state disk.old).is_honest → (D.state disk.old).is_inert
        → Misses sector bytes.now (D.state disk.old) (D.state disk.new)) }
{
    disk.write(sector, bytes)?;
    disk.sync()
}

/// Closes the chain in the half that isn't picked, and picks that half once it is safe.
fn switch_half<D: Disk>(disk: &mut D, gate: u32, pick: &[u8; 512]) -> Result<(), DiskFault>
    requires { gate < (D.state disk.old).size }
    ensures performs { Performs result (puts gate unmarked ++ puts 0 pick.now) 4 2
        (D.state disk.old) (D.state disk.new) }
    // Until the chain is closed and safe, a crash leaves the pick; after it, just the pick is in
    // doubt.
    ensures any_moment { (low high : ℕ) → low ≤ gate → gate < high
        → LooseWithin (IsInRange low high) (D.state disk.old)
        → ((D.state disk.old).is_honest → (D.state disk.old).is_steady)
        → LeavesOnly (D.state disk.old) (D.state disk.new) (λ left.
        ChangesWithin (IsInRange low high) (D.state disk.old).image left
        ⊎ ChangesWithin (λ i. i ≡ 0) (slice_set (D.state disk.old).image gate unmarked) left) }
    ensures picked { OnOk result ((D.state disk.old).is_honest → (D.state disk.old).is_steady
        → IsSyncedAt (slice_set (slice_set (D.state disk.old).image gate unmarked) 0 pick.now)
        (D.state disk.new)) }
    ensures fails { OnErr result ((low high : ℕ) → low ≤ gate → gate < high
        → LooseWithin (IsInRange low high) (D.state disk.old)
        → (D.state disk.old).is_honest → (D.state disk.old).is_inert → (D.state disk.old).is_steady
        → IsFailedSwitch low high gate pick.now (D.state disk.old) (D.state disk.new)) }
{
    put_sector(disk, gate, &[0; 512])?;
    put_sector(disk, 0, pick)
}

/// Writes a register's checkpoint into the half that begins at this sector, picks that half, and
/// answers where its closing gate stands.
pub fn write_checkpoint<D: Disk>(
    disk: &mut D,
    register: &Register,
    start: u32,
    pick: &[u8; 512],
) -> Result<u32, DiskFault>
    requires first { 2 ≤ start }
    requires there { start + LEAST_HALF ≤ (D.state disk.old).size }
    requires fits { start + LEAST_HALF < 2 ^ 32 }
    ensures performs { Performs result
        (checkpoint_calls start pick.now (checkpoint_of (base_records register.now)))
        (sectors_for (length (base_records register.now)) + 4)
        (sectors_for (length (base_records register.now)) + 2) (D.state disk.old)
        (D.state disk.new) }
    ensures gate { IfOk result (λ gate.
        (gate ≡ start + sectors_for (length (base_records register.now))) × (gate < start + LEAST_HALF)) }
    ensures any_moment { (end : ℕ) → start + LEAST_HALF ≤ end → end ≤ (D.state disk.old).size
        → ((D.state disk.old).is_honest → IsSynced (D.state disk.old))
        → LeavesOnly (D.state disk.old) (D.state disk.new) (λ left.
        ChangesWithin (IsInRange start (start + LEAST_HALF)) (D.state disk.old).image left
        ⊎ HasWritten start end (checkpoint_of (base_records register.now))
        (D.state disk.old).image left) }
    ensures synced { OnOk result ((D.state disk.old).is_honest → IsSynced (D.state disk.old)
        → IsSynced (D.state disk.new)) }
    ensures picked { OnOk result ((D.state disk.old).is_honest → IsSynced (D.state disk.old)
        → sector_at (D.state disk.new).image 0 ≡ pick.now) }
    ensures written { OnOk result ((end : ℕ) → start + LEAST_HALF ≤ end → end ≤ (D.state disk.old).size
        → (D.state disk.old).is_honest → IsSynced (D.state disk.old)
        → HasWritten start end (checkpoint_of (base_records register.now)) (D.state disk.old).image
        (D.state disk.new).image) }
    ensures fails { OnErr result ((end : ℕ) → start + LEAST_HALF ≤ end → end ≤ (D.state disk.old).size
        → (D.state disk.old).is_honest → (D.state disk.old).is_inert → IsSynced (D.state disk.old)
        → IsFailedWriting start end (checkpoint_of (base_records register.now))
        (sectors_for (length (base_records register.now))) pick.now (D.state disk.old)
        (D.state disk.new)) }
{
    let gate = write_batches(disk, register, start)?;
    switch_half(disk, gate, pick)?;
    Ok(gate)
}
