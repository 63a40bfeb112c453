//! The journal's reads: they write nothing and stop at the first call that fails.
ghost use Rattle.std.specs.Prelude.{◌≡◌, ◌≤◌, ◌<◌, ◌+◌, ◌-◌, ◌++◌, if◌then◌else◌, length, take};
ghost use Rattle.std.specs.Prelude.{◌≢◌, OnOk, OnErr, IfOk, true, false};
ghost use Rattle.lift_disk.specs.Disk.{IsSynced};
ghost use Rattle.lift_record.specs.Header.{IsHeaderSpelling};
ghost use Rattle.lift_journal.specs.Layout.{sector_at, is_marked, body_size, Batch as BatchValue, size_of};
ghost use Rattle.lift_journal.specs.Walk.{IsBatchAt};
ghost use Rattle.lift_disk.specs.Trace.{Records};
ghost use Rattle.lift_disk.specs.Trace.Access.{Sync};
ghost use Rattle.lift_journal.specs.Calls.{HasRead, HasReadAt, reads_from};
ghost use Rattle.lift_journal.specs.Steps.{Looks};
ghost use Rattle.lift_journal.specs.Seen.{ShowsBody, ShowsAt, FitsBelow, zeros};

use crate::batch::Stored;
use crate::body::body_count;
use crate::parse::{header_of, parse};
use lift_disk::{Disk, DiskFault};
use lift_record::Header;

/// What stands at a gate.
#[derive(Drop)]
pub enum AtGate {
    Closed,
    Batch,
    /// The gate is open, and no batch of this number stands after it.
    Damaged,
}

/// Begins an opening: from here on a crash leaves what is read.
pub fn sync_device<D: Disk>(disk: &mut D) -> Result<(), DiskFault>
    ensures looks { Looks result (D.state disk.old) (D.state disk.new) }
    ensures synced { OnOk result ((D.state disk.old).is_honest → IsSynced (D.state disk.new)) }
    ensures recorded { Records result Sync (D.state disk.old).trace (D.state disk.new).trace }
{
    disk.sync()
}

/// Reads a sector of a synced device.
pub fn read_sector<D: Disk>(
    disk: &mut D,
    sector: u32,
    buffer: &mut [u8; 512],
) -> Result<(), DiskFault>
    requires { sector < (D.state disk.old).size }
    ensures looks { Looks result (D.state disk.old) (D.state disk.new) }
    ensures length { length buffer.new ≡ 512 }
    ensures gives { OnOk result ((D.state disk.old).is_honest → IsSynced (D.state disk.old)
        → sector_at (D.state disk.old).image sector ≡ buffer.new) }
    ensures read { OnOk result ((D.state disk.new).trace ≡ (D.state disk.old).trace
        ++ reads_from sector 1) }
    ensures unread { OnErr result ((D.state disk.new).trace ≡ (D.state disk.old).trace) }
{
    disk.read(sector, buffer)
}

/// Reads a sector if it is wanted; else zeros stand for it.
fn read_second<D: Disk>(
    disk: &mut D,
    sector: u32,
    is_wanted: bool,
    buffer: &mut [u8; 512],
) -> Result<(), DiskFault>
    requires { is_wanted ≡ true → sector < (D.state disk.old).size }
    ensures looks { Looks result (D.state disk.old) (D.state disk.new) }
    ensures length { length buffer.new ≡ 512 }
    ensures gives { OnOk result (is_wanted ≡ true → (D.state disk.old).is_honest
        → IsSynced (D.state disk.old)
        → sector_at (D.state disk.old).image sector ≡ buffer.new) }
    ensures blank { OnOk result (is_wanted ≡ false → buffer.new ≡ zeros) }
    ensures read { OnOk result ((D.state disk.new).trace ≡ (D.state disk.old).trace
        ++ reads_from sector (if is_wanted then 1 else 0)) }
    ensures unread { OnErr result ((D.state disk.new).trace ≡ (D.state disk.old).trace) }
    ensures wanted { OnErr result (is_wanted ≡ true) }
{
    if !is_wanted {
        *buffer = [0; 512];
        return Ok(());
    }
    read_sector(disk, sector, buffer)
}

/// What stands at an open gate, after which this header is read: the second body sector is read,
/// if it has one. A batch is left in `stored`.
fn read_rest<D: Disk>(
    disk: &mut D,
    gate: u32,
    end: u32,
    header: Header,
    stored: &mut Stored,
) -> Result<AtGate, DiskFault>
    requires below { gate + 2 < end }
    requires inside { end ≤ (D.state disk.old).size }
    requires header { IsHeaderSpelling (take 16 (sector_at stored.old.body 0)) header }
    requires whole { length (sector_at stored.old.body 0) ≡ 512 }
    ensures looks { Looks result (D.state disk.old) (D.state disk.new) }
    ensures unclosed { IfOk result (λ at. at ≢ AtGate.Closed) }
    ensures fits { IfOk result (λ at. at ≡ AtGate.Batch → FitsBelow gate end stored.new) }
    ensures seen { IfOk result (λ at. (D.state disk.old).is_honest → IsSynced (D.state disk.old)
        → sector_at (D.state disk.old).image (gate + 1) ≡ sector_at stored.old.body 0
        → ShowsBody (D.state disk.old).image gate end header.number at stored.new) }
    ensures row { OnOk result (HasRead (gate + 2) 1 end (D.state disk.old) (D.state disk.new)) }
    ensures unread { OnErr result (HasRead (gate + 2) 0 end (D.state disk.old) (D.state disk.new)) }
    ensures unfinished { OnErr result ((D.state disk.old).is_honest → IsSynced (D.state disk.old)
        → sector_at (D.state disk.old).image (gate + 1) ≡ sector_at stored.old.body 0
        → (batch : BatchValue)
        → IsBatchAt (D.state disk.old).image gate end header.number batch → size_of batch ≡ 2) }
    ensures whole { IfOk result (λ at. at ≡ AtGate.Batch
        → (D.state disk.new).trace ≡ (D.state disk.old).trace
        ++ reads_from (gate + 2) (body_size (length stored.new.records.items) - 1)) }
{
    let count = header.count as usize;
    let bodies = body_count(count) as u32;
    if bodies >= end - gate - 1 {
        return Ok(AtGate::Damaged);
    }
    read_second(disk, gate + 2, bodies == 2, &mut stored.body[1])?;
    stored.version = header.version;
    let text = stored.body.as_flattened();
    if !parse(header.version, text, count, &mut stored.records) {
        return Ok(AtGate::Damaged);
    }
    Ok(AtGate::Batch)
}

/// What stands at an open gate: the batch of this number, if one is there whose next gate stands
/// below the end. A batch is left in `stored`.
fn read_body<D: Disk>(
    disk: &mut D,
    gate: u32,
    end: u32,
    number: u32,
    stored: &mut Stored,
) -> Result<AtGate, DiskFault>
    requires below { gate < end }
    requires inside { end ≤ (D.state disk.old).size }
    requires numbered { 1 ≤ number }
    ensures looks { Looks result (D.state disk.old) (D.state disk.new) }
    ensures unclosed { IfOk result (λ at. at ≢ AtGate.Closed) }
    ensures fits { IfOk result (λ at. at ≡ AtGate.Batch → FitsBelow gate end stored.new) }
    ensures seen { IfOk result (λ at. (D.state disk.old).is_honest → IsSynced (D.state disk.old)
        → ShowsBody (D.state disk.old).image gate end number at stored.new) }
    ensures row { OnOk result (HasRead (gate + 1) 2 end (D.state disk.old) (D.state disk.new)) }
    ensures unread { OnErr result (HasRead (gate + 1) 1 end (D.state disk.old) (D.state disk.new)) }
    ensures unfinished { OnErr result ((D.state disk.old).is_honest → IsSynced (D.state disk.old)
        → (batch : BatchValue) → IsBatchAt (D.state disk.old).image gate end number batch
        → HasRead (gate + 1) (size_of batch - 1) end (D.state disk.old) (D.state disk.new)) }
    ensures whole { IfOk result (λ at. at ≡ AtGate.Batch
        → (D.state disk.new).trace ≡ (D.state disk.old).trace
        ++ reads_from (gate + 1) (body_size (length stored.new.records.items))) }
{
    if end - gate <= 2 {
        return Ok(AtGate::Damaged);
    }
    read_sector(disk, gate + 1, &mut stored.body[0])?;
    match header_of(&stored.body[0], number) {
        Some(header) => read_rest(disk, gate, end, header, stored),
        None => Ok(AtGate::Damaged),
    }
}

fn has_mark(sector: &[u8; 512]) -> bool
    ensures { result ≡ is_marked sector.now }
{
    sector[0] == 0xA5
}

/// Whether the sector is marked, as an open gate and the pick of the second half are.
pub fn read_mark<D: Disk>(disk: &mut D, sector: u32) -> Result<bool, DiskFault>
    requires { sector < (D.state disk.old).size }
    ensures looks { Looks result (D.state disk.old) (D.state disk.new) }
    ensures gives { IfOk result (λ marked. (D.state disk.old).is_honest
        → IsSynced (D.state disk.old)
        → is_marked (sector_at (D.state disk.old).image sector) ≡ marked) }
    ensures read { OnOk result ((D.state disk.new).trace ≡ (D.state disk.old).trace
        ++ reads_from sector 1) }
    ensures unread { OnErr result ((D.state disk.new).trace ≡ (D.state disk.old).trace) }
{
    let mut buffer = [0; 512];
    disk.read(sector, &mut buffer)?;
    Ok(has_mark(&buffer))
}

/// What stands at this gate, by at most three reads. A batch is left in `stored`.
pub fn look<D: Disk>(
    disk: &mut D,
    gate: u32,
    end: u32,
    number: u32,
    stored: &mut Stored,
) -> Result<AtGate, DiskFault>
    requires below { gate < end }
    requires inside { end ≤ (D.state disk.old).size }
    requires numbered { 1 ≤ number }
    ensures looks { Looks result (D.state disk.old) (D.state disk.new) }
    ensures fits { IfOk result (λ at. at ≡ AtGate.Batch → FitsBelow gate end stored.new) }
    ensures seen { IfOk result (λ at. (D.state disk.old).is_honest → IsSynced (D.state disk.old)
        → ShowsAt (D.state disk.old).image gate end number at stored.new) }
    ensures damaged { IfOk result (λ at. at ≡ AtGate.Damaged
        → HasReadAt gate end (D.state disk.old) (D.state disk.new)) }
    ensures unread { OnErr result (HasRead gate 2 end (D.state disk.old) (D.state disk.new)) }
    // not all sectors of a batch
    ensures unfinished { OnErr result ((D.state disk.old).is_honest → IsSynced (D.state disk.old)
        → (batch : BatchValue) → IsBatchAt (D.state disk.old).image gate end number batch
        → HasRead gate (size_of batch) end (D.state disk.old) (D.state disk.new)) }
    ensures whole { IfOk result (λ at. at ≡ AtGate.Batch
        → (D.state disk.new).trace ≡ (D.state disk.old).trace
        ++ reads_from gate (1 + body_size (length stored.new.records.items))) }
    ensures closed { IfOk result (λ at. at ≡ AtGate.Closed
        → (D.state disk.new).trace ≡ (D.state disk.old).trace ++ reads_from gate 1) }
{
    read_sector(disk, gate, &mut stored.body[0])?;
    if !has_mark(&stored.body[0]) {
        return Ok(AtGate::Closed);
    }
    read_body(disk, gate, end, number, stored)
}
