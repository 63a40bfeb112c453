//! Images that work begins over, and those that it leaves.
use crate::deeds::{Deed, at_desk};
use crate::device::Device;
use crate::faults::asking::{asks, calls_first, stand, stop};
use crate::faults::case::Work;
use crate::groups::{blank, formatted};
use crate::tally::Tally;
use crate::terminals::{Terminals, Who};
use lift_base::Reply;
use lift_building::Building;
use lift_clerk::Clerk;
use lift_disk::{Disk, MemDisk};
use lift_policy::Etd;
use std::alloc::Global;
use std::process::Abort;
use std::sync::Wait;
use std::thread::Threads;

/// Makes a batch of one stop or one call one of version 1: the version is the third byte of its
/// header, and the sixth one of a record, a call's party, is 0.
fn makes_old(disk: &mut MemDisk, sector: u32) -> bool {
    let mut bytes = [0; 512];
    if sector >= disk.sectors() || disk.read(sector, &mut bytes).is_err() || bytes[2] != 2 {
        return false;
    }
    bytes[2] = 1;
    bytes[21] = 0;
    disk.write(sector, &bytes).is_ok()
}

/// This many stops of car A, and kiosk 0's first call, each in a batch of its own: the letter was
/// heard.
pub(crate) fn begin(
    tally: &mut Tally,
    group: &mut Terminals,
    clerk: &mut Clerk<Device, Etd>,
    stops: u32,
) {
    for told in 0..stops {
        let ask = (Who::CarA, told.wrapping_add(1), stop());
        asks(tally, group, clerk, ask, &Some(Reply::Stopped(None)));
    }
    let placed = Some(Reply::Placed(None));
    asks(tally, group, clerk, (Who::CarA, 0, stand()), &placed);
    calls_first(tally, group, clerk);
}

/// The device that this work begins over, after its stops and the call.
pub(crate) fn image_of<R: Threads + Wait + Abort + Sync>(
    rt: &R,
    alloc: Global,
    tally: &mut Tally,
    building: &Building,
    work: &Work,
) -> MemDisk {
    let device = formatted(rt, alloc, building);
    let mut disk = at_desk(
        rt,
        alloc,
        tally,
        device,
        building,
        Deed::Begin(work.stops),
    ).into_inner();
    if work.is_old {
        for batch in 0..31u32 {
            tally.want(makes_old(&mut disk, 2 * batch + 3));
        }
    }
    disk
}

fn copy_sector(image: &mut MemDisk, disk: &mut MemDisk, sector: u32) {
    let mut bytes = [0; 512];
    if sector < image.sectors() && sector < disk.sectors() {
        let _read = image.read(sector, &mut bytes);
        let _written = disk.write(sector, &bytes);
    }
}

/// A device with the same sectors, all of them on the disk.
pub(crate) fn copy(rt: &impl Abort, alloc: Global, image: &mut MemDisk) -> Device {
    let mut disk = blank(rt, alloc);
    for sector in 0..130u32 {
        copy_sector(image, &mut disk, sector);
    }
    let _synced = disk.sync();
    Device::new(disk)
}

/// A sector's first three bytes, where it is read.
fn head(disk: &mut MemDisk, sector: u32) -> [u8; 3] {
    let mut bytes = [0; 512];
    if sector >= disk.sectors() || disk.read(sector, &mut bytes).is_err() {
        return [0; 3];
    }
    [bytes[0], bytes[1], bytes[2]]
}

/// Whether the second half is picked, and has so many batches, at most three, all of version 2.
pub(crate) fn is_new(disk: &mut MemDisk, batches: u32) -> bool {
    let mut is_new = head(disk, 0)[0] == 0xA5;
    for batch in 0..4u32 {
        let is_open = head(disk, 2 * batch + 66)[0] == 0xA5;
        is_new = is_new && is_open == (batch < batches);
        is_new = is_new && (!is_open || head(disk, 2 * batch + 67) == [0x4C, 0x42, 2]);
    }
    is_new
}
