//! Work that is stopped, by a clerk's turns and by those of its two parts, and the recoveries after
//! it: by reopening at the same desk, or after a power cut at a new one.
use crate::deeds::{Deed, at_desk};
use crate::device::{Device, NEVER, armed_for, cut};
use crate::faults::asking::{ask, ask_again, calls_first, commands_of, hear, stands};
use crate::faults::case::{APPENDED, CHECKPOINTED, Case, MOVED, Way, Work, counts};
use crate::faults::images::{copy, image_of, is_new};
use crate::faults::showing::shows;
use crate::groups::group;
use crate::relay::turns::allocates;
use crate::relays::Parts;
use crate::tally::Tally;
use crate::terminals::{Terminals, turn};
use lift_building::Building;
use lift_clerk::{Clerk, Counts, reopening_shows_letters};
use lift_disk::{Arm, Outcome};
use lift_keeper::{Keeper, KeeperFault};
use lift_policy::Etd;
use std::alloc::Global;
use std::process::Abort;
use std::sync::Wait;
use std::thread::Threads;

/// Car A tells where it is, kiosk 0 is told its letter again, and the device is armed.
pub(crate) fn arms(
    tally: &mut Tally,
    group: &mut Terminals,
    clerk: &mut Clerk<Device, Etd>,
    case: &Case,
) {
    stands(tally, group, clerk);
    calls_first(tally, group, clerk);
    clerk.arm(armed_for(case.failing, case.is_once));
}

/// A turn of the clerk, and what it comes to.
fn turns_to(
    tally: &mut Tally,
    clerk: &mut Clerk<Device, Etd>,
    wanted: Result<Counts, KeeperFault>,
) {
    tally.want(turn(clerk) == wanted);
}

/// The clerk's turns, one for each batch.
pub(crate) fn turns(
    tally: &mut Tally,
    group: &mut Terminals,
    clerk: &mut Clerk<Device, Etd>,
    case: &Case,
) {
    for batch in 0..case.work.batches {
        tally.want(ask(group, batch, case.work.stops));
        turns_to(tally, clerk, case.comes_to(batch, commands_of(batch)));
        hear(tally, group, case, batch);
    }
}

/// What a turn of the flusher comes to, as one of a clerk would.
fn flush<R: Wait>(rt: &R, parts: &mut Parts) -> Result<Counts, KeeperFault> {
    match parts.flush(rt) {
        Ok(flushed) if flushed.batches == 1 => Ok(counts(flushed.answers)),
        Ok(_) => Ok(counts(0)),
        Err(fault) => Err(fault),
    }
}

/// All batches are sent, and then flushed and answered as far as the device lets them be.
pub(crate) fn flushes<R: Wait>(
    rt: &R,
    tally: &mut Tally,
    group: &mut Terminals,
    parts: &mut Parts,
    case: &Case,
) {
    for batch in 0..case.work.batches {
        tally.want(ask(group, batch, case.work.stops));
        let taken = commands_of(batch);
        allocates(rt, tally, parts, taken, taken);
    }
    for batch in 0..case.work.batches {
        tally.want(flush(rt, parts) == case.comes_to(batch, commands_of(batch)));
        hear(tally, group, case, batch);
    }
}

/// A reopening whose device is armed with this many calls, and what it comes to.
pub(crate) fn reopens_to(
    tally: &mut Tally,
    clerk: &mut Clerk<Device, Etd>,
    armed: u32,
    wanted: Result<(), KeeperFault>,
) {
    clerk.arm(armed);
    tally.want(reopening_shows_letters(clerk) == wanted);
}

/// Just what is in is there, and is answered again, and so is the letter that was heard before; what
/// isn't in is answered once car A has reported where it is.
pub(crate) fn go_on(
    tally: &mut Tally,
    group: &mut Terminals,
    clerk: &mut Clerk<Device, Etd>,
    case: &Case,
) {
    tally.want(shows(clerk, case));
    if case.batches_in() < 2 {
        calls_first(tally, group, clerk);
    }
    ask_again(tally, group, clerk, case, false);
    stands(tally, group, clerk);
    ask_again(tally, group, clerk, case, true);
    tally.want(!clerk.short());
}

/// The recovery is begun again where the device failed it, which left the clerk broken; the same
/// terminals go on.
fn goes_on_here(
    tally: &mut Tally,
    group: &mut Terminals,
    clerk: &mut Clerk<Device, Etd>,
    case: &Case,
) {
    tally.want(clerk.keeper().is_broken() == case.recovers().is_err());
    turns_to(tally, clerk, case.rests());
    reopens_to(tally, clerk, NEVER, Ok(()));
    turns_to(tally, clerk, Ok(counts(0)));
    go_on(tally, group, clerk, case);
}

/// One turn more, and, unless the power is cut, the recovery. It goes on here where no power is cut
/// after it either.
pub(crate) fn recovers_here(
    tally: &mut Tally,
    group: &mut Terminals,
    clerk: &mut Clerk<Device, Etd>,
    case: &Case,
) {
    turns_to(tally, clerk, case.comes_to(case.work.batches, 0));
    if case.cut.is_some() {
        return;
    }
    let armed = armed_for(case.recovery, case.is_once);
    reopens_to(tally, clerk, armed, case.recovers());
    if case.cut_again.is_none() {
        goes_on_here(tally, group, clerk, case);
    }
}

/// An opening whose device fails this call first: the device, and the fault if there is one.
fn open_failing(
    device: Device,
    armed: u32,
    building: &Building,
) -> (Device, Result<(), KeeperFault>) {
    let mut device = device;
    device.arm(armed);
    match Keeper::open(device, building) {
        Ok(keeper) => (keeper.into_disk(), Ok(())),
        Err((device, fault)) => (device, Err(fault)),
    }
}

/// The recovery after a power cut.
fn recovered(tally: &mut Tally, device: Device, building: &Building, case: &Case) -> Device {
    let armed = armed_for(case.recovery, case.is_once);
    let (device, answer) = open_failing(device, armed, building);
    tally.want(answer == case.recovers());
    device
}

/// A clerk at a new desk works over this device, of which one of the calls fails, the recovery's
/// too, and then none. What the device has then.
fn device_after<R: Threads + Wait + Abort + Sync>(
    rt: &R,
    alloc: Global,
    tally: &mut Tally,
    device: Device,
    building: &Building,
    case: &Case,
) -> Device {
    let mut device = at_desk(rt, alloc, tally, device, building, Deed::Work(case));
    if case.cut.is_none() && case.cut_again.is_none() {
        return device;
    }
    if case.cut.is_some() {
        device = recovered(tally, cut(device, case.cut), building, case);
    }
    let device = cut(device, case.cut_again);
    at_desk(rt, alloc, tally, device, building, Deed::GoOn(case))
}

/// All of the work is there after another power cut, and all batches are of version 2 where the
/// checkpoint moved them.
fn ends<R: Threads + Wait + Abort + Sync>(
    rt: &R,
    alloc: Global,
    tally: &mut Tally,
    device: Device,
    building: &Building,
    case: &Case,
) {
    let device = cut(device, Some(Outcome::Lose));
    let device = at_desk(rt, alloc, tally, device, building, Deed::Show(case));
    if case.work.is_old {
        let batches = if case.batches_in() > 0 { 2 } else { 3 };
        tally.want(is_new(&mut device.into_inner(), batches));
    }
}

/// Each call of the work fails in turn, and none where it is one after the last; after it each call
/// of the recovery, and none where it is one after the last. Loose sectors end in each way.
fn stop_each<R: Threads + Wait + Abort + Sync>(rt: &R, alloc: Global, tally: &mut Tally, way: Way) {
    let building = group(rt, alloc);
    let mut image = image_of(rt, alloc, tally, &building, way.work);
    for place in 0..way.work.places() {
        for again in 0..Case::at(way, place, 0).calls_of_opening().saturating_add(6) {
            let case = Case::at(way, place, again);
            let device = copy(rt, alloc, &mut image);
            let device = device_after(rt, alloc, tally, device, &building, &case);
            ends(rt, alloc, tally, device, &building, &case);
        }
    }
}

/// All of this work on both devices, and what its answers came to.
fn stop_all<R: Threads + Wait + Abort + Sync>(
    rt: &R,
    alloc: Global,
    work: &Work,
    by_parts: bool,
    answers: u32,
) {
    let mut tally = Tally::new();
    for is_once in 0..2u8 {
        let way = Way {
            work,
            by_parts,
            is_once: is_once == 1,
        };
        stop_each(rt, alloc, &mut tally, way);
    }
    tally.ends(rt, answers);
}

#[test]
fn turns_stop(rt: HostRuntime) {
    stop_all(&rt, rt.alloc(), &APPENDED, false, 74_212);
    stop_all(&rt, rt.alloc(), &CHECKPOINTED, false, 96_008);
}

#[test]
fn turns_of_both_parts_stop(rt: HostRuntime) {
    stop_all(&rt, rt.alloc(), &APPENDED, true, 82_564);
    stop_all(&rt, rt.alloc(), &CHECKPOINTED, true, 101_616);
}

#[test]
fn old_journals_stop(rt: HostRuntime) {
    stop_all(&rt, rt.alloc(), &MOVED, false, 101_678);
}
