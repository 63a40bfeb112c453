//! What a clerk does at a new desk, by its turns or by those of both its parts.
use crate::device::{Device, armed_for};
use crate::faults::case::Case;
use crate::faults::images::begin;
use crate::faults::showing::has;
use crate::faults::stops::{arms, flushes, go_on, recovers_here, turns};
use crate::relay::turns::{Drain, comes_through, is_whole, takes};
use crate::relays::Parts;
use crate::tally::Tally;
use crate::terminals::{Terminals, clerk_of, open};
use lift_building::Building;
use lift_clerk::Clerk;
use lift_desk::DeskParts;
use lift_policy::Etd;
use std::alloc::Global;
use std::process::Abort;
use std::sync::Wait;
use std::thread::Threads;

#[derive(Clone, Copy)]
pub(crate) enum Deed<'w> {
    /// This many stops of car A, and kiosk 0's first call.
    Begin(u32),
    /// Work of which a call of the device fails, and the recovery where no power is cut.
    Work(&'w Case<'w>),
    /// What follows the recovery.
    GoOn(&'w Case<'w>),
    /// It shows all of the work.
    Show(&'w Case<'w>),
    /// Batches that wait come through.
    Drain(&'w Drain),
}

/// Both parts do it.
fn by_parts<'a, R: Threads + Wait + Abort + Sync>(
    rt: &R,
    alloc: Global,
    tally: &mut Tally,
    terminals: &mut Terminals,
    clerk: Clerk<'a, 'a, Device, Etd>,
    deed: Deed,
) -> Clerk<'a, 'a, Device, Etd> {
    let mut relay = Parts::of(rt, alloc, clerk);
    match deed {
        Deed::Work(case) => flushes(rt, tally, terminals, &mut relay, case),
        Deed::Drain(drain) => {
            takes(rt, tally, terminals, &mut relay, 0);
            relay = relay.handed_back(rt);
            comes_through(rt, tally, terminals, &mut relay, drain);
        }
        _ => {}
    }
    relay.joined(rt)
}

/// The clerk after it.
fn carried_out<'a, R: Threads + Wait + Abort + Sync>(
    rt: &R,
    alloc: Global,
    tally: &mut Tally,
    terminals: &mut Terminals,
    clerk: Clerk<'a, 'a, Device, Etd>,
    deed: Deed,
) -> Clerk<'a, 'a, Device, Etd> {
    let mut clerk = clerk;
    match deed {
        Deed::Begin(stops) => begin(tally, terminals, &mut clerk, stops),
        Deed::Work(case) => {
            arms(tally, terminals, &mut clerk, case);
            if case.by_parts {
                clerk = by_parts(rt, alloc, tally, terminals, clerk, deed);
            } else {
                turns(tally, terminals, &mut clerk, case);
            }
            recovers_here(tally, terminals, &mut clerk, case);
        }
        Deed::GoOn(case) => go_on(tally, terminals, &mut clerk, case),
        Deed::Show(case) => {
            tally.want(has(clerk.keeper().register(), case.work, case.work.batches));
        }
        Deed::Drain(drain) => {
            clerk.arm(armed_for(drain.failing_call, true));
            clerk = by_parts(rt, alloc, tally, terminals, clerk, deed);
            is_whole(tally, &mut clerk, drain);
        }
    }
    clerk
}

/// A new desk over a device, and what is left of that when it is done.
pub(crate) fn at_desk<R: Threads + Wait + Abort + Sync>(
    rt: &R,
    alloc: Global,
    tally: &mut Tally,
    device: Device,
    building: &Building,
    deed: Deed,
) -> Device {
    let DeskParts { desk, seats, clerk } = open(rt, alloc);
    let mut terminals = Terminals::of(&desk, seats);
    let clerk = clerk_of(rt, &desk, clerk, device, building);
    let clerk = carried_out(rt, alloc, tally, &mut terminals, clerk, deed);
    clerk.into_parts().1.into_disk()
}
