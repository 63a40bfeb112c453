//! Two kiosks at one desk, each on a thread of its own, while a third turns the clerk, or two run
//! both of its parts.
ghost use Rattle.std.specs.Prelude.{◌≡◌};
ghost use Rattle.lift_desk.specs.Seats.{AreSeatsOf, IsClerkOf, IsSeatOf, OwesNothing};
ghost use Rattle.lift_desk.specs.Seats.{clerk_of as new_seats};

use crate::device::Device;
use crate::gate::Below;
use crate::groups::{call, formatted, group, number, place};
use crate::relays::Relay;
use crate::terminals::{Terminals, Who, clerk_of, open};
use lift_base::{Body, Dir, Reply};
use lift_building::Building;
use lift_clerk::Clerk;
use lift_desk::{ClerkSeat, Desk, DeskParts, Seat};
use lift_disk::Disk;
use lift_policy::{Etd, Policy};
use lift_relay::Gate;
use std::alloc::Global;
use std::process::Abort;
use std::sync::Wait;
use std::thread;
use std::thread::Threads;

/// The looks of a kiosk, and the turns of the clerk.
const LIMIT: u32 = 20_000_000;

/// A kiosk's seat, and whether it heard a letter.
type Called = (Seat, bool);

/// A kiosk's first call, and whether it is answered with a letter.
fn call_once(desk: &Desk, mut seat: Seat, body: Body, gate: &Below) -> Called
    requires { IsSeatOf desk.now seat }
    ensures { IsSeatOf desk.now result.0 }
{
    let _stored = desk.ask(&mut seat, number(1), body);
    let has_letter = hears_letter(desk, &mut seat);
    gate.add(1);
    (seat, has_letter)
}

/// Looks for an answer, at most so often. Whether it is a letter.
fn hears_letter(desk: &Desk, seat: &mut Seat) -> bool
    requires { IsSeatOf desk.now seat.old }
    ensures { IsSeatOf desk.now seat.new }
{
    for _ in 0..LIMIT {
        match desk.hear(seat) {
            Some(Reply::Car(_)) => return true,
            Some(_) => return false,
            None => thread::yield_now(),
        }
    }
    false
}

/// Both kiosks, each on a thread of its own.
fn both_call<R: Threads + Sync>(
    rt: &R,
    desk: &Desk,
    first: Seat,
    second: Seat,
    gate: &Below,
) -> (Called, Called)
    requires { IsSeatOf desk.now first × IsSeatOf desk.now second }
    ensures { IsSeatOf desk.now result.0.0 × IsSeatOf desk.now result.1.0 }
{
    let (five, two) = (call(5), call(2));
    thread::join(
        rt,
        move || -> Called
            requires { IsSeatOf desk.now first }
            ensures { IsSeatOf desk.entry.now result.0 }
        { call_once(desk, first, five, gate) },
        move || -> Called
            requires { IsSeatOf desk.now second }
            ensures { IsSeatOf desk.entry.now result.0 }
        { call_once(desk, second, two, gate) },
    )
}

/// Turns until both kiosks have ended.
fn turns<'d, 'b, D: Disk, P: Policy + Drop>(
    clerk: Clerk<'d, 'b, D, P>,
    gate: &Below,
) -> Clerk<'d, 'b, D, P>
    ensures { result.desk ≡ clerk.entry.desk }
{
    let mut clerk = clerk;
    for _ in 0..LIMIT {
        if !gate.go_on() {
            break;
        }
        let _counts = clerk.turn();
        thread::yield_now();
    }
    clerk
}

/// Turns, or runs both parts, until both kiosks have ended. The gate sees a fault.
fn serves<'d, 'b, R, D, P>(
    rt: &R,
    alloc: Global,
    clerk: Clerk<'d, 'b, D, P>,
    gate: &Below,
    by_parts: bool,
) -> Clerk<'d, 'b, D, P>
where
    R: Threads + Wait + Abort + Sync,
    D: Disk + Drop,
    P: Policy + Drop + Send,
    ensures { result.desk ≡ clerk.entry.desk }
{
    if !by_parts {
        return turns(clerk, gate);
    }
    let mut relay = Relay::of(rt, alloc, clerk);
    if relay.run(rt, gate).is_some() {
        gate.fail();
    }
    relay.joined(rt)
}

/// It serves beside both kiosks.
fn serves_beside<'d, 'b, R, D, P>(
    rt: &R,
    alloc: Global,
    desk: &Desk,
    first: Seat,
    second: Seat,
    clerk: Clerk<'d, 'b, D, P>,
    gate: &Below,
    by_parts: bool,
) -> ((Called, Called), Clerk<'d, 'b, D, P>)
where
    R: Threads + Wait + Abort + Sync,
    D: Disk + Drop,
    P: Policy + Drop + Send,
    requires { IsSeatOf desk.now first × IsSeatOf desk.now second }
    ensures seats { IsSeatOf desk.now result.0.0.0 × IsSeatOf desk.now result.0.1.0 }
    ensures clerk { result.1.desk ≡ clerk.entry.desk }
{
    thread::join(
        rt,
        move || -> (Called, Called)
            requires { IsSeatOf desk.now first × IsSeatOf desk.now second }
            ensures { IsSeatOf desk.entry.now result.0.0 × IsSeatOf desk.entry.now result.1.0 }
        { both_call(rt, desk, first, second, gate) },
        move || -> Clerk<D, P>
            ensures { result.desk ≡ clerk.entry.desk }
        { serves(rt, alloc, clerk, gate, by_parts) },
    )
}

/// Whether both kiosks heard a letter, and each heard the last answer that the clerk stored there.
fn both_meet(desk: &Desk, kiosks: (Called, Called), clerk: Clerk<Device, Etd>) -> bool
    requires seats { IsSeatOf desk.now kiosks.0.0 × IsSeatOf desk.now kiosks.1.0 }
    requires clerk { clerk.desk ≡ desk.now }
{
    let ((mut first, is_first), (mut second, is_second)) = kiosks;
    let (mut seat, keeper, _policy) = clerk.into_parts();
    let _device = keeper.into_disk();
    let do_meet = desk.meet(&mut first, &mut seat) & desk.meet(&mut second, &mut seat);
    is_first & is_second & do_meet
}

/// A clerk to whom both cars have reported where they stand.
fn placed<'d, 'b>(
    clerk: Clerk<'d, 'b, Device, Etd>,
    terminals: &mut Terminals,
) -> Clerk<'d, 'b, Device, Etd>
    ensures clerk { result.desk ≡ clerk.entry.desk }
    ensures terminals { terminals.new.desk.now ≡ terminals.old.desk.now }
{
    let mut clerk = clerk;
    let _stored = terminals.ask(Who::CarA, 0, place(0, Dir::Up));
    let _stored = terminals.ask(Who::CarB, 0, place(9, Dir::Down));
    let _placed = clerk.turn();
    clerk
}

/// Whether both kiosks meet a clerk to whom both cars have reported where they stand.
fn meet_at<R: Threads + Wait + Abort + Sync>(
    rt: &R,
    alloc: Global,
    desk: &Desk,
    seats: Vec<Seat>,
    seat: ClerkSeat,
    building: &Building,
    by_parts: bool,
) -> bool
    requires seats { AreSeatsOf desk.now seats.items }
    requires clerk { IsClerkOf desk.now seat }
    requires owes { OwesNothing seat }
    requires unused { seat ≡ new_seats desk.now }
{
    let mut terminals = Terminals::of(desk, seats);
    let clerk = clerk_of(rt, desk, seat, formatted(rt, alloc, building), building);
    let clerk = placed(clerk, &mut terminals);
    let first = terminals.take_last(rt);
    let second = terminals.take_last(rt);
    let gate = Below::new(2);
    let (kiosks, clerk) = serves_beside(rt, alloc, desk, first, second, clerk, &gate, by_parts);
    gate.has_seen(0) & both_meet(desk, kiosks, clerk)
}

fn meet<R: Threads + Wait + Abort + Sync>(rt: &R, alloc: Global, by_parts: bool) {
    let building = group(rt, alloc);
    let DeskParts { desk, seats, clerk } = open(rt, alloc);
    assert!(rt; meet_at(rt, alloc, &desk, seats, clerk, &building, by_parts));
}

#[test]
fn kiosks_meet_a_clerk_that_turns(rt: HostRuntime) {
    meet(&rt, rt.alloc(), false);
}

#[test]
fn kiosks_meet_both_parts_that_run(rt: HostRuntime) {
    meet(&rt, rt.alloc(), true);
}
