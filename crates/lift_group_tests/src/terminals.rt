//! A desk of 16 cars and three kiosks, of which five terminals ask.
ghost use Rattle.std.specs.Prelude.{◌≡◌};
ghost use Rattle.lift_desk.specs.Seats.{IsSeatOf, IsClerkOf, AreSeatsOf, OwesNothing};
ghost use Rattle.lift_desk.specs.Seats.{clerk_of as new_seats};

use crate::device::Device;
use crate::groups::number;
use lift_base::{Body, Reply};
use lift_building::Building;
use lift_clerk::{Clerk, Counts, begin_over, turn_shows_letters};
use lift_desk::{ClerkSeat, Desk, DeskParts, Seat};
use lift_keeper::{Keeper, KeeperFault};
use lift_policy::Etd;
use std::alloc::Global;
use std::process::Abort;
use std::thread;

pub(crate) fn open(rt: &impl Abort, alloc: Global) -> DeskParts
    ensures seats { AreSeatsOf result.desk result.seats.items }
    ensures clerk { IsClerkOf result.desk result.clerk }
    ensures owes { OwesNothing result.clerk }
    ensures unused { result.clerk ≡ new_seats result.desk }
{
    Desk::open(alloc, 19).ok().expect(rt, "memory")
}

/// A terminal that asks, by its place among the desk's seats.
#[derive(Clone, Copy)]
pub(crate) enum Who {
    CarA = 0,
    CarB = 1,
    Kiosk0 = 16,
    Kiosk1 = 17,
    Kiosk2 = 18,
}

/// The seats of a desk's terminals.
#[derive(Drop)]
pub struct Terminals<'d> {
    desk: &'d Desk,
    seats: Vec<Seat>,
    ghost at: { AreSeatsOf desk.now seats.items },
}

impl<'d> Terminals<'d> {
    pub(crate) fn of(desk: &'d Desk, seats: Vec<Seat>) -> Self
        requires { AreSeatsOf desk.now seats.items }
        ensures { result.desk.now ≡ desk.now }
    {
        Terminals { desk, seats }
    }

    /// Whether its ask was stored.
    pub(crate) fn ask(&mut self, who: Who, told: u32, body: Body) -> bool
        ensures { self.new.desk.now ≡ self.old.desk.now }
    {
        match self.seats.get_mut(who as usize) {
            Some(seat) => self.desk.ask(seat, number(told), body).is_ok(),
            None => false,
        }
    }

    /// What it hears at one look.
    pub(crate) fn hear(&mut self, who: Who) -> Option<Reply>
        ensures { self.new.desk.now ≡ self.old.desk.now }
    {
        match self.seats.get_mut(who as usize) {
            Some(seat) => self.desk.hear(seat),
            None => None,
        }
    }

    /// Waits for what it hears, for this many looks.
    pub(crate) fn wait_for(&mut self, who: Who, looks: u64) -> Option<Reply> {
        for _ in 0..looks {
            if let Some(reply) = self.hear(who) {
                return Some(reply);
            }
            thread::yield_now();
        }
        None
    }

    /// The last of its seats, which asks no more here.
    pub(crate) fn take_last(&mut self, rt: &impl Abort) -> Seat
        ensures desk { self.new.desk.now ≡ self.old.desk.now }
        ensures seat { IsSeatOf self.new.desk.now result }
    {
        self.seats.pop().expect(rt, "no seat")
    }

    /// The seat of car A.
    pub(crate) fn into_first(self, rt: &impl Abort) -> Seat
        ensures { IsSeatOf self.entry.desk.now result }
    {
        let mut group = self;
        let mut seat = group.take_last(rt);
        for _ in 0..18u8 {
            seat = group.take_last(rt);
        }
        seat
    }
}

/// The clerk of a device that begins as it is.
pub(crate) fn clerk_of<'a>(
    rt: &impl Abort,
    desk: &'a Desk,
    seat: ClerkSeat,
    device: Device,
    building: &'a Building,
) -> Clerk<'a, 'a, Device, Etd>
    requires clerk { IsClerkOf desk.now seat }
    requires owes { OwesNothing seat }
    requires unused { seat ≡ new_seats desk.now }
    ensures desk { result.desk ≡ desk.now }
{
    let keeper = Keeper::open(device, building).ok().expect(rt, "refused");
    begin_over(desk, seat, keeper, Etd)
}

/// A turn of a clerk.
pub(crate) fn turn(clerk: &mut Clerk<Device, Etd>) -> Result<Counts, KeeperFault> {
    turn_shows_letters(clerk)
}
