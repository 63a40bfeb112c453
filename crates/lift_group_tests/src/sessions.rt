//! A session and a drive of terminals whose clerk turns while they wait.
ghost use Rattle.std.specs.Prelude.{◌≡◌};
ghost use Rattle.lift_desk.specs.Seats.{AreSeatsOf, IsClerkOf, OwesNothing};
ghost use Rattle.lift_desk.specs.Seats.{clerk_of as new_seats};

use crate::device::Device;
use crate::groups::{call, floor, formatted, group, letter, number, place};
use crate::terminals::{Terminals, Who, clerk_of, open};
use lift_base::text::{Counted, Watched};
use lift_base::{Body, Dir, Letter, Number, Position, Reply, Stop};
use lift_building::Building;
use lift_car::{Car, DriveEnd, Ending, Halts, ModelCar, drive};
use lift_clerk::Clerk;
use lift_desk::{AskRefusal, ClerkSeat, Desk, DeskParts, Seat};
use lift_kiosk::{DeskPort, End, LastLetter, Limits, Port, SessionEnd, Yield, session};
use lift_policy::Etd;
use std::alloc::Global;
use std::process::Abort;

/// A terminal's port whose clerk turns when it rests.
#[derive(Drop)]
pub struct Turned<'d, 'b> {
    port: DeskPort<'d>,
    clerk: Clerk<'d, 'b, Device, Etd>,
}

impl<'d, 'b> Port for Turned<'d, 'b> {
    ghost use Rattle.lift_kiosk.specs.Desk.{port_view, place_of};

    ghost view = { λ t. port_view t.port.seat.view t.port.rests };

    ghost place = { λ t. place_of t.port };

    fn pending(&self) -> Option<Number> {
        self.port.pending()
    }

    fn ask(&mut self, number: Number, body: Body) -> Result<(), AskRefusal> {
        self.port.ask(number, body)
    }

    fn hear(&mut self) -> Option<Reply> {
        self.port.hear()
    }

    fn rest(&mut self) {
        self.port.rest();
        let _turned = self.clerk.turn();
    }
}

fn limits(lines: u32, looks: u32) -> Limits {
    Limits {
        lines,
        looks,
        reads: 1_000,
    }
}

/// How a session of a kiosk over this input ends that may look once for an answer, and whether it
/// wrote this.
fn talk(
    alloc: Global,
    port: &mut DeskPort<'_>,
    input: &[u8],
    last: LastLetter,
    output: &[u8],
) -> (SessionEnd, bool) {
    let mut writer = Watched::new(Vec::new(alloc));
    let mut reader = Counted::new(input);
    let end = session(&mut reader, &mut writer, port, last, limits(100, 1));
    (end, writer.into_inner().as_slice() == output)
}

fn turns(clerk: &mut Clerk<Device, Etd>) -> bool {
    clerk.turn().is_ok()
}

/// Whether there is no answer within the looks, and after a turn the next session greets with it.
fn is_late_and_greeted(
    alloc: Global,
    port: &mut DeskPort<'_>,
    clerk: &mut Clerk<Device, Etd>,
) -> bool {
    let last = LastLetter {
        number: number(0),
        letter: None,
    };
    let (late, is_late) = talk(alloc, port, b"CALL 1 5\n", last, b"READY 0\nLATE\n");
    let has_turned = turns(clerk);
    let (greeted, is_greeted) = talk(alloc, port, b"", late.last, b"READY 1 A\n");
    is_late
        & (late.end == End::Late)
        & has_turned
        & is_greeted
        & (greeted.last.letter == Some(letter(0)))
}

fn is_late_at<R: AllocGlobal + Abort>(
    rt: &R,
    desk: &Desk,
    seats: Vec<Seat>,
    seat: ClerkSeat,
    building: &Building,
) -> bool
    requires seats { AreSeatsOf desk.now seats.items }
    requires clerk { IsClerkOf desk.now seat }
    requires owes { OwesNothing seat }
    requires unused { seat ≡ new_seats desk.now }
{
    let mut group = Terminals::of(desk, seats);
    let device = formatted(rt, rt.alloc(), building);
    let mut clerk = clerk_of(rt, desk, seat, device, building);
    let is_placed = group.ask(Who::CarA, 0, place(0, Dir::Up)) & turns(&mut clerk);
    let mut port = DeskPort::new(desk, group.take_last(rt), Yield);
    is_placed & is_late_and_greeted(rt.alloc(), &mut port, &mut clerk)
}

#[test]
fn a_late_answer_greets(rt: HostRuntime) {
    let building = group(&rt, rt.alloc());
    let DeskParts { desk, seats, clerk } = open(&rt, rt.alloc());
    assert!(rt; is_late_at(&rt, &desk, seats, clerk, &building));
}

/// A model car with the places that it was sent to.
#[derive(Drop)]
struct Recorder {
    car: ModelCar,
    stops: Vec<Position>,
}

impl Car for Recorder {
    ghost use Rattle.lift_car.specs.Model.{position_of_car, IsSentTo};

    ghost stands = { λ r. position_of_car r.car };

    ghost goes = { λ before stop after. IsSentTo before.car stop after.car };

    fn tell(&self) -> Position {
        self.car.tell()
    }

    fn go(&mut self, stop: Stop) {
        self.car.go(stop);
        let _kept = self.stops.push(self.car.tell());
    }
}

impl<P> Halts<P> for Recorder {
    ghost halts = { λ before port after. after ≡ before };

    fn halt(&mut self, _port: &P) {}
}

/// At this floor, going up.
fn up(at: u8) -> Position {
    Position {
        floor: floor(at),
        dir: Dir::Up,
    }
}

/// Both cars are placed, and car A takes a call from floor 0 to floor 5. Whether it does.
fn sends_car_a(group: &mut Terminals, clerk: &mut Clerk<Device, Etd>) -> bool
    ensures { group.new.desk.now ≡ group.old.desk.now }
{
    group.ask(Who::CarA, 0, place(0, Dir::Up))
        & group.ask(Who::CarB, 0, place(9, Dir::Down))
        & turns(clerk)
        & group.ask(Who::Kiosk0, 1, call(5))
        & turns(clerk)
        & group.hear(Who::CarA).is_some()
        & (group.hear(Who::Kiosk0) == Some(Reply::Car(Letter::default())))
}

/// How a drive from floor 0 ends, and whether it went to floor 0 and then to floor 5.
fn drive_up(alloc: Global, port: &mut Turned<'_, '_>) -> (DriveEnd, bool) {
    let mut car = Recorder {
        car: ModelCar { position: up(0) },
        stops: Vec::new(alloc),
    };
    let end = drive(&mut car, port, number(0), limits(4, 3));
    (end, car.stops.as_slice() == [up(0), up(5)].as_slice())
}

/// Whether the one call is done.
fn is_done(clerk: &Clerk<Device, Etd>) -> bool {
    let register = clerk.keeper().register();
    (register.open_count() == 0) & (register.done() == 1)
}

/// Whether car A takes a call from floor 0 to floor 5, and is idle there: the call is done.
fn is_driven_at<R: AllocGlobal + Abort>(
    rt: &R,
    desk: &Desk,
    seats: Vec<Seat>,
    seat: ClerkSeat,
    building: &Building,
) -> bool
    requires seats { AreSeatsOf desk.now seats.items }
    requires clerk { IsClerkOf desk.now seat }
    requires owes { OwesNothing seat }
    requires unused { seat ≡ new_seats desk.now }
{
    let mut group = Terminals::of(desk, seats);
    let device = formatted(rt, rt.alloc(), building);
    let mut clerk = clerk_of(rt, desk, seat, device, building);
    let is_sent = sends_car_a(&mut group, &mut clerk);
    let port = DeskPort::new(desk, group.into_first(rt), Yield);
    let mut port = Turned { port, clerk };
    let (end, is_driven) = drive_up(rt.alloc(), &mut port);
    is_sent
        & is_driven
        & (end.end == Ending::Limit)
        & (end.last == number(2))
        & is_done(&port.clerk)
}

#[test]
fn a_car_drives(rt: HostRuntime) {
    let building = group(&rt, rt.alloc());
    let DeskParts { desk, seats, clerk } = open(&rt, rt.alloc());
    assert!(rt; is_driven_at(&rt, &desk, seats, clerk, &building));
}
