//! An agent that drives a car through its stops.

ghost use Rattle.std.specs.Prelude.{◌≡◌, ◌≢◌, ◌+◌, ◌<◌, ◌≤◌, OnOk, IfOk, IfErr, IfSome, IfNone};
ghost use Rattle.std.specs.Prelude.{Err, Bool, None, false, true};
ghost use Rattle.lift_car.specs.Drive.{ask_at, stop_in, last_after, last_opened};
ghost use Rattle.lift_car.specs.Drive.{HaltsBeside, GoesToStop};
ghost use Rattle.lift_car.specs.Drive.{RestsWithoutStop, GoesOn, EndsWith, Errand, LastAsk};
ghost use Rattle.lift_car.specs.Drive.{IsDrive, standing};
ghost use Rattle.lift_base.specs.declared.command.Reply.{Reply as ReplyValue};

use crate::car::Halts;
use crate::terms::{DriveEnd, Ending};
use lift_base::{Body, Number, Position, Reply, Stop};
use lift_desk::Ask;
use lift_kiosk::{Limits, Opening, Outcome, Port, bring_in, carry_out};

/// What the car asks where it is: its next stop where it went to one, else its place. None where no
/// number is left.
fn ask_at(arrived: bool, last: &Number, position: &Position) -> Option<Ask>
    ensures some { IfSome result (λ ask. (ask ≡ ask_at arrived last.now position.now)
        × (arrived ≡ true → last.now < 16777215)) }
    ensures none { IfNone result ((arrived ≡ true) × (last.now ≡ 16777215)) }
{
    if arrived {
        match Number::new(last.get() + 1) {
            Some(number) => Some(Ask {
                number,
                body: Body::Stop(position.floor, position.dir),
            }),
            None => None,
        }
    } else {
        Some(Ask {
            number: Number::default(),
            body: Body::Place(position.floor, position.dir),
        })
    }
}

/// The number of the last stop, after an answer.
fn last_stop_after(last: &Number, number: &Number, reply: &Reply) -> Number
    ensures { result ≡ last_after last.now number.now reply.now }
{
    match reply {
        Reply::Stopped(_) => {
            if number.get() > last.get() {
                *number
            } else {
                *last
            }
        }
        _ => *last,
    }
}

/// The number of the last stop, after the start.
fn last_after_opening(last: &Number, opening: &Opening) -> Number
    ensures { result ≡ last_opened last.now opening.now }
{
    match opening {
        Opening::BroughtIn(number, reply) => last_stop_after(last, number, reply),
        _ => *last,
    }
}

/// The stop that an answer names; an `Err` where it ends the drive.
fn stop_of(reply: &Reply) -> Result<Option<Stop>, Ending>
    ensures stop { IfOk result (λ stop. (stop ≡ stop_in reply.now) × GoesOn reply.now) }
    ensures end { IfErr result (λ end. EndsWith reply.now end) }
{
    match reply {
        Reply::Stopped(next) | Reply::Placed(next) => Ok(*next),
        Reply::Car(_) => Ok(None),
        Reply::Refused(reason) => Err(Ending::Refused(*reason)),
        Reply::Unknown => Err(Ending::Unknown),
    }
}

/// Goes to a stop that was heard, and halts there; rests where none was.
fn move_on<C: Halts<P>, P: Port>(car: &mut C, port: &mut P, stop: &Option<Stop>)
    ensures moves { GoesToStop C.stands C.goes (HaltsBeside P.view C.halts) car.old stop.now (P.view port.old) car.new }
    ensures rests { RestsWithoutStop stop.now (P.view port.old) (P.view port.new) }
    ensures pending { (P.view port.new).pending ≡ (P.view port.old).pending }
    ensures stays { P.place port.new ≡ P.place port.old }
{
    match stop {
        Some(stop) => {
            car.go(*stop);
            car.halt(port);
        }
        None => port.rest(),
    }
}

/// One ask and its answer. An `Err` ends the drive.
fn errand<C: Halts<P>, P: Port>(
    car: &mut C,
    port: &mut P,
    last: &mut Number,
    arrived: &mut bool,
    looks: u32,
) -> Result<(), Ending>
    requires free { (P.view port.old).pending ≡ None }
    ensures ok { OnOk result ((reply : ReplyValue) × GoesOn reply × Errand C.stands C.goes (HaltsBeside P.view C.halts) looks reply
        (standing last.old arrived.old (P.view port.old) car.old)
        (standing last.new arrived.new (P.view port.new) car.new)) }
    ensures end { IfErr result (λ end. LastAsk C.stands looks end
        (standing last.old arrived.old (P.view port.old) car.old)
        (standing last.new arrived.new (P.view port.new) car.new)) }
    ensures number { IfErr result (λ _. last.new ≡ last.old) }
    ensures parked { IfErr result (λ _. car.new ≡ car.old) }
    ensures free { OnOk result ((P.view port.new).pending ≡ None) }
    ensures stays { P.place port.new ≡ P.place port.old }
{
    let position = car.tell();
    let ask = match ask_at(*arrived, last, &position) {
        Some(ask) => ask,
        None => return Err(Ending::Limit),
    };
    let reply = match carry_out(port, &ask, looks) {
        Outcome::Answered(_, reply) => reply,
        Outcome::NotAnswered(_) => return Err(Ending::Late),
        Outcome::Refused(_) => return Err(Ending::Spent),
        Outcome::Malformed | Outcome::OffFloors => unreachable!(),
    };
    let stop = stop_of(&reply)?;
    *last = last_stop_after(last, &ask.number, &reply);
    *arrived = stop.is_some();
    move_on(car, port, &stop);
    Ok(())
}

/// Drives a car: brings in the answer to an ask of an earlier drive, then asks Place of what the
/// car tells. It goes to each stop that it hears, halts there, and reports it with the next
/// number; where it hears none it rests and asks Place again. The limits bound the asks (`lines`) and the looks for
/// each answer.
pub fn drive<C: Halts<P>, P: Port>(
    car: &mut C,
    port: &mut P,
    last: Number,
    limits: Limits,
) -> DriveEnd
    ensures drive { (arrived : Bool) × IsDrive C.stands C.goes (HaltsBeside P.view C.halts) limits result.end
        (standing last false (P.view port.old) car.old)
        (standing result.last arrived (P.view port.new) car.new) }
    ensures stays { P.place port.new ≡ P.place port.old }
    ensures late { result.end ≡ Ending.Late → ((P.view port.new).pending ≢ None)
        × ((P.view port.old).looks + limits.looks ≤ (P.view port.new).looks) }
    ensures spent { result.end ≡ Ending.Spent
        → ((P.view port.new).spent ≡ true) × ((P.view port.new).pending ≡ None) }
{
    let opening = bring_in(port, limits.looks);
    let mut last = last_after_opening(&last, &opening);
    if let Opening::StillWaits = opening {
        return DriveEnd {
            last,
            end: Ending::Late,
        };
    }
    let mut arrived = false;
    for _ in 0..limits.lines {
        match errand(car, port, &mut last, &mut arrived, limits.looks) {
            Ok(()) => {}
            Err(end) => return DriveEnd { last, end },
        }
    }
    DriveEnd {
        last,
        end: Ending::Limit,
    }
}
