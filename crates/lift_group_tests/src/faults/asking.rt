//! What car A and the kiosks ask, and what they hear.
use crate::device::Device;
use crate::faults::case::Case;
use crate::groups::{call, car, floor, place};
use crate::tally::Tally;
use crate::terminals::{Terminals, Who, turn};
use lift_base::{Body, Dir, Reply, Stop};
use lift_clerk::Clerk;
use lift_policy::Etd;

/// Car A stands at floor 0, going up.
pub(crate) fn stand() -> Body {
    place(0, Dir::Up)
}

/// Car A stops at floor 9, where nobody waits, going down.
pub(crate) fn stop() -> Body {
    Body::Stop(floor(9), Dir::Down)
}

/// Where car A stops next: where kiosk 0's passenger waits.
pub(crate) fn next_stop() -> Option<Stop> {
    Some(Stop {
        floor: floor(0),
        dir: Dir::Up,
    })
}

/// A terminal asks, and the clerk turns: it hears this.
pub(crate) fn asks(
    tally: &mut Tally,
    group: &mut Terminals,
    clerk: &mut Clerk<Device, Etd>,
    ask: (Who, u32, Body),
    wanted: &Option<Reply>,
) {
    let (who, told, body) = ask;
    let _stored = group.ask(who, told, body);
    let _turned = turn(clerk);
    tally.want_reply(group.hear(who), wanted);
}

/// How many commands a batch of the work has: two calls, a call, a stop.
pub(crate) fn commands_of(batch: u32) -> usize {
    if batch == 0 { 2 } else { 1 }
}

/// The commands of a batch are asked: the first calls of kiosks 1 and 2, the second one of kiosk 0,
/// a stop of car A.
pub(crate) fn ask(group: &mut Terminals, batch: u32, stops: u32) -> bool {
    match batch {
        0 => group.ask(Who::Kiosk1, 1, call(8)) && group.ask(Who::Kiosk2, 1, call(9)),
        1 => group.ask(Who::Kiosk0, 2, call(8)),
        _ => group.ask(Who::CarA, stops.wrapping_add(1), stop()),
    }
}

/// What they hear of it.
pub(crate) fn hear(tally: &mut Tally, group: &mut Terminals, case: &Case, batch: u32) {
    let letter = case.answer(batch, car(0));
    match batch {
        0 => {
            tally.want_reply(group.hear(Who::Kiosk1), &letter);
            tally.want_reply(group.hear(Who::Kiosk2), &letter);
        }
        1 => tally.want_reply(group.hear(Who::Kiosk0), &letter),
        _ => {
            let stopped = case.answer(batch, Some(Reply::Stopped(next_stop())));
            tally.want_reply(group.hear(Who::CarA), &stopped);
        }
    }
}

/// All of them are asked again, and the clerk turns for each. Where no car was placed, a call that
/// isn't in is refused.
pub(crate) fn ask_again(
    tally: &mut Tally,
    group: &mut Terminals,
    clerk: &mut Clerk<Device, Etd>,
    case: &Case,
    is_placed: bool,
) {
    let letter = case.answer_again(0, is_placed);
    asks(tally, group, clerk, (Who::Kiosk1, 1, call(8)), &letter);
    asks(tally, group, clerk, (Who::Kiosk2, 1, call(9)), &letter);
    if case.work.batches > 1 {
        let letter = case.answer_again(1, is_placed);
        asks(tally, group, clerk, (Who::Kiosk0, 2, call(8)), &letter);
        let told = case.work.stops.wrapping_add(1);
        let stopped = Some(Reply::Stopped(next_stop()));
        asks(tally, group, clerk, (Who::CarA, told, stop()), &stopped);
    }
}

/// Car A tells where it is, and kiosk 0's passenger waits where it stops next.
pub(crate) fn stands(tally: &mut Tally, group: &mut Terminals, clerk: &mut Clerk<Device, Etd>) {
    let placed = Some(Reply::Placed(next_stop()));
    asks(tally, group, clerk, (Who::CarA, 0, stand()), &placed);
}

/// Kiosk 0 asks for the first time, or again, and is told its letter.
pub(crate) fn calls_first(
    tally: &mut Tally,
    group: &mut Terminals,
    clerk: &mut Clerk<Device, Etd>,
) {
    asks(tally, group, clerk, (Who::Kiosk0, 1, call(5)), &car(0));
}
