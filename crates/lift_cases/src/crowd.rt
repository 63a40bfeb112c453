//! Many calls; and many commands, and whether each car's schedule is then as it is made from nothing.
use crate::group::ask;
use crate::numbers::{floor, letter, next, next_dir, party};
use crate::trip::schedule_with;
use lift_base::{Body, Letter, Number, Party, Position, Reply, Row, Stop, Terminal};
use lift_decider::Decider;
use lift_policy::{Etd, FewestOpen};
use lift_stops::{Schedule, next_stop, stop_list};

fn kiosk(index: u32) -> Terminal {
    Terminal::of_kiosk((index % 47) as u8).unwrap_or_default()
}

fn number(value: u32) -> Number {
    Number::new(value).unwrap_or_default()
}

/// The call of this place: of kiosks 0, at floor 0, and 1, at floor 5, in turn, to each of the
/// other nine floors in turn.
fn call_at(place: u32) -> (Terminal, Number, Body) {
    let to = if place % 2 == 0 {
        1 + place / 2 % 9
    } else {
        (6 + place / 2 % 9) % 10
    };
    let body = Body::Call(floor(to), Party::default());
    (kiosk(place % 2), number(place / 2 + 1), body)
}

/// The calls of these places, to the cars with the fewest open calls; how many found a car.
pub(crate) fn call(decider: &mut Decider, from: u32, to: u32) -> u32 {
    let mut taken = 0u32;
    for place in from..to {
        let (terminal, told, body) = call_at(place);
        let (reply, _) = ask(decider, terminal, told, &body, &FewestOpen);
        if matches!(reply, Reply::Car(_)) {
            taken = taken.saturating_add(1);
        }
    }
    taken
}

/// Half are calls of the two kiosks; the others tell of the first three cars: of two each a
/// stop where the car goes next, and one of a stop and a place anywhere.
fn next_command(seed: &mut u32, decider: &Decider) -> (Terminal, Body) {
    let kind = next(seed) % 8;
    let car = letter(next(seed) % 3);
    let (at, dir) = (floor(next(seed) % 10), next_dir(seed));
    if kind < 4 {
        return (kiosk(kind % 2), Body::Call(at, party(next(seed) % 3 + 1)));
    }
    let told = match kind {
        4 | 5 => match next_of(decider, car) {
            Some(stop) => Body::Stop(stop.floor, stop.dir),
            None => Body::Stop(at, dir),
        },
        6 => Body::Stop(at, dir),
        _ => Body::Place(at, dir),
    };
    (Terminal::of_car(car), told)
}

/// Where a car goes next, by the rules, from nothing.
fn next_of(decider: &Decider, car: Letter) -> Option<Stop> {
    let position = decider.view().position(car)?;
    next_stop(decider.register().open_rows(car), position)
}

/// The command with its terminal's next number, and a place with 0.
fn ask_next(decider: &mut Decider, terminal: Terminal, body: &Body) -> Reply {
    let told = match body {
        Body::Place(_, _) => 0,
        _ => decider.register().last_number(terminal) + 1,
    };
    let (reply, _) = ask(decider, terminal, number(told), body, &Etd);
    reply
}

/// Where a car is after what it told, if anything.
fn stood_by(reply: &Reply, body: &Body) -> Option<Position> {
    match reply {
        Reply::Stopped(_) | Reply::Placed(_) => match *body {
            Body::Stop(floor, dir) | Body::Place(floor, dir) => Some(Position { floor, dir }),
            Body::Call(_, _) => None,
        },
        _ => None,
    }
}

/// Whether a schedule is that of these calls, its halts are those that are made from nothing and
/// call by call, and so also with one call more.
fn is_as_from_nothing(schedule: &Schedule, rows: &[Row], more: &Row) -> bool {
    if rows.len() > 32 || schedule.rows().len() > 32 {
        return false;
    }
    let position = &schedule.position();
    let halts = stop_list(rows, *position);
    let Some(mut anew) = schedule_with(*position, rows) else {
        return false;
    };
    let are_same = (schedule.rows() == rows)
        & (schedule.halts() == halts)
        & (anew.halts() == halts)
        & (schedule.next_stop() == next_stop(rows, *position));
    if anew.rows().len() > 32 {
        return false;
    }
    let halts = schedule.halts_with(more);
    let is_same_anew = anew.halts_with(more) == halts;
    anew.insert(*more);
    are_same
        & is_same_anew
        & (anew.halts() == halts)
        & (stop_list(anew.rows(), *position).as_slice() == halts.as_slice())
}

/// Whether a car that told its position has the schedule of its open calls there; another has none,
/// and no calls.
fn is_car_right(decider: &Decider, car: Letter, position: &Option<Position>) -> bool {
    let rows = decider.register().open_rows(car);
    let view = decider.view();
    match (view.schedule(car), position) {
        (Some(schedule), Some(position)) => {
            (schedule.position() == *position) & is_as_from_nothing(schedule, rows, &Row::default())
        }
        (None, None) => rows.is_empty(),
        _ => false,
    }
}

/// Whether each of the three cars' schedules is as from nothing after each of this many commands of
/// a fixed list, and calls were served and many were open at once.
pub(crate) fn are_commands_as_from_nothing(decider: &mut Decider, count: u32, seed: u32) -> bool {
    let mut seed = seed;
    let mut positions = [None; 3];
    let mut most = 0;
    for _ in 0..count {
        let (terminal, body) = next_command(&mut seed, decider);
        let reply = ask_next(decider, terminal, &body);
        if let Some(position) = stood_by(&reply, &body) {
            match positions.get_mut(usize::from(terminal.get())) {
                Some(place) => *place = Some(position),
                None => return false,
            }
        }
        for (index, position) in positions.iter().enumerate() {
            if !is_car_right(decider, letter(index as u32), position) {
                return false;
            }
        }
        most = decider.register().open_count().max(most);
    }
    (decider.register().done() > 20) & (most > 8)
}
