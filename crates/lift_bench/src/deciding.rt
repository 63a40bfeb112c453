//! Decisions with this many open calls: new calls, by the cars' schedules and from nothing, and
//! stops.
ghost use Rattle.std.specs.Prelude.{◌<◌, Contains, length};
ghost use Rattle.lift_policy.specs.View.{IsViewIn};

use crate::building::text_of;
use crate::fault::Fault;
use lift_base::{Body, Dir, Floor, Letter, Number, Party, Reply, Terminal};
use lift_building::Building;
use lift_cost::{NewCall, total_cost};
use lift_decider::Decider;
use lift_policy::{Eligible, Etd, FewestOpen, Policy, View};
use std::alloc::Global;

/// What is decided again and again. The open calls are the same after each round.
#[derive(Drop)]
pub(crate) enum Kind {
    /// A new call, by the cars' schedules; the two stops of its car, and its place, take it out
    /// again.
    Call,
    /// The same, with the costs of all eligible cars from nothing.
    Plain,
    /// The two stops and the place without the call.
    Stops,
    /// A stop in the car's direction, at which nobody boards or leaves.
    Ahead,
    /// A stop against the car's direction, at which nobody boards or leaves.
    Turn,
}

/// The floors of the new call. No other call starts or ends there, and none starts between them.
const FROM: u8 = 46;

const TO: u8 = 63;

fn floor(number: u8) -> Floor {
    Floor::new(number).unwrap_or_default()
}

/// The kiosk on this floor.
fn kiosk(floor: u8) -> Terminal {
    Terminal::of_kiosk(floor).unwrap_or_default()
}

/// Decides a command with its terminal's next number, and drops its batch.
fn command<P: Policy>(decider: &mut Decider, terminal: Terminal, body: &Body, policy: &P) -> Reply {
    let number = match body {
        Body::Place(_, _) => 0,
        _ => decider.register().last_number(terminal) + 1,
    };
    if decider.pending() >= 63 {
        return Reply::Unknown;
    }
    let number = Number::new(number).unwrap_or_default();
    let reply = decider.decide(terminal, number, body, policy);
    decider.clear_batch();
    reply
}

/// A car stops at a floor.
fn stop(decider: &mut Decider, car: Letter, at: u8, dir: Dir) {
    let body = Body::Stop(floor(at), dir);
    let _reply = command(decider, Terminal::of_car(car), &body, &FewestOpen);
}

/// A car tells that it is where it was first, going up.
fn place(decider: &mut Decider, car: Letter) {
    let body = Body::Place(floor(2 * car.get()), Dir::Up);
    let _reply = command(decider, Terminal::of_car(car), &body, &FewestOpen);
}

/// Each car tells where it is.
fn place_all(decider: &mut Decider, cars: u8) {
    for index in 0..cars {
        place(decider, Letter::new(index).unwrap_or_default());
    }
}

/// The goal of the open call at this place: another floor than its own, and none of the new call's.
fn goal(place: u32) -> Floor {
    let number = (place % 46 + 5 * (place / 46 % 11) + 11) % 62;
    let number = number as u8;
    floor(if number < FROM { number } else { number + 1 })
}

/// This many calls, from the kiosks below the new call's in turn; each goes to the car with the
/// fewest.
fn fill(decider: &mut Decider, calls: u32) {
    for place in 0..calls {
        let from = kiosk((place % 46) as u8);
        let body = Body::Call(goal(place), Party::default());
        let _reply = command(decider, from, &body, &FewestOpen);
    }
}

/// The stops at which the new call's passengers would board and leave, and the place where the car
/// was.
fn pass_by(decider: &mut Decider, car: Letter) {
    stop(decider, car, FROM, Dir::Up);
    stop(decider, car, TO, Dir::Up);
    place(decider, car);
}

/// The new call, served at once; the car that took it.
fn round<P: Policy>(decider: &mut Decider, policy: &P) -> Option<Letter> {
    let body = Body::Call(floor(TO), Party::default());
    match command(decider, kiosk(FROM), &body, policy) {
        Reply::Car(car) => {
            pass_by(decider, car);
            Some(car)
        }
        _ => None,
    }
}

/// This many rounds; how many calls found a car.
fn rounds<P: Policy>(decider: &mut Decider, times: u32, policy: &P) -> u32 {
    let mut taken = 0u32;
    for _ in 0..times {
        if round(decider, policy).is_some() {
            taken = taken.saturating_add(1);
        }
    }
    taken
}

/// This many times the stops and the place of a round.
fn stops(decider: &mut Decider, car: Letter, times: u32) {
    for _ in 0..times {
        pass_by(decider, car);
    }
}

/// This many stops upwards, at two floors in turn, of a car that goes up.
fn stops_ahead(decider: &mut Decider, car: Letter, times: u32) {
    for time in 0..times {
        let at = if time % 2 == 0 { FROM } else { TO };
        stop(decider, car, at, Dir::Up);
    }
}

/// This many stops at one floor, each against the direction of the one before it.
fn turns(decider: &mut Decider, car: Letter, times: u32) {
    for time in 0..times {
        let dir = if time % 2 == 0 { Dir::Down } else { Dir::Up };
        stop(decider, car, FROM, dir);
    }
}

/// Picks the car whose cost is least, all stop lists made from nothing.
struct PlainEtd;

impl Policy for PlainEtd {
    ghost chooses = { λ _ _ _ _ eligible car. Contains eligible car };

    fn choose(&self, building: &Building, view: &View, call: NewCall, among: Eligible) -> Letter {
        let letters = among.letters();
        letters[least_plainly(building, view, &call, letters)]
    }

    ghost only_members = { λ policy plan view call eligible car h. h };
}

/// What a call would cost a car, its stop lists made from nothing.
fn plain_cost(building: &Building, view: &View, call: &NewCall, car: Letter) -> u64
    requires possible { IsViewIn building.now view.now }
    requires from { call.now.from < building.now.floors }
    requires to { call.now.to < building.now.floors }
{
    let _lawful = building.floors();
    match view.position(car) {
        Some(position) => total_cost(building, position, view.open_rows(car), *call),
        None => 0,
    }
}

/// The place of the first car whose cost is least.
fn least_plainly(building: &Building, view: &View, call: &NewCall, letters: &[Letter]) -> usize
    requires possible { IsViewIn building.now view.now }
    requires from { call.now.from < building.now.floors }
    requires to { call.now.to < building.now.floors }
    requires some { 0 < length letters.now }
    ensures { result < length letters.now }
{
    let mut best = 0;
    let mut least = plain_cost(building, view, call, letters[0]);
    for i in 1..letters.len() {
        let cost = plain_cost(building, view, call, letters[i]);
        if cost < least {
            least = cost;
            best = i;
        }
    }
    best
}

/// Allots this many open calls, and then decides this often. The calls that are open then, and how
/// many new calls found a car, or else the stops.
pub(crate) fn decide(
    alloc: Global,
    cars: u8,
    calls: u32,
    times: u32,
    kind: Kind,
) -> Result<(u32, u32), Fault> {
    let text = text_of(alloc, cars)?;
    // the building is this program's own, so that only memory may want
    let Ok(building) = Building::read(alloc, &text) else {
        return Err(Fault::Memory);
    };
    let mut decider = Decider::new(&building);
    place_all(&mut decider, cars);
    fill(&mut decider, calls);
    let calls = decider.register().open_count();
    let mut decisions = times;
    match kind {
        Kind::Call => decisions = rounds(&mut decider, times, &Etd),
        Kind::Plain => decisions = rounds(&mut decider, times, &PlainEtd),
        Kind::Stops => {
            let car = round(&mut decider, &Etd).unwrap_or_default();
            stops(&mut decider, car, times);
        }
        Kind::Ahead => stops_ahead(&mut decider, Letter::default(), times),
        Kind::Turn => turns(&mut decider, Letter::default(), times),
    }
    Ok((calls, decisions))
}
