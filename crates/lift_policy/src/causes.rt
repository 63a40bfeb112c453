//! Why a command is refused.

ghost use Rattle.std.specs.Prelude.{◌≡◌, ◌<◌, ◌==◌, ◌+◌, ◌&&◌, ◌||◌, List, not, if◌then◌else◌};
ghost use Rattle.std.specs.Prelude.{nat_le, nat_lt, true};
ghost use Rattle.lift_base.specs.declared.history.Entry.{Entry};
ghost use Rattle.lift_register.specs.Register.{last_number};
ghost use Rattle.lift_policy.specs.Terminals.{has_car, has_kiosk, kiosk_floor};
ghost use Rattle.lift_policy.specs.Step.{state_seen, floor_of, is_call, is_numbered, is_same};
ghost use Rattle.lift_policy.specs.Step.{is_kept, call_at};
ghost use Rattle.lift_policy.specs.Verdict.{cause_before_cars};

use crate::command::Command;
use crate::view::View;
use lift_base::{Body, Content, FIRST_KIOSK, Floor, Letter, Number, Party, Reason, Terminal};
use lift_building::Building;
use lift_cost::NewCall;
use lift_register::Register;

fn floor_of(body: &Body) -> Floor
    ensures { result ≡ floor_of body.now }
{
    match *body {
        Body::Call(floor, _) => floor,
        Body::Stop(floor, _) => floor,
        Body::Place(floor, _) => floor,
    }
}

fn is_call(body: &Body) -> bool
    ensures { result ≡ is_call body.now }
{
    matches!(body, Body::Call(_, _))
}

fn is_numbered(body: &Body) -> bool
    ensures { result ≡ is_numbered body.now }
{
    !matches!(body, Body::Place(_, _))
}

/// Whether the building has the terminal of such a command: a kiosk for a call, else a car.
fn is_known(building: &Building, terminal: Terminal, call: bool) -> bool
    ensures { result ≡ (if call then has_kiosk building.now terminal else has_car building.now
        terminal) }
{
    if call {
        terminal.get() >= FIRST_KIOSK && terminal.get() - FIRST_KIOSK < building.kiosks()
    } else {
        terminal.get() < building.cars()
    }
}

/// The floor of the kiosk at this terminal.
fn kiosk_floor(building: &Building, terminal: Terminal) -> Floor
    requires { has_kiosk building.now terminal ≡ true }
    ensures value { result ≡ kiosk_floor building.now terminal }
    ensures within { result < building.now.floors }
{
    building.kiosk_floor(terminal.get() - FIRST_KIOSK)
}

/// The car of this terminal.
pub(crate) fn car_at(building: &Building, terminal: Terminal) -> Letter
    requires { has_car building.now terminal ≡ true }
    ensures { result ≡ terminal }
{
    let _at_most = building.cars();
    match terminal.car() {
        Some(car) => car,
        None => unreachable!(),
    }
}

/// Whether a number is the terminal's next.
pub(crate) fn is_next(register: &Register, terminal: Terminal, number: Number) -> bool
    ensures { result ≡ (number == last_number register.now terminal + 1) }
{
    number.get() == register.last_number(terminal) + 1
}

fn is_same(body: &Body, content: &Content) -> bool
    ensures { result ≡ is_same body.now content.now }
{
    match content {
        Content::Letter { to, party, .. } => match body {
            Body::Call(floor, persons) => *to == *floor && *party == *persons,
            _ => false,
        },
        Content::Stopped { floor: f, dir: d } => match body {
            Body::Stop(floor, dir) => *f == *floor && *d == *dir,
            _ => false,
        },
    }
}

fn is_kept(register: &Register, terminal: Terminal, body: &Body) -> bool
    ensures { result ≡ is_kept register.now terminal body.now }
{
    match register.last(terminal) {
        Some(last) => is_same(body, &last.content),
        None => false,
    }
}

/// What a party that calls at a kiosk asks for.
pub(crate) fn call_at(building: &Building, terminal: Terminal, to: Floor, party: Party) -> NewCall
    requires { has_kiosk building.now terminal ≡ true }
    ensures value { result ≡ call_at building.now terminal to party }
    ensures from { result.from < building.now.floors }
{
    NewCall {
        from: kiosk_floor(building, terminal),
        to,
        party,
    }
}

/// Whether a command has its terminal's last number, but says something else than the one that was
/// accepted.
fn is_other(register: &Register, command: &Command) -> bool
    ensures { result ≡ (is_numbered command.now.body && nat_le 1 command.now.number &&
        command.now.number == last_number register.now command.now.terminal
        && not (is_kept register.now command.now.terminal command.now.body)) }
{
    let number = command.number.get();
    is_numbered(&command.body)
        && number >= 1
        && number == register.last_number(command.terminal)
        && !is_kept(register, command.terminal, &command.body)
}

/// Whether a numbered command's number is 0 or below its terminal's last one.
fn is_old(register: &Register, command: &Command) -> bool
    ensures { result ≡ (is_numbered command.now.body && (command.now.number
        == 0 || nat_lt command.now.number (last_number register.now command.now.terminal))) }
{
    let number = command.number.get();
    is_numbered(&command.body) && (number == 0 || number < register.last_number(command.terminal))
}

/// Whether a command's number is above its terminal's next one, or a position's above 0.
fn is_beyond(register: &Register, command: &Command) -> bool
    ensures { result ≡ (nat_lt (if is_numbered command.now.body then
        last_number register.now command.now.terminal + 1 else 0) command.now.number) }
{
    let number = command.number.get();
    if is_numbered(&command.body) {
        number > register.last_number(command.terminal) + 1
    } else {
        number > 0
    }
}

/// The first cause for which a command is refused, of those that are looked for before the cars are.
pub(crate) fn cause_before_cars(
    building: &Building,
    view: &View,
    command: &Command,
) -> Option<Reason>
    ensures { (batch : List Entry)
        → result ≡ cause_before_cars building.now
        (state_seen view.now batch) command.now.terminal command.now.number command.now.body }
{
    let terminal = command.terminal;
    let body = &command.body;
    let register = view.register();
    let call = is_call(body);
    let floor = floor_of(body);
    if !is_known(building, terminal, call) {
        return Some(Reason::WrongKind);
    }
    if building.floors() <= floor.get() {
        return Some(Reason::NoSuchFloor);
    }
    if !call && !building.serves(car_at(building, terminal), floor) {
        return Some(Reason::NotServed);
    }
    if call && kiosk_floor(building, terminal) == floor {
        return Some(Reason::SameFloor);
    }
    if is_other(register, command) {
        return Some(Reason::OtherBody);
    }
    if is_old(register, command) {
        return Some(Reason::OldNumber);
    }
    if is_beyond(register, command) {
        return Some(Reason::GapNumber);
    }
    None
}
