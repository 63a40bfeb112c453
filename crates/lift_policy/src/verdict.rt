//! What the rules make of a command, before a policy is asked.
ghost use Rattle.std.specs.Prelude.{ℕ, ◌≡◌, List, None, Some};
ghost use Rattle.lift_base.specs.declared.history.Entry.{Entry};
ghost use Rattle.lift_base.specs.declared.history.Content.{Content as ContentValue};
ghost use Rattle.lift_base.specs.declared.command.Body.{Body as BodyValue};
ghost use Rattle.lift_register.specs.Register.{last_of};
ghost use Rattle.lift_policy.specs.Step.{state_seen};
ghost use Rattle.lift_policy.specs.Verdict.{cause_before_cars, IsVerdict};

use crate::causes::{call_at, car_at, cause_before_cars, is_next};
use crate::command::Command;
use crate::eligible::Eligible;
use crate::view::View;
use lift_base::{Body, Content, Floor, Letter, Party, Position, Reason, Stop, Terminal};
use lift_building::Building;
use lift_cost::NewCall;
use lift_register::Register;

/// What the rules make of a command, before a policy is asked: it is refused, or it is one of these
/// cases.
#[derive(Drop)]
pub enum Verdict {
    /// It is refused, for the first cause.
    Refused(Reason),
    /// A new call, which goes to one of these cars.
    Call(NewCall, Eligible),
    /// A kiosk's last call again, which went to this car.
    RepeatedCall(Letter),
    /// A new stop of this car.
    Stop(Letter, Stop),
    /// A car's last stop again: it stands there.
    RepeatedStop(Letter, Position),
    /// A car reports where it stands.
    Place(Letter, Position),
}

impl Verdict {
    /// What the rules make of a command.
    pub fn of(building: &Building, view: &View, command: &Command) -> Self
        ensures { (batch : List Entry) → IsVerdict building.now (state_seen view.now batch)
            command.now.terminal command.now.number command.now.body result }
    {
        match cause_before_cars(building, view, command) {
            Some(reason) => Verdict::Refused(reason),
            None => match command.body {
                Body::Call(to, party) => on_call(building, view, command, to, party),
                Body::Stop(floor, dir) => on_stop(building, view, command, Stop { floor, dir }),
                Body::Place(floor, dir) => {
                    let car = car_at(building, command.terminal);
                    Verdict::Place(car, Position { floor, dir })
                }
            },
        }
    }
}

/// A call: a new one is refused where no car may take it.
fn on_call(building: &Building, view: &View, command: &Command, to: Floor, party: Party) -> Verdict
    requires { (batch : List Entry) → cause_before_cars building.now (state_seen view.now batch)
        command.now.terminal command.now.number (BodyValue.Call to party) ≡ None }
    ensures { (batch : List Entry) → IsVerdict building.now (state_seen view.now batch)
        command.now.terminal command.now.number (BodyValue.Call to party) result }
{
    let register = view.register();
    let terminal = command.terminal;
    if is_next(register, terminal, command.number) {
        let call = &call_at(building, terminal, to, party);
        match Eligible::among(building, view, *call) {
            Some(eligible) => Verdict::Call(*call, eligible),
            None => Verdict::Refused(Reason::NoCar),
        }
    } else {
        match kept_car(register, terminal) {
            Some(car) => Verdict::RepeatedCall(car),
            None => unreachable!(),
        }
    }
}

/// A stop of a car.
fn on_stop(building: &Building, view: &View, command: &Command, stop: Stop) -> Verdict
    requires { (batch : List Entry) → cause_before_cars building.now (state_seen view.now batch)
        command.now.terminal command.now.number (BodyValue.Stop stop.floor stop.dir) ≡ None }
    ensures { (batch : List Entry) → IsVerdict building.now (state_seen view.now batch)
        command.now.terminal command.now.number (BodyValue.Stop stop.floor stop.dir) result }
{
    let car = car_at(building, command.terminal);
    if is_next(view.register(), command.terminal, command.number) {
        Verdict::Stop(car, stop)
    } else {
        let Stop { floor, dir } = stop;
        Verdict::RepeatedStop(car, Position { floor, dir })
    }
}

/// The car that a kiosk's last call was allotted to.
fn kept_car(register: &Register, kiosk: Terminal) -> Option<Letter>
    ensures { (number from to car party : ℕ)
        → last_of register.now kiosk
        ≡ Some (record { number = number; content = ContentValue.Letter from to car party })
        → result ≡ Some car }
{
    let last = register.last(kiosk)?;
    match &last.content {
        Content::Letter { car, .. } => Some(*car),
        Content::Stopped { .. } => None,
    }
}
