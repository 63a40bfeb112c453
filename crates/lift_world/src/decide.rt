//! One decision.
ghost use Rattle.std.specs.Prelude.{◌≡◌, ◌∷◌, [], Some, None, slice_set};
ghost use Rattle.lift_base.specs.declared.history.Entry.{Entry as EntryValue};
ghost use Rattle.lift_base.specs.declared.command.Reply.{Reply as ReplyValue};
ghost use Rattle.lift_register.specs.Prelude.{rows_of, register_of, Fits, IsBalanced};
ghost use Rattle.lift_stops.specs.StopList.{next_stop};
ghost use Rattle.lift_stops.specs.Schedule.{position_after};
ghost use Rattle.lift_world.specs.Carries.{IsVerdictOf, CarriesOut};

use lift_base::{Entry, Letter, MOST_CARS, Number, Position, Reply, Stop};
use lift_building::Building;
use lift_policy::{Command, Verdict, View, schedule_of, schedules_at};
use lift_register::Register;

/// What a decision gives: the reply, and the entry that was accepted with it.
#[derive(Clone, Copy)]
pub struct Decided {
    pub reply: Reply,
    pub entry: Option<Entry>,
}

/// What the rules make of the command.
fn verdict_of(
    building: &Building,
    register: &Register,
    positions: &[Option<Position>; MOST_CARS],
    command: &Command,
) -> Verdict
    ensures { IsVerdictOf building.now register.now positions.now command.now result }
{
    let schedules = schedules_at(register, positions);
    let view = View::new(register, &schedules);
    Verdict::of(building, &view, command)
}

/// The reply to a command that changes no register.
fn reply_alone(reply: Reply) -> Option<Decided>
    ensures { result ≡ Some (record { reply = reply; entry = None }) }
{
    Some(Decided { reply, entry: None })
}

/// A new call goes to this car, where it may take it; no other command has a car.
fn allot(
    building: &Building,
    register: &mut Register,
    positions: &[Option<Position>; MOST_CARS],
    command: &Command,
    verdict: &Verdict,
    car: Letter,
) -> Option<Decided>
    requires verdict { IsVerdictOf building.now register.old positions.now command.now verdict.now }
    requires balanced { IsBalanced register.old }
    ensures carries { CarriesOut building.now register.old positions.now command.now (Some car)
        result register.new positions.now }
    ensures balanced { IsBalanced register.new }
{
    let Verdict::Call(call, eligible) = verdict else {
        return None;
    };
    if !eligible.letters().contains(&car) {
        return None;
    }
    let entry = Entry::Allot {
        kiosk: command.terminal,
        number: command.number,
        from: call.from,
        to: call.to,
        car,
        party: call.party,
    };
    register.apply(building, &entry);
    Some(Decided {
        reply: Reply::Car(car),
        entry: Some(entry),
    })
}

/// The car stands there. The answer is the stop that it makes next.
fn stand(
    register: &Register,
    positions: &mut [Option<Position>; MOST_CARS],
    car: Letter,
    at: &Position,
) -> Option<Stop>
    ensures positions { positions.new ≡ slice_set positions.old car (Some at.now) }
    ensures next { result ≡ next_stop (rows_of register.now car) at.now }
{
    positions[usize::from(car.get())] = Some(*at);
    let schedule = schedule_of(register, car, *at);
    schedule.next_stop()
}

/// A new stop joins, and its car stands there.
fn serve(
    building: &Building,
    register: &mut Register,
    positions: &mut [Option<Position>; MOST_CARS],
    number: Number,
    car: Letter,
    stop: &Stop,
) -> Decided
    requires fits { Fits building.now register.old
        (EntryValue.Stop car number stop.now.floor stop.now.dir) }
    requires balanced { IsBalanced register.old }
    ensures register { register.new
        ≡ register_of register.old (EntryValue.Stop car number stop.now.floor stop.now.dir ∷ []) }
    ensures balanced { IsBalanced register.new }
    ensures positions { positions.new
        ≡ slice_set positions.old car (Some (position_after stop.now)) }
    ensures decided { result ≡ record {
      reply = ReplyValue.Stopped
          (next_stop (rows_of register.new car) (position_after stop.now));
      entry = Some (EntryValue.Stop car number stop.now.floor stop.now.dir);
    } }
{
    let Stop { floor, dir } = *stop;
    let entry = Entry::Stop {
        car,
        number,
        floor,
        dir,
    };
    register.apply(building, &entry);
    Decided {
        reply: Reply::Stopped(stand(register, positions, car, &Position { floor, dir })),
        entry: Some(entry),
    }
}

/// A command that is given no car: so a new call isn't decided.
fn proceed(
    building: &Building,
    register: &mut Register,
    positions: &mut [Option<Position>; MOST_CARS],
    command: &Command,
    verdict: &Verdict,
) -> Option<Decided>
    requires verdict { IsVerdictOf building.now register.old positions.old command.now verdict.now }
    requires balanced { IsBalanced register.old }
    ensures carries { CarriesOut building.now register.old positions.old command.now None result
        register.new positions.new }
    ensures balanced { IsBalanced register.new }
{
    match verdict {
        Verdict::Refused(reason) => reply_alone(Reply::Refused(*reason)),
        Verdict::Call(..) => None,
        Verdict::RepeatedCall(car) => reply_alone(Reply::Car(*car)),
        Verdict::Stop(car, stop) => {
            let number = command.number;
            Some(serve(building, register, positions, number, *car, stop))
        }
        Verdict::RepeatedStop(car, at) => {
            reply_alone(Reply::Stopped(stand(register, positions, *car, at)))
        }
        Verdict::Place(car, at) => reply_alone(Reply::Placed(stand(register, positions, *car, at))),
    }
}

/// Decides one command, with this car for a new call and no car for any other; none where the
/// letter doesn't fit.
pub fn decide(
    building: &Building,
    register: &mut Register,
    positions: &mut [Option<Position>; MOST_CARS],
    command: &Command,
    letter: Option<Letter>,
) -> Option<Decided>
    requires balanced { IsBalanced register.old }
    ensures carries { CarriesOut building.now register.old positions.old command.now letter result
        register.new positions.new }
    ensures balanced { IsBalanced register.new }
{
    let verdict = &verdict_of(building, register, positions, command);
    match letter {
        Some(car) => allot(building, register, positions, command, verdict, car),
        None => proceed(building, register, positions, command, verdict),
    }
}
