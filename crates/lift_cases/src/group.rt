//! The decisions of a group: what its terminals are answered, what each policy picks, and what
//! calls cost each car.
ghost use Rattle.std.specs.Prelude.{◌<◌, IsTrue};

use crate::cases::{Came, body_of, call_of, terminal_of};
use crate::highest::{Highest, InTurn};
use crate::{crowd, registers};
use lift_base::text::{letter_of_word, number_of_word, number_up_to};
use lift_base::{Body, Halt, Letter, Number, Reply, Terminal};
use lift_building::Building;
use lift_cost::{NewCall, arrival_at, waiting_row};
use lift_decider::Decider;
use lift_policy::{Eligible, Etd, Policy, Shipped, View};
use lift_stops::pass_of;

#[derive(Drop)]
pub(crate) struct Calls<'b> {
    decider: Decider<'b>,
    /// How many entries the last command's batch had.
    batch: usize,
}

/// What a command is answered, and how many entries its batch has, which is given out.
pub(crate) fn ask<P: Policy>(
    decider: &mut Decider,
    terminal: Terminal,
    number: Number,
    body: &Body,
    policy: &P,
) -> (Reply, usize) {
    if decider.pending() >= 63 {
        return (Reply::Unknown, 0);
    }
    let reply = decider.decide(terminal, number, body, policy);
    (reply, decider.seal().len())
}

/// Whether a call is between two floors of the building.
fn are_inside(building: &Building, call: &NewCall) -> bool
    ensures { IsTrue result → (call.now.from < building.now.floors)
        × (call.now.to < building.now.floors) }
{
    let floors = building.floors();
    call.from.get() < floors && call.to.get() < floors
}

/// The car that a policy picks for a call, none where none is eligible.
fn pick<P: Policy>(decider: &Decider, policy: &P, call: &NewCall) -> Option<Letter> {
    let building = decider.building();
    if !are_inside(building, call) {
        return None;
    }
    let _possible = decider.register();
    let view = &decider.view();
    let eligible = Eligible::among(building, view, *call)?;
    Some(policy.choose(building, view, *call, eligible))
}

/// When a car that takes a call too is where its passengers wait, in ms.
fn wait_of(building: &Building, view: &View, call: &NewCall, car: Letter) -> Option<u64> {
    let schedule = view.schedule(car)?;
    if schedule.rows().len() > 32 {
        return None;
    }
    let row = waiting_row(call);
    let halts = schedule.halts_with(&row);
    let halt = Halt {
        pass: pass_of(&row, schedule.position()),
        floor: call.from,
    };
    Some(arrival_at(building, schedule.position(), &halts, &halt))
}

fn push_car(car: Option<Letter>, came: &mut Came) {
    match car {
        Some(car) => came.word(car),
        None => came.word("none"),
    }
}

/// What a policy that is shipped picks, by itself and as one of those that are shipped.
fn push_pick(decider: &Decider, shipped: Shipped, call: &NewCall, came: &mut Came) {
    let car = match shipped {
        Shipped::Etd(policy) => pick(decider, &policy, call),
        Shipped::FewestOpen(policy) => pick(decider, &policy, call),
        Shipped::ShortestWait(policy) => pick(decider, &policy, call),
    };
    came.both_ways(pick(decider, &shipped, call) == car);
    push_car(car, came);
}

/// What a call costs each car that may take it, in ms.
fn push_costs(decider: &Decider, call: &NewCall, came: &mut Came) -> Option<()> {
    let building = decider.building();
    if !are_inside(building, call) {
        return None;
    }
    let _possible = decider.register();
    let view = &decider.view();
    let Some(eligible) = Eligible::among(building, view, *call) else {
        came.word("none");
        return Some(());
    };
    for car in eligible.letters() {
        came.word(*car);
        came.joined('=');
        came.joined(Etd::cost(building, view, call, *car).unwrap_or(0));
    }
    Some(())
}

impl<'b> Calls<'b> {
    pub(crate) fn new(building: &'b Building) -> Self {
        Calls {
            decider: Decider::new(building),
            batch: 0,
        }
    }

    /// `group asks K0 1 call 5 x2`: what a terminal is answered, where calls go by a policy.
    fn ask_by<P: Policy>(&mut self, policy: &P, words: &[&str], came: &mut Came) -> Option<()> {
        let (who, words) = words.split_first()?;
        let (number, body) = words.split_first()?;
        let (who, number) = (terminal_of(who)?, number_of_word(number)?);
        let (reply, batch) = ask(&mut self.decider, who, number, &body_of(body)?, policy);
        self.batch = batch;
        came.word(reply);
        Some(())
    }

    /// `group wait A 5 2`: until the car would be where a new call starts, in ms.
    fn wait(&self, car: Letter, call: &NewCall, came: &mut Came) -> Option<()> {
        let view = self.decider.view();
        came.word(wait_of(self.decider.building(), &view, call, car)?);
        Some(())
    }

    /// `group position A`.
    fn position(&self, car: Letter, came: &mut Came) {
        match self.decider.view().position(car) {
            Some(at) => came.place(at.floor, at.dir),
            None => came.word("none"),
        }
    }

    /// Commands: `group asks ..` by the least cost, others by other policies; `group crowd 0 to 496`,
    /// the calls of a fixed list, by the fewest open calls, of which so many found a car; and `group
    /// commands 500 from 7`, a fixed list of commands, after each of which each car's schedule is as
    /// from nothing.
    pub(crate) fn answer(&mut self, words: &[&str], came: &mut Came) -> Option<()> {
        match words {
            ["asks", command @ ..] => return self.ask_by(&Etd, command, came),
            ["highest", command @ ..] => return self.ask_by(&Highest, command, came),
            ["in-turn", command @ ..] => return self.ask_by(&InTurn, command, came),
            ["crowd", from, _to, to] => {
                let (from, to) = (number_up_to(from, 1000)?, number_up_to(to, 1000)?);
                came.word(crowd::call(&mut self.decider, from, to));
            }
            ["commands", count, _from, seed] => {
                let (count, seed) = (number_up_to(count, 10_000)?, number_up_to(seed, u32::MAX)?);
                let decider = &mut self.decider;
                came.yes_or_no(crowd::are_commands_as_from_nothing(decider, count, seed));
            }
            _ => return self.asked(words, came),
        }
        Some(())
    }

    /// What is asked of the group.
    fn asked(&self, words: &[&str], came: &mut Came) -> Option<()> {
        match words {
            ["picks", "highest", call @ ..] => {
                push_car(pick(&self.decider, &Highest, &call_of(call)?), came);
            }
            ["picks", name, call @ ..] => {
                push_pick(&self.decider, Shipped::named(name)?, &call_of(call)?, came);
            }
            ["costs", call @ ..] => push_costs(&self.decider, &call_of(call)?, came)?,
            ["wait", car, call @ ..] => self.wait(letter_of_word(car)?, &call_of(call)?, came)?,
            ["position", car] => self.position(letter_of_word(car)?, came),
            ["batch"] => came.word(self.batch),
            _ => return registers::asked(self.decider.register(), words, came),
        }
        Some(())
    }
}
