//! The calls and the cars of a lift group, as decisions change them.

ghost use Rattle.std.specs.Prelude.{◌≡◌, ◌<◌, ◌∷◌, ◌++◌, [], false, length};
ghost use Rattle.lift_base.specs.declared.history.Record.TheVariants.{Entry as EntryRecord};
ghost use Rattle.lift_base.specs.Records.{IsRecord};
ghost use Rattle.lift_base.specs.declared.history.Entry.{Entry as EntryValue};
ghost use Rattle.lift_register.specs.Prelude.{waiting_row, register_of, Fits};
ghost use Rattle.lift_register.specs.Prelude.{IsWellFormed};
ghost use Rattle.lift_policy.specs.Step.{view_of, accepting, with_car_at, next_from};
ghost use Rattle.lift_policy.specs.Laws.{IsStateIn};
ghost use Rattle.lift_decider.specs.Decider.{IsBatch, IsRegisterIn, starting};

use crate::schedules::{insert, list_halts, serve, stand};
use arrayvec::ArrayVec;
use lift_base::{
    Entry, LAST_CAR, LAST_TERMINAL, Letter, MOST_CARS, MOST_ENTRIES, Number, Position, Row, Stop,
};
use lift_building::Building;
use lift_cost::NewCall;
use lift_policy::{Command, Eligible, View};
use lift_register::Register;
use lift_stops::Schedule;
use std::marker::Model;

/// An entry joins the register and the batch. Where the answer is no, it changes no open call.
fn join(
    building: &Building,
    register: &mut Register,
    batch: &mut ArrayVec<Entry, MOST_ENTRIES>,
    entry: &Entry,
) -> bool
    requires fits { Fits building.now register.old entry.now }
    requires inside { IsRegisterIn building.now register.old }
    requires room { length batch.old.items < MOST_ENTRIES }
    ensures value { register.new ≡ register_of register.old (entry.now ∷ []) }
    ensures was { IsWellFormed register.old }
    ensures lawful { IsWellFormed register.new }
    ensures inside { IsRegisterIn building.now register.new }
    ensures batch { batch.new.items ≡ batch.old.items ++ entry.now ∷ [] }
    ensures written { IsRecord (EntryRecord entry.now) }
    ensures unchanged { result ≡ false → register.new.rows ≡ register.old.rows }
{
    let changes = register.apply(building, entry);
    batch.push(*entry);
    changes
}

/// What decisions read and change: the calls, for each car that has reported where it is its open
/// calls in the order in which it serves them, and the entries that were accepted and not given
/// out.
#[derive(Drop)]
pub struct Group {
    pub register: Register,
    pub schedules: [Option<Schedule>; MOST_CARS],
    pub batch: ArrayVec<Entry, MOST_ENTRIES>,
}

impl Model for Group {
    ghost use Rattle.lift_policy.specs.Step.{State};
    ghost use Rattle.lift_policy.specs.View.{AreSchedulesOf};
    ghost use Rattle.lift_decider.specs.Decider.{state_of, IsBatch};

    ghost Value = { State };

    ghost view = { λ g. state_of g.register g.schedules g.batch.items };

    ghost invariant = { λ g. AreSchedulesOf g.register g.schedules × IsBatch g.batch.items };
}

impl Group {
    /// These calls; no car has reported where it is.
    pub fn of(register: Register) -> Self
        ensures { result ≡ starting register }
    {
        Group {
            register,
            schedules: Default::default(),
            batch: ArrayVec::new(),
        }
    }

    /// What a policy sees.
    pub fn view(&self) -> View
        ensures { result ≡ view_of self.now }
    {
        View::new(&self.register, &self.schedules)
    }

    /// Each car's schedule lists its halts, so that a policy weighs a new call of several cars by
    /// them. (No clause says that it does.)
    pub fn list_halts(&mut self, among: &Eligible)
        ensures { self.new ≡ self.old }
    {
        if among.letters().len() > 1 {
            list_halts(&mut self.schedules);
        }
    }

    /// Gives the batch out.
    pub fn seal(&mut self) -> ArrayVec<Entry, MOST_ENTRIES>
        ensures batch { result.items ≡ self.old.batch }
        ensures lawful { IsBatch result.items }
        ensures kept { self.new ≡ record self.old { batch = [] } }
    {
        self.batch.take()
    }

    /// The batch begins again.
    pub fn clear_batch(&mut self)
        ensures { self.new ≡ record self.old { batch = [] } }
    {
        self.batch.clear();
    }

    /// A new call goes to this car.
    pub fn allot(&mut self, building: &Building, command: &Command, call: &NewCall, car: Letter)
        requires fits { Fits building.now self.old.register
            (EntryValue.Allot command.now.terminal command.now.number call.now.from call.now.to car
            call.now.party) }
        requires inside { IsStateIn building.now self.old }
        requires room { length self.old.batch < MOST_ENTRIES }
        ensures state { self.new
            ≡ accepting self.old (EntryValue.Allot command.now.terminal command.now.number
            call.now.from call.now.to car call.now.party) }
        ensures inside { IsStateIn building.now self.new }
    {
        let row = row_of(command, call, car);
        let entry = row.allotment();
        prove!(command.terminal.get() <= LAST_TERMINAL && car.get() <= LAST_CAR);
        join(building, &mut self.register, &mut self.batch, &entry);
        let place = usize::from(car.get());
        insert(&mut self.schedules[place], &row);
    }

    /// A car stands at a position.
    pub fn stand(&mut self, car: Letter, position: Position) -> Option<Stop>
        requires cars { length self.old.positions ≡ MOST_CARS }
        ensures state { self.new ≡ with_car_at self.old car position.floor position.dir }
        ensures next { result ≡ next_from self.new car position.floor position.dir }
    {
        let place = usize::from(car.get());
        let schedule = &mut self.schedules[place];
        stand(&self.register, car, schedule, &position)
    }

    /// A car made a stop of a new number.
    pub fn serve(
        &mut self,
        building: &Building,
        number: Number,
        car: Letter,
        stop: Stop,
    ) -> Option<Stop>
        requires fits { Fits building.now self.old.register
            (EntryValue.Stop car number stop.floor stop.dir) }
        requires inside { IsStateIn building.now self.old }
        requires room { length self.old.batch < MOST_ENTRIES }
        ensures state { self.new
            ≡ with_car_at (accepting self.old (EntryValue.Stop car number stop.floor stop.dir)) car
            stop.floor stop.dir }
        ensures next { result ≡ next_from self.new car stop.floor stop.dir }
        ensures inside { stop.floor < building.now.floors → IsStateIn building.now self.new }
    {
        let stop = &stop;
        let entry = Entry::Stop {
            car,
            number,
            floor: stop.floor,
            dir: stop.dir,
        };
        let changes = join(building, &mut self.register, &mut self.batch, &entry);
        let place = usize::from(car.get());
        let schedule = &mut self.schedules[place];
        serve(&self.register, car, schedule, stop, changes)
    }
}

/// The open call that a new call is once it is allotted.
fn row_of(command: &Command, call: &NewCall, car: Letter) -> Row
    ensures { result ≡ waiting_row command.now.terminal command.now.number call.now.from call.now.to
        car call.now.party }
{
    Row {
        kiosk: command.terminal,
        number: command.number,
        from: call.from,
        to: call.to,
        car,
        party: call.party,
        aboard: false,
    }
}
