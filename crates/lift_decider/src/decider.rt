//! Decisions of the rules.

ghost use Rattle.std.specs.Prelude.{◌≡◌, ◌<◌, ◌≤◌, ◌+◌, [], All, Contains, length};
ghost use Rattle.lift_base.specs.declared.history.Record.TheVariants.{Entry as EntryRecord};
ghost use Rattle.lift_base.specs.Records.{IsRecord};
ghost use Rattle.lift_base.specs.declared.history.Entry.{Entry as EntryValue};
ghost use Rattle.lift_base.specs.declared.command.Reply.{Reply as ReplyValue};
ghost use Rattle.lift_register.specs.Prelude.{BelongsTo, IsBalanced, IsWellFormed};
ghost use Rattle.lift_policy.specs.View.{positions_of, AreSchedulesOf, IsViewIn};
ghost use Rattle.lift_policy.specs.Eligible.{AreEligible};
ghost use Rattle.lift_policy.specs.Step.{Step, view_of};
ghost use Rattle.lift_policy.specs.Verdict.{IsVerdict};
ghost use Rattle.lift_policy.specs.declared.verdict.Verdict.{Verdict as VerdictValue};
ghost use Rattle.lift_decider.specs.Decider.{IsPossible, nothing, starting};

use crate::group::Group;
use arrayvec::ArrayVec;
use lift_base::{
    Body, Entry, LEAST_HALF, Letter, MOST_CARS, MOST_ENTRIES, Number, Reply, Terminal,
};
use lift_building::Building;
use lift_cost::NewCall;
use lift_policy::{Command, Eligible, Policy, Verdict, View};
use lift_register::Register;
use lift_stops::Schedule;
use std::marker::Model;

/// Decides commands on the register that it shows, and gathers the entries that they add.
#[derive(Drop)]
pub struct Decider<'b> {
    building: &'b Building,
    group: Group,
}

impl<'b> Model for Decider<'b> {
    ghost use Rattle.lift_decider.specs.Decider.{DeciderState, IsPossible};

    ghost Value = { DeciderState };

    ghost view = { λ d. record { plan = d.building.now; state = d.group } };

    ghost invariant = { λ d. IsPossible d.building.now d.group };
}

impl<'b> Decider<'b> {
    /// A decider without calls, in which no car has reported where it is.
    pub fn new(building: &'b Building) -> Self
        ensures { result ≡ record { plan = building.now; state = nothing } }
    {
        Decider::of(building, Register::empty(building.shape(LEAST_HALF)))
    }

    /// A decider that goes on from these calls, in which no car has reported where it is.
    pub fn of(building: &'b Building, register: Register) -> Self
        requires belongs { BelongsTo building.now register }
        requires balanced { IsBalanced register }
        ensures { result ≡ record { plan = building.now; state = starting register } }
    {
        let _floors = building.floors();
        let _done = register.done();
        let group = Group::of(register);
        Decider { building, group }
    }

    /// The building that it decides for.
    pub fn building(&self) -> &'b Building
        ensures { result.now ≡ self.now.plan }
    {
        self.building
    }

    /// What it shows of the calls: those of all entries that were accepted, also of those that are
    /// still in the batch.
    pub fn register(&self) -> &Register
        ensures value { result.now ≡ self.now.state.register }
        ensures lawful { IsWellFormed result.now }
        ensures belongs { BelongsTo self.now.plan result.now }
        ensures balanced { IsBalanced result.now }
        ensures possible { IsPossible self.now.plan self.now.state }
    {
        &self.group.register
    }

    /// The schedules of the cars that have reported where they are, each with its car's open calls.
    pub fn schedules(&self) -> &[Option<Schedule>; MOST_CARS]
        ensures positions { positions_of result.now ≡ self.now.state.positions }
        ensures own { AreSchedulesOf self.now.state.register result.now }
    {
        &self.group.schedules
    }

    /// What a policy sees.
    pub fn view(&self) -> View
        ensures { result ≡ view_of self.now.state }
    {
        self.group.view()
    }

    /// How many entries the batch has, at most 63.
    pub fn pending(&self) -> usize
        ensures value { result ≡ length self.now.state.batch }
        ensures limit { result ≤ MOST_ENTRIES }
    {
        self.group.batch.len()
    }

    /// The batch so far: each of its entries can be written.
    pub fn batch(&self) -> &ArrayVec<Entry, MOST_ENTRIES>
        ensures value { result.now.items ≡ self.now.state.batch }
        ensures written { All (λ (e : EntryValue). IsRecord (EntryRecord e)) result.now.items }
    {
        &self.group.batch
    }

    /// The batch begins again. The register and the positions stay.
    pub fn clear_batch(&mut self)
        ensures { self.new ≡ record {
          plan = self.old.plan;
          state = record self.old.state { batch = [] };
        } }
    {
        self.group.clear_batch();
    }

    /// Gives the batch out, and keeps the register and the positions.
    pub fn seal(&mut self) -> ArrayVec<Entry, MOST_ENTRIES>
        ensures batch { result.items ≡ self.old.state.batch }
        ensures limit { length result.items ≤ MOST_ENTRIES }
        ensures written { All (λ (e : EntryValue). IsRecord (EntryRecord e)) result.items }
        ensures kept { self.new ≡ record {
          plan = self.old.plan;
          state = record self.old.state { batch = [] };
        } }
    {
        self.group.seal()
    }

    /// A new call goes to the car that the policy names of those that may take it.
    fn allot<P: Policy>(
        &mut self,
        command: &Command,
        call: &NewCall,
        eligible: Eligible,
        policy: &P,
    ) -> Letter
        requires verdict { IsVerdict self.old.plan self.old.state command.now.terminal
            command.now.number command.now.body (VerdictValue.Call call.now eligible) }
        requires room { length self.old.state.batch < MOST_ENTRIES }
        ensures plan { self.new.plan ≡ self.old.plan }
        ensures step { Step self.old.plan (P.chooses policy.now) self.old.state command.now.terminal
            command.now.number command.now.body (ReplyValue.Car result) self.new.state }
    {
        self.group.list_halts(&eligible);
        let car = chosen(self.building, &self.group, call, eligible, policy);
        self.group.allot(self.building, command, call, car);
        car
    }

    /// Decides a command: one decision of the rules, where this policy names the car of a new call.
    /// A new call or stop joins the batch, which must have room for it.
    // (in its caller: a copy of a body waits for its bytes, which were just written one by one)
    #[inline(always)]
    pub fn decide<P: Policy>(
        &mut self,
        terminal: Terminal,
        number: Number,
        body: &Body,
        policy: &P,
    ) -> Reply
        requires room { length self.old.state.batch < MOST_ENTRIES }
        ensures plan { self.new.plan ≡ self.old.plan }
        ensures step { Step self.old.plan (P.chooses policy.now) self.old.state terminal number
            body.now result self.new.state }
        ensures grows { length self.new.state.batch ≤ length self.old.state.batch + 1 }
    {
        let command = Command {
            terminal,
            number,
            body: *body,
        };
        self.carry_out(&command, policy)
    }

    /// One decision of the rules.
    // (most terminals of a turn ask nothing: apart from their loop it leaves that its registers)
    #[inline(never)]
    fn carry_out<P: Policy>(&mut self, command: &Command, policy: &P) -> Reply
        requires room { length self.old.state.batch < MOST_ENTRIES }
        ensures plan { self.new.plan ≡ self.old.plan }
        ensures step { Step self.old.plan (P.chooses policy.now) self.old.state command.now.terminal
            command.now.number command.now.body result self.new.state }
        ensures grows { length self.new.state.batch ≤ length self.old.state.batch + 1 }
    {
        match verdict_of(self.building, &self.group, command) {
            Verdict::Refused(reason) => Reply::Refused(reason),
            Verdict::Call(call, eligible) => {
                Reply::Car(self.allot(command, &call, eligible, policy))
            }
            Verdict::RepeatedCall(car) => Reply::Car(car),
            Verdict::Stop(car, stop) => {
                Reply::Stopped(self.group.serve(self.building, command.number, car, stop))
            }
            Verdict::RepeatedStop(car, position) => Reply::Stopped(self.group.stand(car, position)),
            Verdict::Place(car, position) => Reply::Placed(self.group.stand(car, position)),
        }
    }
}

/// What the rules make of a command now.
fn verdict_of(building: &Building, group: &Group, command: &Command) -> Verdict
    ensures { IsVerdict building.now group.now command.now.terminal command.now.number
        command.now.body result }
{
    let view = group.view();
    Verdict::of(building, &view, command)
}

/// The car that the policy names for a call.
fn chosen<P: Policy>(
    building: &Building,
    group: &Group,
    call: &NewCall,
    eligible: Eligible,
    policy: &P,
) -> Letter
    requires possible { IsViewIn building.now (view_of group.now) }
    requires from { call.now.from < building.now.floors }
    requires to { call.now.to < building.now.floors }
    requires eligible { AreEligible building.now (view_of group.now) call.now eligible }
    ensures member { Contains eligible result }
    ensures chosen { P.chooses policy.now building.now (view_of group.now) call.now eligible result }
{
    let view = group.view();
    policy.choose(building, &view, *call, eligible)
}
