//! Decisions, and the batch that makes them safe.

ghost use Rattle.std.specs.Prelude.{◌≡◌, ◌<◌, ◌≤◌, ◌+◌, ◌⊎◌, ◌↔◌, [], length, true, false, Ok};
ghost use Rattle.std.specs.Prelude.{Err, IfOk, IfErr, OnOk, OnErr};
ghost use Rattle.lift_disk.specs.Disk.{LeavesNow};
ghost use Rattle.lift_register.specs.Prelude.{register_of, BelongsTo, IsBalanced, IsWellFormed};
ghost use Rattle.lift_policy.specs.View.{positions_of, AreSchedulesOf};
ghost use Rattle.lift_policy.specs.Step.{Step, view_of};
ghost use Rattle.lift_decider.specs.Decider.{starting, IsPossible};
ghost use Rattle.lift_keeper.specs.Prelude.{IsImageOf, IsImageIn, IsInDoubt, Commits, Recovers};
ghost use Rattle.lift_keeper.specs.Prelude.{WriterOpens, RefusesReopening, CommitCalls};
ghost use Rattle.lift_keeper.specs.Prelude.{OpensByCalls, RefusedCalls, ReopeningCalls};

use crate::copies::copy_of;
use crate::fault::KeeperFault;
use crate::writer::{Safe, Writer};
use lift_base::{Body, MOST_CARS, MOST_ENTRIES, Number, Reply, Terminal};
use lift_building::Building;
use lift_decider::Decider;
use lift_disk::{Arm, Disk};
use lift_policy::{Policy, View, decisions_preserve};
use lift_register::Register;
use lift_stops::Schedule;
use std::marker::Model;

/// Decides commands, and makes what they add safe on a device.
#[derive(Drop)]
pub struct Keeper<'b, D: Disk> {
    decider: Decider<'b>,
    writer: Writer<'b, D>,
}

impl<'b, D: Disk> Model for Keeper<'b, D> {
    ghost use Rattle.lift_keeper.specs.Keeper.{KeeperView, IsKeeper};

    ghost Value = { KeeperView D };

    ghost view = { λ k. record { state = k.decider.state; writer = k.writer } };

    ghost invariant = { λ k.
        IsKeeper k.writer.plan k.decider.state k.decider.plan k.writer.register
        k.writer.is_broken };
}

impl<'b, D: Disk> Keeper<'b, D> {
    /// Opens a device that a crash may have left, with the building that its journal is of: the
    /// recovery. It writes nothing. No car has reported where it is. An `Err` hands the device
    /// back.
    ///
    /// `Journal` with the journal's faults 1 to 3, then `OtherBuilding`, then `BadEntry`;
    /// `Journal(Disk)` where a call of the device failed: of an inert one that was the last.
    pub fn open(disk: D, building: &'b Building) -> Result<Self, (D, KeeperFault)>
        ensures opens { IfOk result (λ keeper.
            WriterOpens D.state building.now (D.state disk) keeper.writer) }
        ensures state { IfOk result (λ keeper. keeper.state ≡ starting keeper.writer.register) }
        ensures refused { IfErr result (λ err.
            RefusesReopening building.now (D.state disk) (D.state err.0) err.1) }
        // The opening of its journal, and no other call; where it is refused, as far as that came.
        ensures calls { IfOk result (λ keeper.
            OpensByCalls D.state (D.state disk) keeper.writer) }
        ensures calls_before { IfErr result (λ err.
            RefusedCalls (D.state disk) (D.state err.0) err.1) }
    {
        match Writer::open(disk, building) {
            Ok(writer) => {
                let register = copy_of(building, writer.register());
                let decider = Decider::of(building, register);
                Ok(Keeper { decider, writer })
            }
            Err(refused) => Err(refused),
        }
    }

    /// Whether a call of the device has failed, and no reopening has succeeded since.
    pub fn is_broken(&self) -> bool
        ensures value { result ≡ self.now.writer.is_broken }
        ensures failed { self.now.writer.is_broken ≡ true
            → self.now.writer.failures_at_opening < (D.state self.now.writer.device).failures }
    {
        self.writer.is_broken()
    }

    /// How many entries the batch has, at most 63.
    pub fn pending(&self) -> usize
        ensures value { result ≡ length self.now.state.batch }
        ensures limit { result ≤ MOST_ENTRIES }
    {
        self.decider.pending()
    }

    /// What it shows of the calls: those of all entries that were accepted, also of those that
    /// aren't safe yet.
    pub fn register(&self) -> &Register
        ensures value { result.now ≡ self.now.state.register }
        ensures lawful { IsWellFormed result.now }
        ensures belongs { BelongsTo self.now.writer.plan result.now }
        ensures balanced { IsBalanced result.now }
        // What decisions read is possible in the building.
        ensures possible { IsPossible self.now.writer.plan self.now.state }
        ensures ahead { self.now.writer.is_broken ≡ false
            → result.now ≡ register_of self.now.writer.register self.now.state.batch }
    {
        self.decider.register()
    }

    /// The register that is safe: every crash leaves an image that reads as it. Of a broken keeper,
    /// the register that was safe before the fault, and a crash leaves all of the batch in doubt or
    /// nothing.
    pub fn safe_register(&self) -> &Register
        ensures value { result.now ≡ self.now.writer.register }
        ensures safe { self.now.writer.is_broken ≡ false
            → LeavesNow (D.state self.now.writer.device)
            (IsImageOf self.now.writer.plan result.now) }
        ensures in_doubt { self.now.writer.is_broken ≡ true
            → LeavesNow (D.state self.now.writer.device)
            (IsInDoubt self.now.writer.plan result.now self.now.writer.doubt) }
        ensures placed { self.now.writer.is_broken ≡ false
            → LeavesNow (D.state self.now.writer.device)
            (IsImageIn self.now.writer.plan self.now.writer.half self.now.writer.is_in_second_half
            self.now.writer.used result.now) }
    {
        self.writer.register()
    }

    /// The schedules of the cars that have reported where they are, each with its car's open calls:
    /// their positions, and where they stop.
    pub fn positions(&self) -> &[Option<Schedule>; MOST_CARS]
        ensures positions { positions_of result.now ≡ self.now.state.positions }
        ensures own { AreSchedulesOf self.now.state.register result.now }
    {
        self.decider.schedules()
    }

    /// The building that it decides for, which its journal is of.
    pub fn building(&self) -> &'b Building
        ensures { result.now ≡ self.now.writer.plan }
    {
        self.decider.building()
    }

    /// What a policy sees.
    pub fn view(&self) -> View
        ensures { result ≡ view_of self.now.state }
    {
        self.decider.view()
    }

    /// Decides a command: one decision of the rules, where this policy names the car of a new call.
    /// A new call or stop joins the batch, which must have room for it.
    pub fn decide<P: Policy>(
        &mut self,
        terminal: Terminal,
        number: Number,
        body: &Body,
        policy: &P,
    ) -> Reply
        requires whole { self.old.writer.is_broken ≡ false }
        requires room { length self.old.state.batch < MOST_ENTRIES }
        ensures step { Step self.old.writer.plan
            (P.chooses policy.now) self.old.state terminal number body.now result self.new.state }
        ensures grows { length self.new.state.batch ≤ length self.old.state.batch + 1 }
        ensures writer { self.new.writer ≡ self.old.writer }
    {
        decisions_preserve(policy);
        let _safe = self.writer.register();
        self.decider.decide(terminal, number, body, policy)
    }

    /// Makes the batch safe, and begins another. Where a call fails the batch stays, and is in doubt.
    pub fn commit(&mut self) -> Result<Safe, KeeperFault>
        // What a crash may leave at each moment of it, why it fails, and what stays.
        ensures commits { Commits
            D.state self.old.writer self.old.state.batch self.new.writer result }
        // How many calls the device gets, and, where one failed, what the commit leaves.
        ensures calls { CommitCalls
            D.state self.old.writer (length self.old.state.batch) self.new.writer result }
        // What is safe at Ok is what it shows.
        ensures register { OnOk result (self.new.writer.register ≡ self.old.state.register) }
        ensures begins { OnOk result (self.new.state ≡ record self.old.state { batch = [] }) }
        ensures unmoved { OnErr result (self.new.state ≡ self.old.state) }
    {
        let safe = self.writer.commit(self.decider.batch())?;
        self.decider.clear_batch();
        Ok(safe)
    }

    /// Opens it again, also after a fault: no car has reported where it is, and the batch is empty.
    /// It writes nothing, and gives the register that was safe, or that with the batch in doubt. A
    /// refusal leaves it as it was, but that a failed call leaves it broken: a later batch goes
    /// where it would have gone before.
    pub fn reopen(&mut self) -> Result<(), KeeperFault>
        ensures recovers { Recovers D.state self.old.writer self.new.writer result }
        ensures calls { ReopeningCalls D.state self.old.writer self.new.writer result }
        ensures state { OnOk result (self.new.state ≡ starting self.new.writer.register) }
        ensures unmoved { OnErr result (self.new.state ≡ self.old.state) }
    {
        self.writer.reopen()?;
        let building = self.decider.building();
        self.decider = Decider::of(building, copy_of(building, self.writer.register()));
        Ok(())
    }

    /// The device, as it is.
    pub fn into_disk(self) -> D
        ensures { result ≡ self.entry.writer.device }
    {
        self.writer.into_disk()
    }

    /// The part that decides, and the part that makes safe. The batch of a broken keeper is
    /// dropped.
    pub fn part(self) -> (Decider<'b>, Writer<'b, D>)
        requires { (self.state.batch ≡ []) ⊎ (self.writer.is_broken ≡ true) }
        ensures decider { result.0 ≡ record {
          plan = self.entry.writer.plan;
          state = record self.entry.state { batch = [] };
        } }
        ensures writer { result.1 ≡ self.entry.writer }
        ensures equal { self.entry.writer.is_broken ≡ false
            → result.0.state.register ≡ result.1.register }
    {
        let Keeper {
            mut decider,
            writer,
        } = self;
        let _safe = writer.register();
        decider.clear_batch();
        (decider, writer)
    }

    /// The two parts of a keeper together again.
    pub fn whole(decider: Decider<'b>, writer: Writer<'b, D>) -> Self
        requires plan { decider.plan ≡ writer.plan }
        requires sealed { decider.state.batch ≡ [] }
        requires equal { (writer.is_broken ≡ true) ⊎ (decider.state.register ≡ writer.register) }
        ensures { result ≡ record { state = decider.entry.state; writer = writer.entry } }
    {
        let _safe = writer.register();
        Keeper { decider, writer }
    }
}

impl<'b, D: Arm> Keeper<'b, D> {
    ghost use Rattle.lift_disk.specs.Disk.{IsUnchanged, IsArmedWith};

    /// Tells the device again which calls to fail. It changes no image.
    pub fn arm(&mut self, calls: u32)
        ensures same { IsUnchanged (D.state self.old.writer.device)
            (D.state self.new.writer.device) }
        ensures armed { IsArmedWith (D.fails_by calls (D.state self.old.writer.device).calls)
            (D.state self.new.writer.device) }
        ensures state { self.new.state ≡ self.old.state }
        ensures writer { self.new.writer
            ≡ record self.old.writer { device = self.new.writer.device } }
    {
        self.writer.arm(calls);
    }

    /// Whether a growth inside the device was refused, now or earlier.
    pub fn short(&self) -> bool
        ensures { result ≡ (D.state self.now.writer.device).is_short }
    {
        self.writer.short()
    }
}
