//! A sealed batch: the commands of one scan with their replies, and the entries that they add.
ghost use Rattle.std.specs.Prelude.{◌≡◌, length};
ghost use Rattle.lift_register.specs.Fits.{FitFrom};
ghost use Rattle.lift_clerk.specs.TakenAndAnswered.{AreApart};
ghost use Rattle.lift_parts.specs.Batch.{AreBelow, AreNoted, IsDecided, commands_in, turns_of};

use crate::basis::Basis;
use arrayvec::ArrayVec;
use lift_base::{Entry, MOST_ENTRIES};
use lift_building::Building;
use lift_desk::{Desk, TakeSeat};
use lift_parts::NotedCommand;
use std::marker::Model;
use std::snapshot::Snapshot;

/// What one scan took and decided. Contracts also see in which building it was decided, what
/// decisions read before it and after it, at which desk it was taken, and the turn of the last ask
/// that was taken before, of each terminal.
#[derive(Drop)]
pub struct Batch {
    commands: ArrayVec<NotedCommand, MOST_ENTRIES>,
    entries: ArrayVec<Entry, MOST_ENTRIES>,
    building: Snapshot<Building>,
    before: Basis,
    after: Basis,
    desk: Snapshot<Desk>,
    seats: Snapshot<TakeSeat>,
}

impl Model for Batch {
    ghost use Rattle.lift_parts.specs.Batch.{BatchState, IsLawfulBatch};

    ghost Value = { BatchState };

    ghost use Rattle.lift_relay.specs.BatchInside.{seen};

    ghost view = { seen };

    ghost invariant = { λ b. IsLawfulBatch (seen b) };
}

impl Batch {
    ghost use Rattle.lift_relay.specs.BatchInside.{batch_taken};

    /// A batch that was decided in this building from one state to another, of commands that these
    /// seats of this desk took next.
    pub(crate) fn new(
        commands: ArrayVec<NotedCommand, MOST_ENTRIES>,
        entries: ArrayVec<Entry, MOST_ENTRIES>,
        building: &Building,
        before: Basis,
        after: Basis,
        desk: &Desk,
        seats: Snapshot<TakeSeat>,
    ) -> Self
        requires fits { FitFrom building.now before.register entries.items }
        requires at_desk { AreBelow (length desk.now) (commands_in commands.items) }
        requires apart { AreApart (commands_in commands.items) }
        requires noted { AreNoted desk.now (turns_of seats.value) commands.items }
        requires decided { IsDecided
            (batch_taken commands.items entries.items building.now before after desk.now
            seats.value) }
        ensures { result
            ≡ batch_taken commands.items entries.items building.now before after desk.now
            seats.value }
    {
        Batch {
            commands,
            entries,
            building: Snapshot::of(building),
            before,
            after,
            desk: Snapshot::of(desk),
            seats,
        }
    }

    /// What was accepted of it, in its order. It fits where it was decided, and the replies are
    /// those of the same run.
    pub fn entries(&self) -> &ArrayVec<Entry, MOST_ENTRIES>
        ensures value { result.now.items ≡ self.now.entries }
        ensures fits { FitFrom self.now.building self.now.before.register self.now.entries }
        ensures decided { IsDecided self.now }
        ensures at_desk { AreBelow (length self.now.desk) (commands_in self.now.commands) }
        ensures apart { AreApart (commands_in self.now.commands) }
    {
        &self.entries
    }
    /// What was taken, by rising terminal, at most one command of each.
    pub fn into_commands(self) -> ArrayVec<NotedCommand, MOST_ENTRIES>
        ensures value { result.items ≡ self.commands }
        ensures at_desk { AreBelow (length self.desk) (commands_in self.commands) }
        ensures noted { AreNoted self.desk self.turns self.commands }
    {
        self.commands
    }
}
