//! A flusher's turn as the machine of events takes it, and what turns of both parts keep.

ghost use Rattle.std.specs.Prelude.{◌≡◌, ◌⊎◌, List, Ok, Err, IfOk};
ghost use Rattle.lift_base.specs.declared.history.Entry.{Entry};
ghost use Rattle.lift_world.specs.declared.event.Taken.{Taken};
ghost use Rattle.lift_world.specs.World.{World};
ghost use Rattle.lift_clerk.specs.Group.{Terminals, TakesAsks};
ghost use Rattle.lift_clerk.specs.Past.{IsPastOf};
ghost use Rattle.lift_parts.specs.Batch.{BatchState};
ghost use Rattle.lift_parts.specs.Flusher.{IsEmptyTurn};
ghost use Rattle.lift_parts.specs.Tie.{Flushes, FlushFails, FlushesBroken};
ghost use Rattle.lift_parts.specs.Turns.{IsFlush};
ghost use Rattle.lift_parts.specs.History.{group_after};
ghost use Rattle.lift_parts.specs.Past.{FlushLeadsOn};
ghost use Rattle.lift_relay.specs.Notified.{FailureNotified};
ghost use Rattle.lift_relay.specs.Pair.{TurnsPreserveParts};

use crate::flusher::Flusher;
use crate::witness::{Notifies, Witness};
use lift_disk::Disk;
use lift_journal::JournalFault;
use lift_keeper::KeeperFault;
use lift_parts::{FlushCounts, flushes_are_steps};
use lift_policy::Policy;
use std::sync::Wait;

/// One turn of the flusher, with what it gives for the machine's turns.
pub fn turn_flusher_once<R: Wait, D: Disk, K: Notifies<V>, V: Witness>(
    rt: &R,
    flusher: &mut Flusher<'_, '_, D, K>,
    witness: &mut V,
) -> Result<FlushCounts, KeeperFault>
    // The turn of which a run tells.
    ensures turns { IsFlush D.state flusher.old flusher.new result }
    ensures notified { FailureNotified V.is_notified
        flusher.old.writer.is_broken flusher.new.writer.is_broken witness.old witness.new }
    ensures flushes { IfOk result (λ counts. IsEmptyTurn flusher.old flusher.new (Ok counts)
        ⊎ ((batch : BatchState) × Flushes flusher.old flusher.new batch counts)) }
    ensures fails { result ≡ Err (KeeperFault.Journal JournalFault.Disk)
        → (batch : BatchState) × FlushFails flusher.old flusher.new batch }
    ensures rests { result ≡ Err (KeeperFault.Journal JournalFault.Broken)
        → IsEmptyTurn flusher.old flusher.new (Err (KeeperFault.Journal JournalFault.Broken))
        ⊎ ((batch : BatchState) × FlushesBroken flusher.old flusher.new batch) }
    // It is a step of its group's past, in each world that this may be in.
    ensures past { (w : World) (terminals : Terminals) (safe : List Entry) (given : List Taken)
        → IsPastOf w (group_after flusher.old) terminals safe given
        → TakesAsks (group_after flusher.new) terminals
        → FlushLeadsOn flusher.old flusher.new result w terminals safe given }
{
    flushes_are_steps::<D>();
    flusher.turn(rt, witness)
}

/// Whatever turns both parts have had, each is where it was and works for what it did. So parts that
/// come of one split still do: they can be joined, told or run.
pub fn turns_preserve_parts<D: Disk, P: Policy>()
    ensures { (policy : P) → TurnsPreserveParts D P D.state (P.chooses policy) }
{}
