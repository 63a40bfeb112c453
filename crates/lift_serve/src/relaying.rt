//! A clerk's work in two parts.

ghost use Rattle.std.specs.Prelude.{Some};
ghost use Rattle.lift_parts.specs.Parts.{AreOfOne};
ghost use Rattle.lift_relay.specs.Notified.{FailureNotified};
ghost use Rattle.lift_relay.specs.declared.pair.RunFault.{RunFault as Fault};
ghost use Rattle.lift_serve.specs.Relaying.{HaveRunOrNot};

use lift_disk::Disk;
use lift_policy::Policy;
use lift_relay::{Allocator, Flusher, Witness};

/// Both parts of one clerk. Who is generic in their key can have them turn, and no more: whatever it waits
/// for, each turn kept all that was answered before it.
#[derive(Drop)]
pub struct Parts<'d, 'b, D: Disk + Drop, P: Policy + Drop, K: Drop, V: Witness + Drop> {
    pub allocator: Allocator<'d, 'b, P>,
    pub flusher: Flusher<'d, 'b, D, K>,
    /// Who is notified that the device fails.
    pub witness: V,
    ghost of_one: { AreOfOne allocator flusher },
}

/// Both parts, which have not run.
#[tactic(auto, using(crate::proofs::Relayings::not_run, lift_relay::specs::lemmas::Notified::notified_none))]
pub(crate) fn unrun<'d, 'b, D: Disk + Drop, P: Policy + Drop, K: Drop, V: Witness + Drop>(
    parts: Parts<'d, 'b, D, P, K, V>,
) -> Parts<'d, 'b, D, P, K, V>
    ensures unrun { HaveRunOrNot (P.chooses parts.entry.allocator.policy) D.state parts.entry.allocator
        result.allocator parts.entry.flusher result.flusher (Some (Fault.Spawn tt)) }
    ensures notified { FailureNotified V.is_notified parts.entry.flusher.writer.is_broken
        result.flusher.writer.is_broken parts.entry.witness result.witness }
{
    parts
}
