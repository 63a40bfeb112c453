//! How the accepting of connections is over.

ghost use Rattle.std.specs.Prelude.{◌≡◌, ◌≤◌, Result, Ok, Err, Some, None, IfOk, IfErr, IfSome, IsErr};
ghost use Rattle.std.specs.Prelude.{IsSome, true, is_ok, ◌↔◌};
ghost use Rattle.lift_relay.specs.declared.pair.RunFault.{RunFault as Fault};
ghost use Rattle.lift_serve.specs.Open.{EndedState, IsEndAt};

use crate::prepared::connections::Connections;
use crate::prepared::hall::Hall;
use crate::prepared::terms::ServingTerms;
use crate::relaying::Parts;
use lift_disk::Disk;
use lift_policy::Policy;
use lift_relay::{RunFault, Witness};
use std::marker::Model;
use std::snapshot::Snapshot;
use std::thread::{Promise, PromisedHandle, Scope};

/// Evidence that no more connections are accepted in a serving that is bound so: all have ended
/// that were to end, or all are given up, since the serving itself was refused a thread, for the
/// accepting or for the allocator. Only the calls below make one: of `Connections`, which have
/// counted the ends, or where that thread was refused.
#[derive(Drop)]
pub struct Over {
    have_ended: bool,
    bound: Snapshot<ServingTerms>,
}

impl Model for Over {
    ghost use Rattle.std.specs.Prelude.{Result};
    ghost use Rattle.lift_serve.specs.Open.{EndedState, over_of};

    ghost Value = { Result EndedState (Unit {0}) };

    ghost view = { λ o. over_of o.have_ended o.bound.value };
}

impl Over {
    /// All have ended that were to end.
    pub(crate) fn last(_connections: &Connections, bound: &ServingTerms) -> Self
        requires { bound.now.sessions ≤ _connections.now.ended }
        ensures last { result ≡ Ok bound.now }
        ensures ended { IsEndAt bound.now result }
    {
        Over {
            have_ended: true,
            bound: Snapshot::of(bound),
        }
    }

    /// All were given up.
    pub(crate) fn given_up(_connections: &Connections, bound: &ServingTerms) -> Self
        requires { _connections.now.given_up ≡ true }
        ensures given_up { result ≡ Err tt }
        ensures ended { IsEndAt bound.now result }
    {
        Over {
            have_ended: false,
            bound: Snapshot::of(bound),
        }
    }

    /// By what all are given up after a run of both parts that came to this: that the allocator had
    /// no thread.
    pub(crate) fn by(bound: &ServingTerms, fault: Option<RunFault>) -> Option<Self>
        ensures only { IsSome result ↔ (fault ≡ Some (Fault.Spawn tt)) }
        ensures given_up { IfSome result IsErr }
    {
        match fault {
            Some(RunFault::Spawn(_)) => Some(Over {
                have_ended: false,
                bound: Snapshot::of(bound),
            }),
            Some(RunFault::Keeper(_)) => None,
            None => None,
        }
    }

    /// Whether all have ended that were to end; else all were given up.
    pub(crate) fn have_ended(&self) -> bool
        ensures { result ≡ is_ok self.now }
    {
        self.have_ended
    }
}

/// What a thread for the accepting promises, which shares this: that it returns once all connections
/// have ended that are to end, or all were given up.
impl<'a, 'd, 'b> Promise<Over> for &'a Hall<'d, 'b> {
    ghost use Rattle.lift_serve.specs.Open.{IsEndAt};

    ghost kept_by = { λ hall over. IsEndAt hall.now.bound over };
}

/// A thread of a scope for the accepting, which returns once that is over. Who has both parts starts
/// it beside them. Where it is refused, nobody is let in.
pub(crate) fn start_accepting<'s, 'a, 'd, 'b, E, F, D, P, K, V>(
    scope: &Scope<'s, E>,
    _parts: &Parts<'_, '_, D, P, K, V>,
    hall: &'a Hall<'d, 'b>,
    work: F,
) -> Result<PromisedHandle<Over, &'a Hall<'d, 'b>>, Over>
where
    F: FnOnce() -> Over + Send + Drop + 's,
    D: Disk + Drop,
    P: Policy + Drop,
    K: Drop,
    V: Witness + Drop,
    requires runs { F.pre work }
    requires keeps { (over : Result EndedState (Unit {0})) → F.post work over
        → IsEndAt hall.now.bound over }
    ensures promised { IfOk result (λ child. child.promise ≡ hall.entry) }
    ensures given_up { IfErr result IsErr }
{
    match scope.spawn_with(hall, work) {
        Ok(child) => Ok(child),
        Err(_) => Err(Over {
            have_ended: false,
            bound: Snapshot::of(&hall.bound),
        }),
    }
}
