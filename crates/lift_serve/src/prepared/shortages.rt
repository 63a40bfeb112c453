//! What a serving runs short of: it is known only from the call that was refused it.

ghost use Rattle.std.specs.Prelude.{◌≡◌, ◌≤◌, ◌++◌, ◌∷◌, [], OnOk, OnErr};
ghost use Rattle.std.specs.Prelude.{IfErr, IfOk, vec_len, vec_capacity};
ghost use Rattle.std.specs.Arc.{arc_value};
ghost use Rattle.lift_serve.specs.declared.serving.ServeFault.{ServeFault};

use super::connections::{CountedEnd, DueEnd, Ticket};
use crate::serving::ServeFault;
use crate::socket::Peer;
use lift_memory::two_owners;
use std::alloc::Global;
use std::io::{BufReader, Read};
use std::marker::Model;
use std::sync::Arc;
use std::thread::Scope;

/// How much is read of a connection at once, in bytes.
const AHEAD: usize = 512;

/// Evidence that a connection was refused a thread or memory. Only the calls below that were refused it
/// make one, of which none asks for more than the serving has a use for. It can't be let go: it is noted.
pub struct Shortage {
    fault: ServeFault,
}

impl Model for Shortage {
    ghost use Rattle.lift_serve.specs.declared.serving.ServeFault.{ServeFault};

    ghost Value = { ServeFault };

    ghost view = { λ s. s.fault };
}

impl Shortage {
    /// Of what a call of this file was refused.
    fn of(fault: ServeFault) -> Self
        ensures { result ≡ fault }
    {
        Shortage { fault }
    }

    /// What was refused. Only `Connections` can ask, which note it.
    pub(super) fn noted(self) -> ServeFault
        ensures { result ≡ self }
    {
        let Shortage { fault } = self;
        fault
    }
}

/// Two that have a connection's other side.
pub(crate) fn share(alloc: Global, peer: Peer) -> Result<(Arc<Peer>, Arc<Peer>), Shortage>
    ensures both { IfOk result (λ both. (arc_value both.0 ≡ peer) × (arc_value both.1 ≡ peer)) }
    ensures lack { IfErr result (λ shortage. shortage ≡ ServeFault.Memory) }
{
    match two_owners(alloc, peer) {
        Ok(both) => Ok(both),
        Err(_) => Err(Shortage::of(ServeFault::Memory)),
    }
}

/// A reader that reads 512 bytes at once, for whoever was let in with this ticket. Where it is refused
/// that is used up, so nobody asks for a seat.
pub(crate) fn read_ahead<I: Read + Drop>(
    alloc: Global,
    ticket: Ticket,
    reader: I,
) -> Result<(Ticket, BufReader<I>), Shortage>
    ensures lack { IfErr result (λ shortage. shortage ≡ ServeFault.Memory) }
{
    match BufReader::with_capacity(alloc, AHEAD, reader) {
        Ok(ahead) => Ok((ticket, ahead)),
        Err(_) => Err(Shortage::of(ServeFault::Memory)),
    }
}

/// One value more. It is refused only where there is no room for it.
pub(crate) fn push<T: Drop>(values: &mut Vec<T>, value: T) -> Result<(), Shortage>
    ensures pushed { OnOk result (values.new.items ≡ values.old.items ++ value ∷ []) }
    ensures unchanged { OnErr result (values.new.items ≡ values.old.items) }
    ensures full { OnErr result (vec_capacity values.old ≤ vec_len values.old) }
    ensures lack { IfErr result (λ shortage. shortage ≡ ServeFault.Memory) }
{
    match values.push(value) {
        Ok(()) => Ok(()),
        Err(_) => Err(Shortage::of(ServeFault::Memory)),
    }
}

/// A thread of a scope for a connection that was let in, which returns once its end is counted.
pub(crate) fn start_session<'s, E, F: FnOnce() -> CountedEnd + Send + Drop + 's>(
    scope: &Scope<'s, E>,
    awaited: DueEnd,
    work: F,
) -> Result<(), (DueEnd, Shortage)>
    requires { F.pre work }
    ensures back { IfErr result (λ refused. refused.0 ≡ awaited) }
    ensures lack { IfErr result (λ refused. refused.1 ≡ ServeFault.Thread) }
{
    let Ok(child) = scope.spawn(work) else {
        return Err((awaited, Shortage::of(ServeFault::Thread)));
    };
    awaited.counted_by(child);
    Ok(())
}
