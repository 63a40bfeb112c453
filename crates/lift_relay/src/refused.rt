//! A thread for one of the parts, and the evidence that there is one, or that none could be made.

ghost use Rattle.std.specs.Prelude.{◌≡◌, IfOk, IfErr};

use std::marker::Model;
use std::thread::{Promise, PromisedHandle, Scope, SpawnError};

/// Evidence that no thread could be made. Only `spawn` below makes one, where it was refused the
/// thread.
#[derive(Clone, Copy, PartialEq, Eq)]
pub struct NoThread {
    made: (),
}

impl Model for NoThread {
    ghost Value = { Unit {0} };

    ghost view = { λ _. tt };

    ghost inverse = { λ _. record { made = tt } };
}

/// Evidence that both parts of a run have a thread. Only `spawn` below makes one, where it got the
/// thread, and who is told by it uses it up.
#[derive(Drop)]
pub struct BothRun {
    made: (),
}

/// A thread of a scope, for this work, whose result keeps the promise. The work comes back where no
/// thread could be made.
pub(crate) fn spawn<'s, E, P, F, T>(
    scope: &Scope<'s, E>,
    promise: P,
    work: F,
) -> Result<(PromisedHandle<T, P>, BothRun), (F, NoThread)>
where
    P: Promise<T> + Drop,
    F: FnOnce() -> T + Send + 's,
    T: Send + Drop + 's,
    requires runs { F.pre work }
    requires keeps { (made : T) → F.post work made → P.kept_by promise made }
    ensures promised { IfOk result (λ made. made.0.promise ≡ promise) }
    ensures back { IfErr result (λ refused. refused.0 ≡ work) }
{
    match scope.spawn_with(promise, work) {
        Ok(child) => Ok((child, BothRun { made: () })),
        Err(SpawnError { value }) => Err((value, NoThread { made: () })),
    }
}
