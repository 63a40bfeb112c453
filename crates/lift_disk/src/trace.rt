//! The calls that have succeeded, as a list that only proofs read. It takes no memory, and its
//! methods do nothing at run time.
ghost use Rattle.std.specs.Prelude.{◌≡◌, ◌++◌, [], ◌∷◌, List};
ghost use Rattle.std.specs.Borrow.{ftrue};
ghost use Rattle.lift_disk.specs.Trace.{Access, trace_code};

use std::marker::Model;

/// A call of a device that has succeeded, by its sector.
#[derive(Clone, Copy, Drop)]
pub(crate) enum Made<'a> {
    Read(u64),
    /// The bytes of a sector, or of several, one after the other.
    Write(u64, &'a [u8]),
    Sync,
}

#[derive(Drop)]
pub(crate) struct ProofTrace {
    pub ghost calls: { List Access } by { trace_code },
}

impl Model for ProofTrace {
    ghost also_owns = { λ _. ftrue };
}

impl ProofTrace {
    ghost use Rattle.lift_disk.specs.Noted.{access_of};

    /// None yet.
    pub(crate) fn new() -> ProofTrace
        ensures { result.calls ≡ [] }
    {
        ProofTrace {}
    }

    /// One more.
    #[inline(always)]
    pub(crate) fn then(&self, _made: &Made<'_>) -> ProofTrace
        ensures { result.calls ≡ self.now.calls ++ access_of _made.now ∷ [] }
    {
        ProofTrace {}
    }
}
