//! The calls of a file that have succeeded, as a list that only proofs read. It takes no memory,
//! and its methods do nothing at run time.
ghost use Rattle.std.specs.Prelude.{◌≡◌, ◌++◌, [], ◌∷◌, List};
ghost use Rattle.std.specs.Borrow.{ftrue};
ghost use Rattle.lift_disk.specs.FileCalls.{FileCall, file_calls_code};

use std::marker::Model;

/// A call of a file that has succeeded, by its offset in bytes.
#[derive(Clone, Copy, Drop)]
pub(crate) enum Called<'a> {
    /// It gave these sectors, one after the other.
    ReadSectors(u64, &'a [[u8; 512]]),
    /// It took these.
    WriteSectors(u64, &'a [[u8; 512]]),
    SyncData,
    SetLength(u64),
    SyncAll,
    /// It answered this length.
    GetLength(u64),
    DropCached,
    Lock,
    Restrict,
}

#[derive(Drop)]
pub(crate) struct ProofFileCalls {
    pub ghost calls: { List FileCall } by { file_calls_code },
}

impl Model for ProofFileCalls {
    ghost also_owns = { λ _. ftrue };
}

impl ProofFileCalls {
    ghost use Rattle.lift_disk.specs.Noted.{file_call_of};

    /// None yet.
    pub(crate) fn new() -> ProofFileCalls
        ensures { result.calls ≡ [] }
    {
        ProofFileCalls {}
    }

    /// One more.
    #[inline(always)]
    pub(crate) fn then(&self, _called: &Called<'_>) -> ProofFileCalls
        ensures { result.calls ≡ self.now.calls ++ file_call_of _called.now ∷ [] }
    {
        ProofFileCalls {}
    }
}
