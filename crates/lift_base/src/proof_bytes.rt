//! Bytes that only proofs read. They take no memory, and their methods do nothing at run time.
ghost use Rattle.std.specs.Prelude.{◌≡◌, ◌++◌, [], List, ℕ};
ghost use Rattle.std.specs.Borrow.{ftrue};
ghost use Rattle.std.specs.Coded.{coded_ℕ, coded_list};

use std::marker::Model;

/// The bytes of a call.
#[derive(Drop)]
pub(crate) struct Portion<'a> {
    pub(crate) bytes: &'a [u8],
}

/// All bytes that have come, or gone.
#[derive(Drop)]
pub(crate) struct ProofBytes {
    pub ghost bytes: { List ℕ } by { coded_list coded_ℕ },
}

impl Model for ProofBytes {
    ghost also_owns = { λ _. ftrue };
}

impl ProofBytes {
    /// None yet.
    pub(crate) fn new() -> ProofBytes
        ensures { result.bytes ≡ [] }
    {
        ProofBytes {}
    }

    /// The same.
    #[inline(always)]
    pub(crate) fn again(&self) -> ProofBytes
        ensures { result.bytes ≡ self.now.bytes }
    {
        ProofBytes {}
    }

    /// More.
    #[inline(always)]
    pub(crate) fn then(&self, _more: &Portion<'_>) -> ProofBytes
        ensures { result.bytes ≡ self.now.bytes ++ _more.now.bytes.now }
    {
        ProofBytes {}
    }
}
