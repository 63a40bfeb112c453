//! A count that only proofs read. It takes no memory, so it never overflows, and its methods do
//! nothing at run time.
ghost use Rattle.std.specs.Prelude.{◌≡◌, ◌+◌, ℕ};
ghost use Rattle.std.specs.Borrow.{ftrue};

use std::marker::Model;

/// How many there have been of something.
#[derive(Drop)]
pub struct ProofCount {
    pub ghost count: { ℕ },
}

impl Model for ProofCount {
    ghost also_owns = { λ _. ftrue };
}

impl ProofCount {
    /// None yet.
    pub fn new() -> ProofCount
        ensures { result.count ≡ 0 }
    {
        ProofCount {}
    }

    /// One more.
    pub fn next(_before: &ProofCount) -> ProofCount
        ensures { result.count ≡ _before.now.count + 1 }
    {
        ProofCount {}
    }
}
