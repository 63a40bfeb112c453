//! A text that only proofs read. It takes no memory, and its method does nothing at run time.
ghost use Rattle.std.specs.Prelude.{◌≡◌, List, ℕ};
ghost use Rattle.std.specs.Borrow.{ftrue};
ghost use Rattle.std.specs.Coded.{coded_ℕ, coded_list};

use std::marker::Model;

/// The text of a call.
#[derive(Drop)]
pub(crate) struct CallText<'a> {
    pub(crate) text: &'a str,
}

/// The bytes of a text.
#[derive(Drop)]
pub(crate) struct ProofText {
    pub ghost bytes: { List ℕ } by { coded_list coded_ℕ },
}

impl Model for ProofText {
    ghost also_owns = { λ _. ftrue };
}

impl ProofText {
    /// Those of this one.
    pub(crate) fn of(_call: &CallText<'_>) -> ProofText
        ensures { result.bytes ≡ _call.now.text.now }
    {
        ProofText {}
    }
}
