//! Who is shown the batches of a chain while it is opened.
ghost use Rattle.std.specs.Prelude.{◌≡◌, List};
ghost use Rattle.lift_base.specs.declared.history.Record.{Record as RecordValue};

use arrayvec::ArrayVec;
use lift_base::{MOST_ENTRIES, Record};

/// What an opening shows the batches to, one after another, while it looks for the end of their
/// chain.
pub trait Visitor {
    /// What the records of one batch may make of the visitor.
    ghost takes: { Self → List RecordValue → Self → Type 0 };

    /// Takes one batch.
    fn visit(&mut self, records: &ArrayVec<Record, MOST_ENTRIES>)
        ensures { takes self.old records.now.items self.new };
}

/// A visitor that looks at nothing.
#[derive(Drop)]
pub struct Nobody;

impl Visitor for Nobody {
    ghost takes = { λ old records new. new ≡ old };

    fn visit(&mut self, _records: &ArrayVec<Record, MOST_ENTRIES>) {}
}
