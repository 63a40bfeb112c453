//! The line of a device that fails, written when it does.

ghost use Rattle.lift_program.specs.Ends.{IsFailureReported};

use crate::fault::Fault;
use lift_base::text::Watched;
use lift_journal::JournalFault;
use lift_keeper::KeeperFault;
use lift_serve::{Failed, Witness};
use std::io::Write;

/// What is reported of a device that failed.
pub const FAILED: Fault = Fault::Journal(KeeperFault::Journal(JournalFault::Disk));

/// Writes the line of a device that fails, at once. Nothing holds it back where standard error is not
/// buffered, as the program's isn't.
#[derive(Drop)]
pub struct AtOnce<E: Write + Drop> {
    /// Where it writes it.
    pub errors: Watched<E>,
}

impl<E: Write + Drop> Witness for AtOnce<E> {
    ghost use Rattle.lift_program.specs.Ends.{IsFailureReported};

    ghost is_notified = { λ old new. IsFailureReported E.contents old.errors new.errors };

    fn has_failed(&mut self, _failed: Failed) {
        FAILED.tell(&mut self.errors);
    }
}
