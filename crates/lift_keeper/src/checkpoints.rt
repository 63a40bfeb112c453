//! What holds of checkpoints, by the contract of the journal's `replace` alone.

ghost use Rattle.lift_keeper.specs.Checkpoints.{CheckpointsKeep};

use lift_disk::Disk;

/// Given the register that the images of a journal read as, `Journal::replace` leaves images of that
/// one register alone, at each moment of the call and whether or not it fails.
pub fn checkpoints_keep<D: Disk>()
    ensures { CheckpointsKeep D.state }
{}
