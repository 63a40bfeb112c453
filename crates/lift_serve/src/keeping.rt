//! Where a group's letters begin, and how they go on.

ghost use Rattle.lift_serve.specs.Keeping.{EachTurnHandsOn, ImagesKeep, MadeKeeps};

use lift_disk::Disk;

/// An image that reads as a register of the building keeps the answers of nobody: a group begins
/// there, whatever the journal holds. So does each that a crash may leave of a device on which a
/// journal was made. And wherever the power goes in a flusher's turns (`turns_keep_what_was_given`), which
/// need not end, the next start finds a device that holds all that was answered by then.
pub fn journals_keep<D: Disk, M: Disk>()
    ensures images { ImagesKeep D }
    ensures made { MadeKeeps D M M.state }
    ensures turns { EachTurnHandsOn D M D.state M.state }
{}
