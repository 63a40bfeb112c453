//! The making of an empty journal on a file.

ghost use Rattle.std.specs.Prelude.{◌≤◌, IfOk, IfErr};
ghost use Rattle.lift_program.specs.Ends.{IsMadeWith, IsUnmade};

use crate::fault::Fault;
use crate::files::building_in;
use crate::invocation::ready::ForServing;
use crate::leftover::{Failure, Leftover};
use crate::opening::{FilesView, Listens, Openers, TextOpener};
use crate::refused::refused;
use lift_base::LEAST_HALF;
use lift_disk::{FileOpener, SectorFile};
use lift_journal::JournalFault;
use lift_keeper::KeeperFault;
use std::alloc::Global;

/// Makes an empty journal in the file `image`, for the building in the file `building`, with so
/// many sectors in a half. Nothing is made for a building that is refused.
#[inline(never)]
#[tactic(auto, using(crate::proofs::Stages::reads_building))]
pub(crate) fn format<B: TextOpener, I: FileOpener, L: Listens>(
    openers: Openers<B, I, ForServing<L>>,
    alloc: Global,
    image: &str,
    building: &str,
    half: u32,
) -> Result<Leftover<SectorFile<I::Listed>>, Failure<SectorFile<I::Listed>, I::Listed, I>>
    requires least { LEAST_HALF ≤ half }
    requires most { half ≤ 1000000 }
    ensures made { IfOk result
        (IsMadeWith (⟦<Openers<B, I, L> as FilesView>⟧.view openers) image.now building.now half) }
    ensures failure { IfErr result
        (IsUnmade (⟦<Openers<B, I, L> as FilesView>⟧.view openers) image.now building.now half) }
{
    let shape = match building_in(openers.building, alloc, building) {
        Ok(building) => building.shape(half),
        Err(fault) => return Err(Failure::NoBuilding(fault, Leftover::new(openers.image))),
    };
    let mut disk = match SectorFile::create(openers.image, image, 2 + 2 * half) {
        Ok(disk) => disk,
        Err(cause) => {
            let (fault, cause) = refused(cause);
            return Err(Failure::NoImage(fault, cause));
        }
    };
    match lift_journal::format(&mut disk, shape) {
        Ok(()) => Ok(Leftover::new(disk)),
        Err(_) => Err(Failure::Opened(
            Fault::Journal(KeeperFault::Journal(JournalFault::Disk)),
            Leftover::new(disk),
        )),
    }
}
