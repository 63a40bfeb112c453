//! The keeper of an image, and how a group leaves that image.

ghost use Rattle.std.specs.Prelude.{◌≡◌, IfOk, IfErr};
ghost use Rattle.lift_program.specs.Stages.{HasKeeperOf, IsServingKeeperFailure};

use crate::at_once::AtOnce;
use crate::fault::Fault;
use crate::leftover::{Failure, Leftover};
use crate::opening::ImageView;
use crate::refused::refused;
use lift_building::Building;
use lift_disk::{Buffered, BufferedFile, Disk, FileOpener, SectorFile};
use lift_keeper::Keeper;
use lift_policy::Shipped;
use lift_serve::{Flusher, Notifies, ReadyGroup};
use std::io::Write;
use std::marker::PhantomData;

/// What gives back the writer of an image. Only this file makes one, in which no call waits: so what
/// waits with such a group can call its device by the turns of its flusher alone, which tell an `E` of
/// its failure.
#[derive(Drop)]
pub struct ImageKey<E> {
    error: PhantomData<E>,
}

/// Whoever has such a group tells a writer of this type, and nobody else, when its device fails. Who
/// is generic in the type has no other writer of it than the one that it was given.
impl<E: Write + Drop> Notifies<AtOnce<E>> for ImageKey<E> {}

/// The keeper that the recovery gives, over the journal in a file.
#[inline(never)]
pub fn keeper_in<'b, I: FileOpener>(
    opener: I,
    path: &str,
    building: &'b Building,
) -> Result<Keeper<'b, BufferedFile<I::Listed>>, Failure<BufferedFile<I::Listed>, I::Listed, I>>
    ensures opened { IfOk result
        (HasKeeperOf ((⟦<I as ImageView>⟧.image opener).is_to_be_served path.now)
        (⟦<I as ImageView>⟧.image opener).served_state building.now) }
    ensures failure { IfErr result
        (IsServingKeeperFailure (⟦<I as ImageView>⟧.image opener) path.now building.now) }
{
    let file = match SectorFile::open(opener, path) {
        Ok(file) => file,
        Err(cause) => {
            let (fault, cause) = refused(cause);
            return Err(Failure::NoImage(fault, cause));
        }
    };
    match Keeper::open(Buffered::over(file), building) {
        Ok(keeper) => Ok(keeper),
        Err((disk, fault)) => Err(Failure::Opened(Fault::Journal(fault), Leftover::new(disk))),
    }
}

/// The image as its keeper leaves it.
#[inline(never)]
pub fn left_by<D: Disk + Drop>(keeper: Keeper<'_, D>) -> Leftover<D>
    ensures { result ≡ keeper.entry.writer.device }
{
    Leftover::new(keeper.into_disk())
}

/// The image as a group leaves it that nobody serves. Only what makes one ready calls this: whoever waits
/// with it can only serve it.
#[inline(never)]
pub(super) fn left_unserved<D: Disk + Drop, E: Write + Drop>(
    group: ReadyGroup<'_, '_, D, Shipped, ImageKey<E>>,
) -> Leftover<D>
    ensures { result ≡ group.entry.flusher.writer.device }
{
    Leftover::new(group.unserved(ImageKey { error: PhantomData }).into_disk())
}

/// The image as the flusher of a group that was served leaves it.
#[inline(never)]
pub fn left_served<D: Disk + Drop, E: Write + Drop>(
    flusher: Flusher<'_, '_, D, ImageKey<E>>,
) -> Leftover<D>
    ensures { result ≡ flusher.entry.writer.device }
{
    let writer = flusher.into_writer(ImageKey { error: PhantomData });
    Leftover::new(writer.into_disk())
}
