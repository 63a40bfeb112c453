//! The files that the commands name: buildings, and the images of journals.

ghost use Rattle.std.specs.Prelude.{◌≡◌, ◌≢◌, ◌≤◌, Err, IfOk, IfErr, length};
ghost use Rattle.std.specs.Str.{IsUtf8};
ghost use Rattle.lift_program.specs.Images.{IsTextRead};
ghost use Rattle.lift_program.specs.Stages.{HasBuilding, HasNoImage, IsBuildingFault};
ghost use Rattle.lift_program.specs.Stages.{IsNoText, most_text};
ghost use Rattle.lift_program.specs.declared.fault.Role.TheVariants.{Building as OfBuilding};

use crate::fault::{Fault, Role};
use crate::leftover::Leftover;
use crate::leftover::text::bytes_of;
use crate::opening::{ImageView, TextOpener};
use crate::refused::{refused, text_in};
use crate::unwritten::{ShownImage, UnwrittenFile};
use lift_building::Building;
use lift_disk::{Buffered, FileFault, FileOpener, SectorFile};
use std::alloc::Global;
use std::str;

/// The building that the bytes of its file spell.
#[tactic(auto, using(crate::proofs::Stages::building_no_file, crate::proofs::Stages::first_fault, crate::proofs::Stages::has_building))]
fn building_of(alloc: Global, bytes: &[u8]) -> Result<Building, Fault>
    requires bound { length bytes.now ≤ most_text }
    ensures found { IfOk result (HasBuilding (λ text. text ≡ bytes.now)) }
    ensures fault { IfErr result
        (IsBuildingFault (λ text. text ≡ bytes.now) (¬ IsUtf8 bytes.now)) }
    // It is refused as a file just where it is no text.
    ensures no_text { ¬ IsUtf8 bytes.now → result ≡ Err (Fault.File OfBuilding) }
    ensures text { IsUtf8 bytes.now → IfErr result (λ fault. fault ≢ Fault.File OfBuilding) }
{
    match str::from_utf8(bytes) {
        Ok(text) => match Building::read(alloc, text) {
            Ok(building) => Ok(building),
            Err(fault) => Err(Fault::from(fault)),
        },
        Err(_) => Err(Fault::File(Role::Building)),
    }
}

/// The building that a file describes. A file of more than 1,048,576 bytes is refused as one that
/// can't be read.
pub fn building_in<B: TextOpener>(opener: B, alloc: Global, path: &str) -> Result<Building, Fault>
    ensures found { IfOk result
        (HasBuilding (IsTextRead (B.opens opener path.now) B.Text.remaining)) }
    ensures fault { IfErr result
        (IsBuildingFault (IsTextRead (B.opens opener path.now) B.Text.remaining)
        (IsNoText (B.opens opener path.now) B.Text.remaining B.reads)) }
{
    let text = text_in(opener, path)?;
    let (_left, outcome) = bytes_of::<B>(alloc, text);
    let bytes = outcome?;
    building_of(alloc, &bytes)
}

/// The image of a journal that is there, to be shown, also beside a group that runs over it.
pub fn image_to_show<I: FileOpener>(
    opener: I,
    path: &str,
) -> Result<ShownImage<I::Listed>, (Fault, Leftover<FileFault<I::Listed, I>>)>
    ensures opened { IfOk result ((⟦<I as ImageView>⟧.image opener).is_to_be_shown path.now) }
    ensures no_image { IfErr result (λ no. HasNoImage
        ((⟦<I as ImageView>⟧.image opener).is_unshown path.now) no.0 no.1) }
{
    match SectorFile::open_to_read(opener, path) {
        Ok(file) => Ok(Buffered::over(UnwrittenFile::over(file))),
        Err(cause) => Err(refused(cause)),
    }
}
