//! Recovery: the register of a journal that was read while it was opened.

ghost use Rattle.std.specs.Prelude.{◌≡◌, ◌↔◌, IsTrue, IfOk, IfErr, OnOk};
ghost use Rattle.lift_building.specs.Plan.{shape_of};
ghost use Rattle.lift_keeper.specs.Reading.{GivesAtEnd, GivesNone};

use crate::fault::KeeperFault;
use crate::reading::Reading;
use lift_building::Building;
use lift_disk::Disk;
use lift_journal::Journal;
use lift_register::Register;

/// Whether the journal is of a building of this shape.
fn is_of<D: Disk>(journal: &Journal<D>, building: &Building) -> bool
    ensures { IsTrue result ↔ (journal.now.shape ≡ shape_of building.now journal.now.shape.half) }
{
    let shape = journal.shape();
    shape == building.shape(shape.half)
}

/// The register of an opened journal: that of its checkpoint and the entries after it, which were
/// read as it was opened. It makes no call of the device.
///
/// `OtherBuilding` where the journal is of a building of another shape, then `BadEntry` with the
/// place of the first record that doesn't fit.
pub fn recovered<D: Disk>(
    journal: &Journal<D>,
    reading: Reading,
    building: &Building,
) -> Result<Register, KeeperFault>
    ensures shape { OnOk result (journal.now.shape ≡ shape_of building.now journal.now.shape.half) }
    ensures gives { IfOk result (λ register. GivesAtEnd reading.entry register) }
    ensures refused { IfErr result (λ fault.
        GivesNone fault building.now journal.now.shape reading.entry) }
{
    if !is_of(journal, building) {
        return Err(KeeperFault::OtherBuilding);
    }
    reading.register().map_err(KeeperFault::BadEntry)
}
