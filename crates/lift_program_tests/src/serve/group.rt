//! A building, and its keeper on a device in memory.
ghost use Rattle.std.specs.Prelude.{◌≡◌, []};

use lift_building::Building;
use lift_disk::{Disk, MemDisk};
use lift_journal::format;
use lift_keeper::Keeper;
use std::alloc::Global;
use std::process::Abort;

/// Three floors, kiosks on floors 0 and 2; a flight takes 2,000 ms and 1,000 ms for each floor; cars
/// A and B, for 8 persons.
const DEMO: &str = "\
floors = 3
door_ms = 6000
kiosks = [0, 2]
flight = [[0, 3000, 4000], [3000, 0, 3000], [4000, 3000, 0]]
cars = [{ places = 8 }, { places = 8 }]
";

// (a function that has a long text and calls others is dear to prove)
fn demo_text() -> &'static str {
    DEMO
}

pub(crate) fn demo(rt: &impl Abort, alloc: Global) -> Building {
    Building::read(alloc, demo_text())
        .ok()
        .expect(rt, "refused")
}

/// A device with an empty journal for a building.
pub(crate) fn formatted(rt: &impl Abort, alloc: Global, building: &Building) -> MemDisk {
    let mut disk = MemDisk::new(alloc, 130).ok().expect(rt, "memory");
    format(&mut disk, building.shape(64))
        .ok()
        .expect(rt, "a fault");
    disk
}

/// The keeper that a device's journal begins with.
pub(crate) fn opened<'b, D: Disk + Drop>(
    rt: &impl Abort,
    disk: D,
    building: &'b Building,
) -> Keeper<'b, D>
    ensures { result.state.batch ≡ [] }
{
    Keeper::open(disk, building).ok().expect(rt, "refused")
}
