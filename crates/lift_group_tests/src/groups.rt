//! Groups of ten floors, their devices, and what their terminals say.
use crate::device::Device;
use lift_base::{Body, Dir, Floor, Letter, Number, Party, Reply, Terminal};
use lift_building::Building;
use lift_disk::{Disk, MemDisk};
use lift_journal::format;
use std::alloc::Global;
use std::process::Abort;

/// Ten floors, kiosks on floors 0, 5 and 7; a flight takes 2,000 ms and 1,000 ms for each floor;
/// cars A and B, for 8 persons.
const GROUP: &str = "\
floors = 10
door_ms = 6000
kiosks = [0, 5, 7]
flight = [
[0,3000,4000,5000,6000,7000,8000,9000,10000,11000],
[3000,0,3000,4000,5000,6000,7000,8000,9000,10000],
[4000,3000,0,3000,4000,5000,6000,7000,8000,9000],
[5000,4000,3000,0,3000,4000,5000,6000,7000,8000],
[6000,5000,4000,3000,0,3000,4000,5000,6000,7000],
[7000,6000,5000,4000,3000,0,3000,4000,5000,6000],
[8000,7000,6000,5000,4000,3000,0,3000,4000,5000],
[9000,8000,7000,6000,5000,4000,3000,0,3000,4000],
[10000,9000,8000,7000,6000,5000,4000,3000,0,3000],
[11000,10000,9000,8000,7000,6000,5000,4000,3000,0]]
[[cars]]
places = 8
[[cars]]
places = 8
";

// (a function that has a long text and calls others is dear to prove)
fn group_text() -> &'static str {
    GROUP
}

pub(crate) fn group(rt: &impl Abort, alloc: Global) -> Building {
    Building::read(alloc, group_text())
        .ok()
        .expect(rt, "refused")
}

/// A device of zeros.
pub(crate) fn blank(rt: &impl Abort, alloc: Global) -> MemDisk {
    MemDisk::new(alloc, 130).ok().expect(rt, "memory")
}

/// Whether the device is large enough, and has an empty journal now.
fn is_made(disk: &mut MemDisk, building: &Building) -> bool {
    disk.sectors() >= 130 && format(disk, building.shape(64)).is_ok()
}

/// A device with an empty journal for a building.
pub(crate) fn formatted(rt: &impl Abort, alloc: Global, building: &Building) -> Device {
    let mut disk = blank(rt, alloc);
    assert!(rt; is_made(&mut disk, building));
    Device::new(disk)
}

pub(crate) fn floor(number: u8) -> Floor {
    Floor::new(number).unwrap_or_default()
}

pub(crate) fn number(value: u32) -> Number {
    Number::new(value).unwrap_or_default()
}

pub(crate) fn letter(index: u8) -> Letter {
    Letter::new(index).unwrap_or_default()
}

/// What a call is answered that this car takes.
pub(crate) fn car(index: u8) -> Option<Reply> {
    Some(Reply::Car(letter(index)))
}

pub(crate) fn kiosk(index: u8) -> Terminal {
    Terminal::of_kiosk(index).unwrap_or_default()
}

pub(crate) fn place(at: u8, dir: Dir) -> Body {
    Body::Place(floor(at), dir)
}

/// One person's call.
pub(crate) fn call(to: u8) -> Body {
    Body::Call(floor(to), Party::default())
}
