//! Calls of a device.
use lift_disk::Disk;

/// A call of a device whose sectors each hold one byte over and over, and what has to come of it.
#[derive(Clone, Copy)]
pub(crate) enum Call {
    /// A write of a sector, which succeeds.
    Put(u32, u8),
    /// A write of a sector, which fails.
    PutFails(u32, u8),
    /// A read of a sector, which brings this byte.
    Get(u32, u8),
    /// A read of a sector, which fails.
    GetFails(u32),
    Sync,
    SyncFails,
}

impl Call {
    /// Whether the call comes to that.
    pub(crate) fn comes<D: Disk>(&self, disk: &mut D) -> bool {
        match *self {
            Call::Put(sector, byte) => put(disk, sector, &[byte; 512]),
            Call::PutFails(sector, byte) => !put(disk, sector, &[byte; 512]),
            Call::Get(sector, byte) => read(disk, sector) == Some([byte; 512]),
            Call::GetFails(sector) => read(disk, sector).is_none(),
            Call::Sync => disk.sync().is_ok(),
            Call::SyncFails => disk.sync().is_err(),
        }
    }
}

/// Whether a write of a sector that is there has succeeded.
pub(crate) fn put<D: Disk>(disk: &mut D, sector: u32, bytes: &[u8; 512]) -> bool {
    sector < disk.sectors() && disk.write(sector, bytes).is_ok()
}

/// What a sector holds, where it is there and is read.
fn read<D: Disk>(disk: &mut D, sector: u32) -> Option<[u8; 512]> {
    let mut buffer = [1; 512];
    if sector < disk.sectors() && disk.read(sector, &mut buffer).is_ok() {
        Some(buffer)
    } else {
        None
    }
}
