//! A device that fails a single call.
use crate::disk::calls::Call;
use lift_disk::{Arm, Disk, FlakyDisk, MemDisk};

/// What it is armed with, and calls.
const FLAKY: &[(u32, &[Call])] = &[
    (0, &[Call::Put(0, 7), Call::Sync, Call::Get(0, 7)]),
    (1, &[Call::PutFails(0, 7), Call::Sync, Call::Get(0, 0)]),
    (2, &[Call::Put(0, 7), Call::SyncFails, Call::Get(0, 7)]),
    (3, &[Call::Put(0, 7), Call::Sync, Call::GetFails(0)]),
];

fn all_come<D: Disk>(disk: &mut D, calls: &[Call]) -> bool {
    let mut all = true;
    for call in calls {
        all = call.comes(disk) & all;
    }
    all & Call::Sync.comes(disk)
}

#[test]
fn one_call_fails(rt: HostRuntime) {
    for (armed, calls) in FLAKY {
        let disk = MemDisk::new(rt.alloc(), 1).ok().expect(&rt, "memory");
        let mut disk = FlakyDisk::new(disk);
        disk.arm(*armed);
        assert!(rt; all_come(&mut disk, calls));
    }
}
