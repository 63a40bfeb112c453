//! A device in memory that can be armed to fail once, or from then on.
use lift_disk::{Disk, FailingDisk, FaultRule, MemDisk, Outcome};

/// More calls than a run makes.
pub(crate) const NEVER: u32 = 1_000;

/// What a device that is to fail once is armed with, beside the number of its call.
const ONCE: u32 = 1_000_000;

/// Armed with less than `ONCE` a device fails each call after so many; with more, the last one of
/// so many more.
#[derive(Drop)]
pub struct OnceOrOn;

impl FaultRule for OnceOrOn {
    ghost use Rattle.lift_group_tests.specs.Rule.{OnceOrOn, once_or_on_counts_down};

    ghost fails = { OnceOrOn };

    ghost counts_down = { once_or_on_counts_down };

    fn is_due(calls_left: u32) -> bool {
        calls_left == 0 || calls_left == ONCE + 1
    }
}

pub type Device = FailingDisk<OnceOrOn>;

/// What a device is armed with so that this call is the first to fail, counted from 1, once or from
/// then on.
pub(crate) fn armed_for(call: u32, is_once: bool) -> u32 {
    if is_once {
        call.saturating_add(ONCE)
    } else {
        call.saturating_sub(1)
    }
}

/// The device after a power cut, if there is one; no call of it fails then.
pub(crate) fn cut(device: Device, outcome: Option<Outcome>) -> Device {
    let disk = device.into_inner();
    match outcome {
        Some(outcome) => Device::new(disk.cut(outcome)),
        None => Device::new(disk),
    }
}
