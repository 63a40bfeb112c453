//! A device in memory that fails some of its calls, by a rule.
ghost use Rattle.std.specs.Prelude.{◌≡◌, ◌<◌, IsTrue, OnOk, OnErr, IfSome, is_err};
ghost use Rattle.lift_disk.specs.Disk.{IsUnchanged, IsUnarmed};

use crate::rule::{FaultRule, Flaky, Fuse};
use crate::{Arm, Disk, DiskFault, MemDisk};
use std::marker::PhantomData;

/// Passes everything until it is armed, and then fails the calls that its rule names.
#[derive(Drop)]
pub struct FailingDisk<R> {
    inner: MemDisk,
    calls_left: Option<u32>,
    rule: PhantomData<R>,
}

/// Passes everything until it is armed, and then this many calls; after these it fails each one.
pub type FuseDisk = FailingDisk<Fuse>;

/// Passes everything until it is armed, and then fails one call: the first where it was armed with
/// 1, none where it was armed with 0.
pub type FlakyDisk = FailingDisk<Flaky>;

impl<R: FaultRule> FailingDisk<R> {
    ghost use Rattle.lift_disk.specs.Outcomes.{SpoilsAt, state_of};
    ghost use Rattle.lift_disk.specs.Faults.{IsDue, StaysDue};
    ghost use Rattle.lift_disk.specs.Faults.{failing_state_of};

    /// Not armed: it passes every call.
    pub fn new(inner: MemDisk) -> FailingDisk<R>
        ensures same { IsUnchanged (state_of inner) (failing_state_of R.fails result) }
        ensures unarmed { IsUnarmed (failing_state_of R.fails result) }
    {
        FailingDisk {
            inner,
            calls_left: None,
            rule: PhantomData,
        }
    }

    /// The device in memory, which fails no call by itself.
    pub fn into_inner(self) -> MemDisk
        ensures same { IsUnchanged (failing_state_of R.fails self) (state_of result) }
        ensures unarmed { IsUnarmed (state_of result) }
    {
        let FailingDisk { inner, .. } = self;
        inner
    }

    /// Counts a call, a write of this sector or else a read or a sync, and fails it where the rule
    /// says so.
    fn count_down(&mut self, sector: Option<u32>) -> Result<(), DiskFault>
        requires { IfSome sector (λ i. i < (state_of self.old.inner).size) }
        ensures passes { OnOk result (self.new.inner ≡ self.old.inner) }
        ensures fails { OnErr result
            (SpoilsAt sector (state_of self.old.inner) (state_of self.new.inner)) }
        ensures now { IsDue R.fails self.old.calls_left (is_err result) }
        ensures later { StaysDue R.fails self.old.calls_left self.new.calls_left }
    {
        let Some(calls) = self.calls_left else {
            return Ok(());
        };
        self.calls_left = Some(calls.saturating_sub(1));
        if R::is_due(calls) {
            self.inner.spoil(sector);
            return Err(DiskFault);
        }
        Ok(())
    }
}

impl<R: FaultRule> Disk for FailingDisk<R> {
    ghost use Rattle.lift_disk.specs.Faults.{failing_state_of};
    ghost use Rattle.lift_disk.specs.contracts.memory.MemDiskDisk.TheImpl.Laws as memory;

    ghost state = { λ d. failing_state_of R.fails d };

    ghost whole = { λ d. memory.whole-law d.inner };

    ghost counts_now = { λ d. memory.counts_now-law d.inner };

    ghost only_now = { λ d. memory.only_now-law d.inner };

    ghost may_lose = { λ d. memory.may_lose-law d.inner };

    fn sectors(&self) -> u32 {
        self.inner.sectors()
    }

    fn read(&mut self, sector: u32, buffer: &mut [u8; 512]) -> Result<(), DiskFault> {
        self.count_down(None)?;
        self.inner.read(sector, buffer)
    }

    fn write(&mut self, sector: u32, bytes: &[u8; 512]) -> Result<(), DiskFault> {
        self.count_down(Some(sector))?;
        self.inner.write(sector, bytes)
    }

    fn sync(&mut self) -> Result<(), DiskFault> {
        self.count_down(None)?;
        self.inner.sync()
    }
}

impl<R: FaultRule> Arm for FailingDisk<R> {
    ghost fails_by = { R.fails };

    fn arm(&mut self, calls: u32) {
        self.calls_left = Some(calls);
    }

    fn short(&self) -> bool {
        // it takes no memory for a call
        false
    }
}
