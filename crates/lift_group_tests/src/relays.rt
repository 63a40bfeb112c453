//! Both parts of one split, held together.
ghost use Rattle.std.specs.Prelude.{◌≡◌};
ghost use Rattle.lift_parts.specs.Parts.{AreOfOne};

use crate::device::Device;
use crate::gate::{Below, Counter};
use lift_clerk::{Clerk, Counts};
use lift_disk::Disk;
use lift_keeper::KeeperFault;
use lift_policy::{Etd, Policy};
use lift_relay::{Allocator, FlushCounts, Flusher, RunFault, rejoin, run, split, tell};
use std::alloc::Global;
use std::process::Abort;
use std::sync::Wait;
use std::thread::Threads;

/// Both parts of one split. Who has them joins them: to drop them would be dear to prove.
pub struct Relay<'d, 'b, D: Disk + Drop, P: Policy + Drop> {
    allocator: Allocator<'d, 'b, P>,
    flusher: Flusher<'d, 'b, D>,
    ghost of_one: { AreOfOne allocator flusher },
}

/// Those that the tests turn by hand.
pub type Parts<'d, 'b> = Relay<'d, 'b, Device, Etd>;

impl<'d, 'b, D: Disk + Drop, P: Policy + Drop> Relay<'d, 'b, D, P> {
    pub(crate) fn of(rt: &impl Abort, alloc: Global, clerk: Clerk<'d, 'b, D, P>) -> Self
        ensures { result.allocator.desk ≡ clerk.entry.desk }
    {
        match split(alloc, clerk) {
            Ok((allocator, flusher)) => Relay { allocator, flusher },
            Err(_) => panic!(rt; "memory"),
        }
    }

    pub(crate) fn allocate<R: Wait>(&mut self, rt: &R) -> Counts {
        self.allocator.turn(rt)
    }

    pub(crate) fn flush<R: Wait>(&mut self, rt: &R) -> Result<FlushCounts, KeeperFault> {
        self.flusher.turn(rt, &mut ())
    }

    pub(crate) fn tell(&mut self) {
        tell(&mut self.allocator, &mut self.flusher)
    }

    /// Whether this many batches were sent and received, and whether one is in hand just where one
    /// has to be.
    pub(crate) fn has_moved(&self, sent: u64, received: u64, is_in_hand: bool) -> bool {
        (self.allocator.sent() == sent)
            & (self.flusher.received() == received)
            & (self.allocator.has_batch_in_hand() == is_in_hand)
    }

    /// What a run comes to through a gate.
    pub(crate) fn run<R: Threads + Wait + Sync>(&mut self, rt: &R, gate: &Below) -> Option<RunFault>
    where
        P: Send,
        ensures { self.new.allocator.desk ≡ self.old.allocator.desk }
    {
        let mut witness = Counter { gate };
        run(
            rt,
            &mut self.allocator,
            &mut self.flusher,
            gate,
            &mut witness,
        )
    }

    /// The parts, which may not join, as they are handed back.
    pub(crate) fn handed_back(self, rt: &impl Abort) -> Self {
        let Relay { allocator, flusher } = self;
        match rejoin(allocator, flusher) {
            Ok(_) => panic!(rt; "joined"),
            Err((allocator, flusher)) => Relay { allocator, flusher },
        }
    }

    /// The clerk of both parts, which may join.
    pub(crate) fn joined(self, rt: &impl Abort) -> Clerk<'d, 'b, D, P>
        ensures { result.desk ≡ self.entry.allocator.desk }
    {
        let Relay { allocator, flusher } = self;
        match rejoin(allocator, flusher) {
            Ok(clerk) => clerk,
            Err(_) => panic!(rt; "handed back"),
        }
    }
}
