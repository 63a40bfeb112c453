//! Both parts of a clerk, which are driven by hand.
ghost use Rattle.lift_parts.specs.Parts.{AreOfOne};

use crate::scripts::trouble::Trouble;
use lift_clerk::{Clerk, Counts};
use lift_disk::{FuseDisk, MemDisk, Outcome};
use lift_keeper::{Keeper, KeeperFault};
use lift_policy::Etd;
use lift_relay::{Allocator, Flusher, rejoin, split};
use lift_replay::{DeviceAction, Query};
use std::alloc::Global;
use std::sync::Wait;

/// More turns of the flusher than batches can be in the line.
const MOST_FLUSHES: u8 = 8;

/// Both parts of one split.
#[derive(Drop)]
struct Parts<'d, 'b> {
    allocator: Allocator<'d, 'b, Etd>,
    flusher: Flusher<'d, 'b, FuseDisk>,
    ghost of_one: { AreOfOne allocator flusher },
}

/// What a line shows of the clerk's keeper.
fn show(report: &mut String, keeper: &Keeper<'_, FuseDisk>, query: &Query) -> Result<(), Trouble> {
    let building = keeper.building();
    if !query.is_known(building) {
        return Err(Trouble::Lacking);
    }
    query.push_shown(report, building, keeper)?;
    Ok(())
}

/// Both parts of a clerk. They are none once they couldn't be joined, or the clerk not be split.
#[derive(Drop)]
pub(crate) struct Relay<'d, 'b> {
    parts: Option<Parts<'d, 'b>>,
}

impl<'d, 'b> Relay<'d, 'b> {
    /// Both parts of a clerk.
    pub(crate) fn of(alloc: Global, clerk: Clerk<'d, 'b, FuseDisk, Etd>) -> Result<Self, Trouble> {
        match split(alloc, clerk) {
            Ok((allocator, flusher)) => Ok(Relay {
                parts: Some(Parts { allocator, flusher }),
            }),
            Err(_) => Err(Trouble::Memory),
        }
    }

    fn allocate<R: Wait>(&mut self, rt: &R) -> Result<Counts, Trouble> {
        match &mut self.parts {
            Some(parts) => Ok(parts.allocator.turn(rt)),
            None => Err(Trouble::Apart),
        }
    }

    /// A turn of the flusher. Whether it found nothing, or has a fault.
    fn flush<R: Wait>(&mut self, rt: &R) -> Result<Result<bool, KeeperFault>, Trouble> {
        match &mut self.parts {
            Some(parts) => match parts.flusher.turn(rt, &mut ()) {
                Ok(flushed) => Ok(Ok(flushed.batches == 0 && flushed.answers == 0)),
                Err(fault) => Ok(Err(fault)),
            },
            None => Err(Trouble::Apart),
        }
    }

    /// A turn of the allocator, and turns of the flusher until it finds no batch, or has a fault.
    pub(crate) fn turn<R: Wait>(&mut self, rt: &R) -> Result<Result<Counts, KeeperFault>, Trouble> {
        let counts = self.allocate(rt)?;
        for _ in 0..MOST_FLUSHES {
            match self.flush(rt)? {
                Ok(true) => return Ok(Ok(counts)),
                Ok(false) => {}
                Err(fault) => return Ok(Err(fault)),
            }
        }
        Err(Trouble::Endless)
    }

    /// The clerk of both parts, whose registers are compared so.
    fn joined(&mut self) -> Result<Clerk<'d, 'b, FuseDisk, Etd>, Trouble> {
        let Some(Parts { allocator, flusher }) = self.parts.take() else {
            return Err(Trouble::Apart);
        };
        match rejoin(allocator, flusher) {
            Ok(clerk) => Ok(clerk),
            Err(_) => Err(Trouble::Apart),
        }
    }

    /// Both parts of a clerk that was whole.
    fn split(&mut self, alloc: Global, clerk: Clerk<'d, 'b, FuseDisk, Etd>) -> Result<(), Trouble> {
        *self = Relay::of(alloc, clerk)?;
        Ok(())
    }

    /// What a line shows of the clerk.
    pub(crate) fn show(
        &mut self,
        alloc: Global,
        report: &mut String,
        query: &Query,
    ) -> Result<(), Trouble> {
        let clerk = self.joined()?;
        let shown = show(report, clerk.keeper(), query);
        self.split(alloc, clerk)?;
        shown
    }

    /// Does something to the device. What a power cut leaves of it, where that is what is done.
    pub(crate) fn on_device(
        &mut self,
        alloc: Global,
        action: &DeviceAction,
    ) -> Result<Option<Outcome>, Trouble> {
        let mut clerk = self.joined()?;
        let outcome = action.carry_out(&mut clerk);
        self.split(alloc, clerk)?;
        Ok(outcome)
    }

    /// What a power cut leaves of the device.
    pub(crate) fn cut(&mut self, outcome: Outcome) -> Result<MemDisk, Trouble> {
        let (_seat, keeper, _policy) = self.joined()?.into_parts();
        Ok(keeper.into_disk().into_inner().cut(outcome))
    }
}
