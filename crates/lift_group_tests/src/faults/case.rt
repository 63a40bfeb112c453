//! What is stopped and how, and what has to come of it.
use crate::groups::car;
use lift_base::{Reason, Reply};
use lift_clerk::Counts;
use lift_disk::Outcome;
use lift_journal::JournalFault;
use lift_keeper::KeeperFault;

/// No power cut, or one that leaves this in loose sectors.
const CUTS: [Option<Outcome>; 6] = [
    None,
    Some(Outcome::Keep),
    Some(Outcome::Lose),
    Some(Outcome::Fill(0)),
    Some(Outcome::Fill(165)),
    Some(Outcome::Fill(255)),
];

/// Batches that are made safe over a device.
pub(crate) struct Work {
    /// The device has this many stops of car A, a batch each, and then kiosk 0's first call.
    pub(crate) stops: u32,
    /// Whether these batches are of version 1.
    pub(crate) is_old: bool,
    pub(crate) batches: u32,
    /// How many calls of the device each batch makes.
    pub(crate) calls: u32,
    /// How many of them make the checkpoint, if there is one: the last but one writes the pick, and
    /// the last one syncs it.
    pub(crate) calls_of_checkpoint: u32,
}

impl Work {
    /// Each call of the work, and none where it is one after the last, with each way in which loose
    /// sectors end.
    pub(crate) fn places(&self) -> u32 {
        let calls = self.batches.saturating_mul(self.calls);
        calls.saturating_add(1).saturating_mul(6)
    }
}

/// Three batches in a half that has room for them: body, next gate, sync, gate, sync.
pub(crate) const APPENDED: Work = Work {
    stops: 0,
    is_old: false,
    batches: 3,
    calls: 5,
    calls_of_checkpoint: 0,
};

/// The 32nd batch, after a checkpoint: body, gate, closing gate, sync, pick, sync.
pub(crate) const CHECKPOINTED: Work = Work {
    stops: 30,
    is_old: false,
    batches: 1,
    calls: 11,
    calls_of_checkpoint: 6,
};

/// The same, where the checkpoint moves 31 batches of version 1 to version 2.
pub(crate) const MOVED: Work = Work {
    stops: 30,
    is_old: true,
    batches: 1,
    calls: 11,
    calls_of_checkpoint: 6,
};

/// Work, by whom it is done on which device.
#[derive(Clone, Copy)]
pub(crate) struct Way<'w> {
    pub(crate) work: &'w Work,
    /// Whether both parts of a clerk do it, or its turns.
    pub(crate) by_parts: bool,
    /// Whether the device fails once, or from then on.
    pub(crate) is_once: bool,
}

/// Work, the calls of the device that are the first to fail in it and in the recovery, counted from
/// 1, and how the power is cut after each of these failures, if it is.
#[derive(Clone, Copy)]
pub(crate) struct Case<'w> {
    pub(crate) work: &'w Work,
    pub(crate) by_parts: bool,
    pub(crate) is_once: bool,
    pub(crate) failing: u32,
    pub(crate) cut: Option<Outcome>,
    pub(crate) recovery: u32,
    pub(crate) cut_again: Option<Outcome>,
}

/// Whether a gate is open whose last call but one writes it, and whose last one syncs it, after a
/// failure of this one of so many calls, where a loose one becomes this.
fn is_open(call: u32, calls: u32, outcome: Outcome) -> bool {
    call > calls
        || match outcome {
            Outcome::Keep => call == calls,
            Outcome::Lose => false,
            Outcome::Fill(byte) => call.saturating_add(1) >= calls && byte == 165,
        }
}

impl Case<'_> {
    /// The case at a place in the list of each call of the work with each way in which loose sectors
    /// end, and at one in the list of the recovery's calls: after the first of them, the sync, loose
    /// sectors end in each way.
    pub(crate) fn at(way: Way<'_>, place: u32, again: u32) -> Case<'_> {
        Case {
            work: way.work,
            by_parts: way.by_parts,
            is_once: way.is_once,
            failing: (place / 6).wrapping_add(1),
            cut: CUTS[place as usize % 6],
            recovery: again.saturating_sub(5).wrapping_add(1),
            cut_again: CUTS[again as usize % 6],
        }
    }

    /// The batch that fails, counted from 0.
    fn batch(&self) -> u32 {
        let before = self.failing.wrapping_sub(1);
        before.checked_div(self.work.calls).unwrap_or(0)
    }

    /// Which call of that batch fails.
    fn call(&self) -> u32 {
        let before = self.failing.wrapping_sub(1);
        before
            .checked_rem(self.work.calls)
            .unwrap_or(0)
            .wrapping_add(1)
    }

    /// What a loose gate became by the first cut.
    fn first_outcome(&self) -> Outcome {
        self.cut.unwrap_or(Outcome::Keep)
    }

    /// What it became in the end. Once the recovery's sync, its first call, has succeeded, no cut
    /// changes it.
    fn outcome(&self) -> Outcome {
        match self.cut_again {
            Some(again) if self.recovery == 1 && again != Outcome::Keep => again,
            _ => self.first_outcome(),
        }
    }

    /// How many batches of the work are in, where a loose gate became this.
    fn batches_by(&self, outcome: Outcome) -> u32 {
        let is_in = is_open(self.call(), self.work.calls, outcome);
        self.batch().wrapping_add(u32::from(is_in))
    }

    /// How many batches of the work are in after the recovery.
    pub(crate) fn batches_in(&self) -> u32 {
        self.batches_by(self.outcome())
    }

    /// How many calls the first opening makes: the sync, the stamp, the pick, two sectors for each
    /// batch, and the closing gate. The half that a checkpoint begins has one batch.
    pub(crate) fn calls_of_opening(&self) -> u32 {
        let outcome = self.first_outcome();
        let is_picked = self.batch() > 0
            || is_open(self.call(), self.work.calls_of_checkpoint, outcome);
        let before = if is_picked {
            1
        } else {
            self.work.stops.wrapping_add(1)
        };
        before
            .wrapping_add(self.batches_by(outcome))
            .wrapping_mul(2)
            .wrapping_add(4)
    }

    /// What the recovery comes to.
    pub(crate) fn recovers(&self) -> Result<(), KeeperFault> {
        if self.recovery > self.calls_of_opening() {
            Ok(())
        } else {
            Err(KeeperFault::Journal(JournalFault::Disk))
        }
    }

    /// What a turn comes to that follows the recovery, and takes nothing.
    pub(crate) fn rests(&self) -> Result<Counts, KeeperFault> {
        match self.recovers() {
            Ok(()) => Ok(counts(0)),
            Err(_) => Err(KeeperFault::Journal(JournalFault::Broken)),
        }
    }

    /// What a turn comes to that takes so many commands as this batch, counted from 0.
    pub(crate) fn comes_to(&self, batch: u32, taken: usize) -> Result<Counts, KeeperFault> {
        let failed = self.batch();
        if batch < failed || failed == self.work.batches {
            return Ok(counts(taken));
        }
        let fault = if batch == failed {
            JournalFault::Disk
        } else {
            JournalFault::Broken
        };
        Err(KeeperFault::Journal(fault))
    }

    /// What a command of this batch is answered, if it is this where the batch is safe.
    pub(crate) fn answer(&self, batch: u32, reply: Option<Reply>) -> Option<Reply> {
        if batch < self.batch() {
            reply
        } else {
            Some(Reply::Unknown)
        }
    }

    /// What a call of this batch is answered after the recovery: its letter, or that no car has told
    /// where it is, where none has.
    pub(crate) fn answer_again(&self, batch: u32, is_placed: bool) -> Option<Reply> {
        if is_placed || batch < self.batches_in() {
            car(0)
        } else {
            Some(Reply::Refused(Reason::NoCar))
        }
    }
}

/// So many commands, all of them accepted.
pub(crate) fn counts(taken: usize) -> Counts {
    Counts {
        taken,
        accepted: taken,
    }
}
