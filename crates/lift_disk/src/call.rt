//! What was done to a device in memory, as only proofs read it. It takes no memory, and its methods
//! do nothing at run time.
ghost use Rattle.std.specs.Prelude.{◌≡◌, ◌++◌, [], ◌∷◌, List};
ghost use Rattle.std.specs.Borrow.{ftrue};
ghost use Rattle.lift_disk.specs.Disk.{Image};
ghost use Rattle.lift_disk.specs.Calls.{Call, calls_code, image_code, writes_of};
ghost use Rattle.lift_disk.specs.Calls.Call.{Sync};

use crate::two_places::TwoPlaces;
use std::marker::Model;

/// What is recorded.
#[derive(Clone, Copy, Drop)]
enum Change<'a> {
    /// The device begins with what was written last in these sectors, and no call.
    First(&'a [TwoPlaces]),
    /// These sectors are written, from that one on.
    Write(u32, &'a [[u8; 512]]),
    /// A sync, and whether each sector was loose until then.
    Sync(&'a [bool]),
}

/// The sectors at first, and the writes and syncs that have succeeded since.
#[derive(Drop)]
pub(crate) struct ProofHistory {
    pub ghost first: { Image } by { image_code },
    pub ghost calls: { List Call } by { calls_code },
}

impl Model for ProofHistory {
    ghost also_owns = { λ _. ftrue };
}

impl ProofHistory {
    ghost use Rattle.lift_disk.specs.Noted.{first_after, calls_after};
    ghost use Rattle.lift_disk.specs.Places.{all_now};

    /// No sector, and no call.
    fn new() -> ProofHistory
        ensures { (result.first ≡ []) × (result.calls ≡ []) }
    {
        ProofHistory {}
    }

    /// What is known after this.
    #[inline(always)]
    fn then(&self, _change: &Change<'_>) -> ProofHistory
        ensures { (result.first ≡ first_after _change.now self.now.first)
            × (result.calls ≡ calls_after _change.now self.now.calls) }
    {
        ProofHistory {}
    }

    /// A device that begins with what was written last in these sectors, and no call.
    #[inline(always)]
    pub(crate) fn begin(sectors: &[TwoPlaces]) -> ProofHistory
        ensures { (result.first ≡ all_now sectors.now) × (result.calls ≡ []) }
    {
        ProofHistory::new().then(&Change::First(sectors))
    }

    /// Records the writes of these sectors, from that one on.
    #[inline(always)]
    pub(crate) fn note_run(&mut self, sector: u32, run: &[[u8; 512]])
        ensures { (self.new.first ≡ self.old.first)
            × (self.new.calls ≡ self.old.calls ++ writes_of sector run.now) }
    {
        *self = self.then(&Change::Write(sector, run));
    }

    /// Records a sync, with the sectors that were loose until then.
    #[inline(always)]
    pub(crate) fn note_sync(&mut self, loose: &[bool])
        ensures { (self.new.first ≡ self.old.first)
            × (self.new.calls ≡ self.old.calls ++ Sync loose.now ∷ []) }
    {
        *self = self.then(&Change::Sync(loose));
    }
}
