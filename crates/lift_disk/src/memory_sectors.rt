//! The sectors of a device in memory, and which of them no sync has made safe.
ghost use Rattle.std.specs.Prelude.{◌≡◌, ◌≤◌, ◌<◌, ◌+◌, ◌^◌, ℕ, length, replicate, slice_get};
ghost use Rattle.std.specs.Prelude.{slice_set, Some, true, false, IfOk};
ghost use Rattle.lift_disk.specs.Disk.{ChangesWithin};
ghost use Rattle.lift_disk.specs.Memory.{IsFlagged, IsWithin, LeavesBy};
ghost use Rattle.lift_disk.specs.Places.{all_now, all_safe};
ghost use Rattle.lift_disk.specs.Runs.{HoldsRun, IsInRun, with_run};

use crate::Outcome;
use crate::in_memory::{
    clear, leave, no_flags, now_at, read_sectors, save_flagged, write_sectors, zeros,
};
use crate::span::Span;
use crate::two_places::TwoPlaces;
use lift_memory::Memory;
use std::alloc::Global;

/// What was written last in each sector, and what the last sync made safe. A write copies its bytes
/// once, and a sync copies nothing.
#[derive(Drop)]
pub(crate) struct MemorySectors {
    places: Vec<TwoPlaces>,
    loose: Vec<bool>,
    /// No sector outside of it is loose, so that a sync need not look at them all.
    span: Span,
    ghost sized: { length loose.items ≡ length (all_now places.items) },
    ghost fits: { length (all_now places.items) < 2 ^ 32 },
    ghost spanned: { (i : ℕ) → IsFlagged loose.items i → IsWithin span.from span.end i },
    ghost order: { span.from ≤ span.end },
    ghost bound: { span.end ≤ length (all_now places.items) },
    ghost kept: { ChangesWithin (IsFlagged loose.items) (all_now places.items)
        (all_safe places.items) },
}

impl MemorySectors {
    /// This many sectors of zeros, all of them safe.
    pub(crate) fn new(alloc: Global, count: u32) -> Result<MemorySectors, Memory>
        ensures now { IfOk result (λ m.
            all_now m.places.items ≡ replicate count (replicate 512 0)) }
        ensures safe { IfOk result (λ m.
            all_safe m.places.items ≡ replicate count (replicate 512 0)) }
        ensures loose { IfOk result (λ m. m.loose.items ≡ replicate count false) }
    {
        Ok(MemorySectors {
            places: zeros(alloc, count)?,
            loose: no_flags(alloc, count)?,
            span: Span::none(),
        })
    }

    /// How many there are.
    pub(crate) fn count(&self) -> u32
        ensures { result ≡ length (all_now self.now.places.items) }
    {
        self.places.len() as u32
    }

    /// All of them, each in its two places.
    #[inline(always)]
    pub(crate) fn as_slice(&self) -> &[TwoPlaces]
        ensures { result.now ≡ self.now.places.items }
    {
        &self.places
    }

    /// Which of them are loose.
    #[inline(always)]
    pub(crate) fn loose(&self) -> &[bool]
        ensures { result.now ≡ self.now.loose.items }
    {
        &self.loose
    }

    /// What was written last in this one.
    #[inline]
    pub(crate) fn get(&self, sector: u32) -> &[u8; 512]
        requires { sector < length (all_now self.now.places.items) }
        ensures { slice_get (all_now self.now.places.items) sector ≡ Some result.now }
    {
        now_at(&self.places, sector as usize)
    }

    /// What was written last in as many as there is room for, from this one on.
    pub(crate) fn read_run(&self, sector: u32, run: &mut [[u8; 512]])
        requires { sector + length run.old ≤ length (all_now self.now.places.items) }
        ensures { HoldsRun sector (length run.new) run.new (all_now self.now.places.items) }
    {
        read_sectors(&self.places, sector as usize, run);
    }

    /// One more is loose.
    #[inline]
    pub(crate) fn loosen(&mut self, sector: u32)
        requires { sector < length (all_now self.old.places.items) }
        ensures places { self.new.places ≡ self.old.places }
        ensures loose { self.new.loose.items ≡ slice_set self.old.loose.items sector true }
    {
        self.loose[sector as usize] = true;
        self.span = self.span.with(sector);
    }

    /// Writes these over as many from this one on, each of which is loose. What is safe stays.
    pub(crate) fn write_run(&mut self, sector: u32, run: &[[u8; 512]])
        requires inside { sector + length run.now ≤ length (all_now self.old.places.items) }
        requires announced { (i : ℕ) → ¬ IsFlagged self.old.loose.items i
            → ¬ IsInRun sector (length run.now) i }
        ensures now { all_now self.new.places.items
            ≡ with_run sector run.now (all_now self.old.places.items) }
        ensures safe { all_safe self.new.places.items ≡ all_safe self.old.places.items }
        ensures loose { self.new.loose ≡ self.old.loose }
    {
        write_sectors(&mut self.places, sector as usize, run);
    }

    /// What was written last is safe, and none is loose.
    pub(crate) fn sync(&mut self)
        ensures now { all_now self.new.places.items ≡ all_now self.old.places.items }
        ensures safe { all_safe self.new.places.items ≡ all_now self.old.places.items }
        ensures loose { self.new.loose.items ≡ replicate (length self.old.loose.items) false }
    {
        save_flagged(&self.loose, self.span, &mut self.places);
        clear(&mut self.loose, self.span);
        self.span = Span::none();
    }

    /// What a power cut makes of them. They stay loose, and what is safe stays.
    pub(crate) fn leave(&mut self, outcome: Outcome)
        ensures left { LeavesBy outcome (all_now self.old.places.items)
            (all_safe self.old.places.items) self.old.loose.items
            (all_now self.new.places.items) }
        ensures within { ChangesWithin (IsFlagged self.old.loose.items)
            (all_now self.old.places.items) (all_now self.new.places.items) }
        ensures safe { all_safe self.new.places.items ≡ all_safe self.old.places.items }
        ensures loose { self.new.loose ≡ self.old.loose }
    {
        leave(outcome, &mut self.places, &self.loose);
    }
}
