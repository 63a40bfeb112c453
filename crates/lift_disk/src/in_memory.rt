//! The work on the sectors of a device in memory, and on the flags of those that no sync has made
//! safe.
ghost use Rattle.std.specs.Prelude.{◌≡◌, ◌≤◌, ◌<◌, ◌+◌, [], ℕ, length, replicate, slice_get};
ghost use Rattle.std.specs.Prelude.{slice_index_or, slice_set, Some, false, IfOk};
ghost use Rattle.lift_disk.specs.Disk.{ChangesWithin};
ghost use Rattle.lift_disk.specs.Memory.{IsFlagged, IsWithin, LeavesBy};
ghost use Rattle.lift_disk.specs.Places.{all_now, all_safe};
ghost use Rattle.lift_disk.specs.Runs.{HoldsRun, with_run};

use crate::Outcome;
use crate::span::Span;
use crate::two_places::TwoPlaces;
use lift_memory::{Memory, push};
use std::alloc::Global;

/// No flag is set any more. Outside of the span none was.
pub(crate) fn clear(flags: &mut Vec<bool>, span: Span)
    requires bound { span.end ≤ length flags.old.items }
    requires spanned { (i : ℕ) → IsFlagged flags.old.items i → IsWithin span.from span.end i }
    ensures { flags.new.items ≡ replicate (length flags.old.items) false }
{
    for i in span.from..span.end {
        flags[i] = false;
    }
}

/// What was written last in this sector.
#[inline]
pub(crate) fn now_at(sectors: &[TwoPlaces], index: usize) -> &[u8; 512]
    requires { index < length (all_now sectors.now) }
    ensures { result.now ≡ slice_index_or (all_now sectors.now) index [] }
{
    sectors[index].now()
}

/// Writes these bytes in this sector. What is safe in it stays.
#[inline]
fn write_at(sectors: &mut Vec<TwoPlaces>, index: usize, bytes: &[u8; 512])
    requires { index < length (all_now sectors.old.items) }
    ensures now { all_now sectors.new.items
        ≡ slice_set (all_now sectors.old.items) index bytes.now }
    ensures safe { all_safe sectors.new.items ≡ all_safe sectors.old.items }
{
    sectors[index].write(bytes);
}

/// Makes safe what was written last in this sector.
#[inline]
fn save_at(sectors: &mut Vec<TwoPlaces>, index: usize)
    requires { index < length (all_now sectors.old.items) }
    ensures now { all_now sectors.new.items ≡ all_now sectors.old.items }
    ensures safe { all_safe sectors.new.items ≡ slice_set (all_safe sectors.old.items) index
        (slice_index_or (all_now sectors.old.items) index []) }
{
    sectors[index].save();
}

/// What is safe in this sector is there again.
#[inline]
fn take_back_at(sectors: &mut Vec<TwoPlaces>, index: usize)
    requires { index < length (all_now sectors.old.items) }
    ensures now { all_now sectors.new.items ≡ slice_set (all_now sectors.old.items) index
        (slice_index_or (all_safe sectors.old.items) index []) }
    ensures safe { all_safe sectors.new.items ≡ all_safe sectors.old.items }
{
    sectors[index].take_back();
}

/// Makes safe what was written last in the flagged sectors. In the others it is already.
pub(crate) fn save_flagged(flags: &[bool], span: Span, sectors: &mut Vec<TwoPlaces>)
    requires sized { length flags.now ≡ length (all_now sectors.old.items) }
    requires bound { span.end ≤ length flags.now }
    requires spanned { (i : ℕ) → IsFlagged flags.now i → IsWithin span.from span.end i }
    requires kept { ChangesWithin (IsFlagged flags.now) (all_now sectors.old.items)
        (all_safe sectors.old.items) }
    ensures now { all_now sectors.new.items ≡ all_now sectors.old.items }
    ensures safe { all_safe sectors.new.items ≡ all_now sectors.old.items }
{
    for i in span.from..span.end {
        if flags[i] {
            save_at(sectors, i);
        }
    }
}

/// What is safe in these sectors is there again. In the others it still is.
fn take_back(sectors: &mut Vec<TwoPlaces>, lost: &[bool])
    requires sized { length lost.now ≡ length (all_now sectors.old.items) }
    requires kept { ChangesWithin (IsFlagged lost.now) (all_now sectors.old.items)
        (all_safe sectors.old.items) }
    ensures now { all_now sectors.new.items ≡ all_safe sectors.old.items }
    ensures safe { all_safe sectors.new.items ≡ all_safe sectors.old.items }
{
    for i in 0..lost.len() {
        if lost[i] {
            take_back_at(sectors, i);
        }
    }
}

/// Copies as many sectors as there is room for, from this place on.
pub(crate) fn read_sectors(sectors: &[TwoPlaces], from: usize, room: &mut [[u8; 512]])
    requires { from + length room.old ≤ length (all_now sectors.now) }
    ensures { HoldsRun from (length room.new) room.new (all_now sectors.now) }
{
    for i in 0..room.len() {
        room[i] = *now_at(sectors, from + i);
    }
}

/// Writes these sectors over those from this place on.
pub(crate) fn write_sectors(sectors: &mut Vec<TwoPlaces>, from: usize, run: &[[u8; 512]])
    requires inside { from + length run.now ≤ length (all_now sectors.old.items) }
    ensures now { all_now sectors.new.items ≡ with_run from run.now (all_now sectors.old.items) }
    ensures safe { all_safe sectors.new.items ≡ all_safe sectors.old.items }
{
    for i in 0..run.len() {
        write_at(sectors, from + i, &run[i]);
    }
}

/// Fills the loose sectors with this byte.
fn fill(sectors: &mut Vec<TwoPlaces>, loose: &[bool], byte: u8)
    requires { length loose.now ≡ length (all_now sectors.old.items) }
    ensures size { length (all_now sectors.new.items) ≡ length (all_now sectors.old.items) }
    ensures loose { (i : ℕ) → IsFlagged loose.now i
        → slice_get (all_now sectors.new.items) i ≡ Some (replicate 512 byte) }
    ensures others { (i : ℕ) → ¬ IsFlagged loose.now i
        → slice_get (all_now sectors.new.items) i ≡ slice_get (all_now sectors.old.items) i }
    ensures safe { all_safe sectors.new.items ≡ all_safe sectors.old.items }
{
    let bytes = [byte; 512];
    for i in 0..loose.len() {
        if loose[i] {
            write_at(sectors, i, &bytes);
        }
    }
}

/// What a power cut makes of the sectors.
pub(crate) fn leave(outcome: Outcome, sectors: &mut Vec<TwoPlaces>, loose: &[bool])
    requires sized { length loose.now ≡ length (all_now sectors.old.items) }
    requires kept { ChangesWithin (IsFlagged loose.now) (all_now sectors.old.items)
        (all_safe sectors.old.items) }
    ensures left { LeavesBy outcome (all_now sectors.old.items) (all_safe sectors.old.items)
        loose.now (all_now sectors.new.items) }
    ensures within { ChangesWithin (IsFlagged loose.now) (all_now sectors.old.items)
        (all_now sectors.new.items) }
    ensures safe { all_safe sectors.new.items ≡ all_safe sectors.old.items }
{
    match outcome {
        Outcome::Keep => {}
        Outcome::Lose => take_back(sectors, loose),
        Outcome::Fill(byte) => fill(sectors, loose, byte),
    }
}

/// This many sectors of zeros, all of them safe.
pub(crate) fn zeros(alloc: Global, count: u32) -> Result<Vec<TwoPlaces>, Memory>
    ensures now { IfOk result (λ v. all_now v.items ≡ replicate count (replicate 512 0)) }
    ensures safe { IfOk result (λ v. all_safe v.items ≡ replicate count (replicate 512 0)) }
{
    let mut sectors = Vec::new(alloc);
    for _i in 0..count {
        push(&mut sectors, TwoPlaces::zeros())?;
    }
    Ok(sectors)
}

/// This many flags, none of them set.
pub(crate) fn no_flags(alloc: Global, count: u32) -> Result<Vec<bool>, Memory>
    ensures { IfOk result (λ v. v.items ≡ replicate count false) }
{
    let mut flags = Vec::new(alloc);
    for _i in 0..count {
        push(&mut flags, false)?;
    }
    Ok(flags)
}
