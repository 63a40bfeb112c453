//! The search for a flight that a stop on the way would make shorter.

ghost use Rattle.std.specs.Prelude.{◌≡◌, ℕ, ◌+◌, ◌<◌, ◌≤◌, IfNone, IfSome, IsTrue, length};
ghost use Rattle.std.specs.Prelude.{slice_index};
ghost use Rattle.lift_building.specs.Plan.{flight_ms, detour_ms, IsDirect, HasNoDetour};
ghost use Rattle.lift_building.specs.Plan.{IsFirstDetourFrom, IsFirstDetour, HasLimits};
ghost use Rattle.lift_building.specs.Layout.{layout_view};

use crate::layout::Layout;

/// Whether no time of the first is longer than the one beside it with so much more.
fn are_within(direct: &[u32], onwards: &[u32], more: u32) -> bool
    requires same { length direct.now ≡ length onwards.now }
    requires short { (k : ℕ) → k < length onwards.now
        → more + slice_index onwards.now k < 4294967296 }
    ensures { IsTrue result → (k : ℕ) → k < length direct.now
        → slice_index direct.now k ≤ more + slice_index onwards.now k }
{
    let mut within = true;
    for k in 0..direct.len() {
        within &= direct[k] <= more + onwards[k];
    }
    within
}

/// Whether no flight from floor i is longer than with a stop at floor j.
fn are_direct(layout: &Layout, i: usize, j: usize) -> bool
    requires limits { HasLimits (layout_view layout.now) }
    requires from { i < layout.now.floors }
    requires by { j < layout.now.floors }
    ensures { IsTrue result → (k : ℕ) → k < layout.now.floors
        → IsDirect (layout_view layout.now) i j k }
{
    let more = layout.flight(i, j) + layout.door_ms;
    are_within(layout.flights_from(i), layout.flights_from(j), more)
}

/// The first floor to which the flight from floor i is longer than with a stop at floor j.
fn detour_to(layout: &Layout, i: usize, j: usize) -> Option<usize>
    requires limits { HasLimits (layout_view layout.now) }
    requires from { i < layout.now.floors }
    requires by { j < layout.now.floors }
    ensures none { IfNone result ((k : ℕ) → k < layout.now.floors
        → IsDirect (layout_view layout.now) i j k) }
    ensures to { IfSome result (λ k. k < layout.now.floors) }
    ensures longer { IfSome result (λ k.
        detour_ms (layout_view layout.now) i j k < flight_ms (layout_view layout.now) i k) }
    ensures first { IfSome result (λ k. (c : ℕ) → c < k → IsDirect (layout_view layout.now) i j c) }
{
    if are_direct(layout, i, j) {
        return None;
    }
    for k in 0..layout.floors as usize {
        if layout.flight(i, j) + layout.door_ms + layout.flight(j, k) < layout.flight(i, k) {
            return Some(k);
        }
    }
    None
}

/// The first floors j and k for which the flight from floor i to k is longer than with a stop at j.
fn detour_by(layout: &Layout, i: usize) -> Option<(usize, usize)>
    requires limits { HasLimits (layout_view layout.now) }
    requires from { i < layout.now.floors }
    ensures none { IfNone result ((j k : ℕ) → j < layout.now.floors → k < layout.now.floors
        → IsDirect (layout_view layout.now) i j k) }
    ensures some { IfSome result (λ jk. IsFirstDetourFrom (layout_view layout.now) i jk.0 jk.1) }
{
    for j in 0..layout.floors as usize {
        if let Some(k) = detour_to(layout, i, j) {
            return Some((j, k));
        }
    }
    None
}

/// The first floors i, j and k for which the flight from i to k is longer than with a stop at j.
pub(crate) fn first_detour(layout: &Layout) -> Option<(usize, usize, usize)>
    requires { HasLimits (layout_view layout.now) }
    ensures none { IfNone result (HasNoDetour (layout_view layout.now)) }
    ensures some { IfSome result (λ ijk. IsFirstDetour (layout_view layout.now) ijk.0 ijk.1 ijk.2) }
{
    for i in 0..layout.floors as usize {
        if let Some((j, k)) = detour_by(layout, i) {
            return Some((i, j, k));
        }
    }
    None
}
