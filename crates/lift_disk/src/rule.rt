//! Rules by which a device that was armed to fail does so.
ghost use Rattle.std.specs.Prelude.{◌↔◌, ◌+◌, ℕ, IsTrue};
ghost use Rattle.lift_disk.specs.Faults.{AllAfter, CountsDown, OnlyLast};
ghost use Rattle.lift_disk.specs.Faults.{all_after_counts_down, only_last_counts_down};

/// Which calls fail, by the number that the device was armed with.
pub trait FaultRule {
    /// Armed with this number, when this many calls had been made: whether this call fails, counted
    /// from the first of all.
    ghost fails: { ℕ → ℕ → ℕ → Type 0 };

    /// Whether the next call fails, with this many calls left.
    fn is_due(calls_left: u32) -> bool
        ensures { (made : ℕ) → IsTrue result ↔ fails calls_left made (made + 1) };

    /// One call on, with one fewer left if one was, the same later calls fail.
    ghost counts_down: { CountsDown fails };
}

/// After this many calls each one fails.
#[derive(Drop)]
pub struct Fuse;

/// Of this many calls the last one fails, and no later one.
#[derive(Drop)]
pub struct Flaky;

impl FaultRule for Fuse {
    ghost fails = { AllAfter };

    ghost counts_down = { all_after_counts_down };

    fn is_due(calls_left: u32) -> bool {
        calls_left == 0
    }
}

impl FaultRule for Flaky {
    ghost fails = { OnlyLast };

    ghost counts_down = { only_last_counts_down };

    fn is_due(calls_left: u32) -> bool {
        calls_left == 1
    }
}
