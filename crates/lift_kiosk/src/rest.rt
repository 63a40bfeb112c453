//! How a port rests between two looks, and who is told of what is asked and heard there.

ghost use Rattle.std.specs.Prelude.{◌≡◌, ℕ, suc};
ghost use Rattle.lift_kiosk.specs.Desk.{asks_at};

use lift_base::Reply;
use lift_desk::Seat;
use std::snapshot::Snapshot;
use std::thread;

/// A way to rest between two looks. It sees no seat, and so can neither ask nor look.
pub trait Rest {
    /// It was told of so many asks at its port's seat: of each once, after that was stored.
    ghost was_notified: { Self → ℕ → Type 0 };

    /// One ask more is stored at the seat, which is so now.
    fn asked(&mut self, seat: Snapshot<Seat>)
        ensures { (before : ℕ) → asks_at seat.value ≡ suc before → was_notified self.old before
            → was_notified self.new (suc before) };

    /// An answer was heard.
    fn heard(&self, reply: &Reply);

    /// Rests once.
    fn rest(&self);
}

/// Lets other threads run, and has nobody told.
#[derive(Drop)]
pub struct Yield;

impl Rest for Yield {
    ghost was_notified = { λ _ _. Unit {0} };

    fn asked(&mut self, _seat: Snapshot<Seat>) {}

    fn heard(&self, _reply: &Reply) {}

    fn rest(&self) {
        thread::yield_now();
    }
}
