//! How a session rests between two looks, and who is told of its asks and answers.

ghost use Rattle.std.specs.Prelude.{◌≡◌};
ghost use Rattle.lift_kiosk.specs.Desk.{asks_at};

use crate::pace::{Pace, Pager, RingCount};
use crate::present::PresentCars;
use lift_base::{Reply, Terminal};
use lift_desk::Seat;
use lift_kiosk::Rest;
use std::snapshot::Snapshot;
use std::sync::Wait;
use std::time::Clock;

/// Sleeps at a terminal's pager for a millisecond, or until its answer is stored. It wakes the
/// allocator after each ask, once that is stored, and just once. That a car's report was answered it
/// tells to who keeps which cars are present.
#[derive(Drop)]
pub struct Sleep<'r, R: Wait + Clock> {
    rt: &'r R,
    pace: &'r Pace<'r>,
    pager: &'r Pager,
    terminal: Terminal,
    present: &'r PresentCars,
    rung: RingCount,
}

impl<'r, R: Wait + Clock> Sleep<'r, R> {
    /// At this seat, with the runtime that it sleeps by, what wakes the allocator, its terminal's pager,
    /// and who keeps which cars are present.
    pub fn new(
        seat: &Seat,
        rt: &'r R,
        pace: &'r Pace<'r>,
        pager: &'r Pager,
        present: &'r PresentCars,
    ) -> Self
        ensures { result.rung ≡ asks_at seat.now }
    {
        Sleep {
            rt,
            pace,
            pager,
            terminal: seat.terminal(),
            present,
            rung: RingCount::of(seat),
        }
    }
}

impl<'r, R: Wait + Clock> Rest for Sleep<'r, R> {
    ghost was_notified = { λ s asks. s.rung ≡ asks };

    fn asked(&mut self, _seat: Snapshot<Seat>) {
        let paged = self.pager.asked();
        self.pace.ring(paged, &mut self.rung);
    }

    fn heard(&self, reply: &Reply) {
        self.pager.heard();
        self.present.heard(self.terminal, reply);
    }

    fn rest(&self) {
        self.pager.rest(self.rt);
    }
}
