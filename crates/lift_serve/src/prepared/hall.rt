//! What the threads of a serving share.

ghost use Rattle.std.specs.Prelude.{◌≡◌, Option, IfErr, IfSome, IsErr};
ghost use Rattle.lift_serve.specs.Open.{IsEndAt, ended_in, reported_after};
ghost use Rattle.lift_serve.specs.declared.serving.ServeFault.{ServeFault};

use super::connections::{Connections, ServingEnd};
use super::seating::Lobby;
use super::terms::ServingTerms;
use crate::over::Over;
use crate::pace::Pace;
use crate::present::PresentCars;
use lift_building::Building;
use lift_relay::BothRun;
use std::sync::{Mutex, Wait};
use std::thread;
use std::time::{Clock, Duration};

/// How long sessions that are on their way have for their last answers, once all have ended that
/// were to end, ms.
const FAREWELL_MS: u64 = 1_000;

/// What the threads of a serving share. Only `ReadyGroup::begun` makes one, and its lobby is that which
/// `prepare` made. It can't be let go: how the serving ended is said by its connections.
pub(crate) struct Hall<'d, 'b> {
    pub(crate) building: &'b Building,
    pub(crate) bound: ServingTerms,
    pub(super) lobby: Mutex<Lobby<'d>>,
    pub(crate) present: &'d PresentCars,
    pub(crate) pace: Pace<'d>,
    pub(crate) connections: Mutex<Connections>,
}

impl<'d, 'b> Hall<'d, 'b> {
    /// Where the seats wait that no session has.
    pub(crate) fn lobby(&self) -> &Mutex<Lobby<'d>> {
        &self.lobby
    }

    pub(crate) fn is_over<R: Wait>(&self, rt: &R) -> Option<Over>
        ensures { IfSome result (IsEndAt self.now.bound) }
    {
        self.connections.lock(rt).is_over(&self.bound)
    }

    /// How the accepting is over, as it stays from then on.
    pub(crate) fn over<R: Wait>(&self, rt: &R) -> Over
        ensures { IsEndAt self.now.bound result }
    {
        // (it is over when this is called, and no clause knows what the lock holds)
        for _ in rt.forever() {
            if let Some(over) = self.is_over(rt) {
                return over;
            }
        }
        unreachable!()
    }

    /// No connection is served any more.
    pub(crate) fn give_up<R: Wait>(&self, rt: &R, over: &Over)
        requires { IsErr over.now }
    {
        self.connections.lock(rt).give_up(&self.bound, over);
        self.pace.ring_at_doors();
    }

    /// Waits until both parts have a thread; or all are given up, since one was refused.
    pub(crate) fn wait_for_both<R: Wait>(&self, rt: &R) -> Result<&BothRun, Over>
        ensures { IfErr result (IsEndAt self.now.bound) }
    {
        for _ in rt.forever() {
            if let Some(both) = self.pace.begun() {
                return Ok(both);
            }
            if let Some(over) = self.is_over(rt) {
                return Err(over);
            }
            self.pace.wait_at_doors(rt);
        }
        unreachable!()
    }

    /// Sessions that wait for an answer have a while to write it. What is still open then is
    /// closed, and waits no more.
    pub(crate) fn see_off<R: Wait + Clock>(&self, rt: &R, over: &Over) {
        for _ in 0..FAREWELL_MS {
            if self.connections.lock(rt).is_empty() {
                return;
            }
            thread::sleep(rt, Duration::from_millis(1));
        }
        let shut = self.connections.lock(rt).close(over);
        self.pace.leave_all(shut);
    }

    /// How the serving ended whose accepting was over so. Told is that all were given up, and else the
    /// first shortage.
    pub(crate) fn into_end(self, over: Over) -> ServingEnd
        ensures fault { (first : Option ServeFault) × (result.fault ≡ reported_after over first) }
        ensures ended { result.ended ≡ ended_in over }
    {
        let Hall {
            building: _,
            bound: _,
            lobby: _,
            present: _,
            pace: _,
            connections,
        } = self;
        connections.into_inner().into_end(over)
    }
}
