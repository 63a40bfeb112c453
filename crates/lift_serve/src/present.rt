//! Which cars are present, and the policy of a group that is served.

ghost use Rattle.std.specs.Prelude.{◌≡◌};
ghost use Rattle.lift_policy.specs.Present.{IsDispatched, any_cars};
ghost use Rattle.lift_policy.specs.lemmas.Present.{dispatched_member};

use lift_base::{Letter, Reply, Terminal};
use lift_building::Building;
use lift_cost::NewCall;
use lift_policy::{CarSet, Dispatching, Eligible, GroupPolicy, Policy, Presence, View};
use std::marker::Model;
use std::sync::atomic::{AtomicU16, Ordering};

/// The cars whose sessions have reported where they are: a bit for each, which that car's own session
/// alone sets and clears. What it holds no contract says.
#[derive(Drop)]
pub struct PresentCars {
    bits: AtomicU16,
}

/// The bit of a terminal's car; none for a kiosk.
fn bit_of(terminal: Terminal) -> u16 {
    match terminal.car() {
        Some(car) => 1 << car.get(),
        None => 0,
    }
}

impl PresentCars {
    /// None has.
    pub fn new() -> Self {
        PresentCars {
            bits: AtomicU16::new(0),
        }
    }

    /// A session of this terminal heard this. A car whose report was taken is present from now on.
    pub fn heard(&self, terminal: Terminal, reply: &Reply) {
        match reply {
            Reply::Stopped(_) | Reply::Placed(_) => {
                self.bits.fetch_or(bit_of(terminal), Ordering::SeqCst);
            }
            Reply::Car(_) | Reply::Refused(_) | Reply::Unknown => {}
        }
    }

    /// The session of this terminal has ended: its car is absent until it reports again.
    pub fn leave(&self, terminal: Terminal) {
        self.bits.fetch_and(!bit_of(terminal), Ordering::SeqCst);
    }
}

impl Presence for PresentCars {
    ghost tells = { λ _. any_cars };

    fn present(&self) -> CarSet {
        CarSet {
            bits: self.bits.load(Ordering::SeqCst),
        }
    }
}

/// The policy of a group that is served, over the word of its own sessions. Contracts see how the group
/// dispatches.
#[derive(Drop)]
pub struct ServedPolicy<'p, P: Policy + Drop> {
    policy: GroupPolicy<'p, P, PresentCars>,
}

impl<'p, P: Policy + Drop> Model for ServedPolicy<'p, P> {
    ghost use Rattle.lift_policy.specs.declared.dispatching.Dispatching.{Dispatching};

    ghost Value = { Dispatching P };

    ghost view = { λ s. s.policy.dispatching };
}

impl<'p, P: Policy + Drop> ServedPolicy<'p, P> {
    /// Of a group that dispatches so, whose sessions keep this word.
    pub(crate) fn new(dispatching: Dispatching<P>, presence: &'p PresentCars) -> Self
        ensures { result ≡ dispatching }
    {
        ServedPolicy {
            policy: GroupPolicy {
                dispatching,
                presence,
            },
        }
    }
}

impl<'p, P: Policy + Drop> Policy for ServedPolicy<'p, P> {
    ghost chooses = { IsDispatched any_cars P.chooses };

    fn choose(&self, building: &Building, view: &View, call: NewCall, among: Eligible) -> Letter {
        self.policy.choose(building, view, call, among)
    }

    ghost only_members = { dispatched_member any_cars P.chooses P.only_members };
}
