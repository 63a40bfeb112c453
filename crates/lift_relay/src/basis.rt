//! What decisions read, as contracts see it.

ghost use Rattle.std.specs.Prelude.{◌≡◌, []};
ghost use Rattle.lift_decider.specs.Decider.{state_of};

use lift_base::MOST_CARS;
use lift_decider::Decider;
use lift_register::Register;
use lift_stops::Schedule;
use std::marker::Model;
use std::snapshot::Snapshot;

/// What decisions read with nothing in the batch: the calls, and where the cars are. It takes no
/// room.
#[derive(Drop)]
pub struct Basis {
    register: Snapshot<Register>,
    schedules: Snapshot<[Option<Schedule>; MOST_CARS]>,
}

impl Model for Basis {
    ghost use Rattle.lift_policy.specs.Step.{State};

    ghost Value = { State };

    ghost use Rattle.lift_relay.specs.BasisInside.{seen};

    ghost view = { seen };
}

impl Basis {
    /// These calls, and cars with these schedules.
    pub(crate) fn of(register: &Register, schedules: &[Option<Schedule>; MOST_CARS]) -> Self
        ensures { result ≡ state_of register.now schedules.now [] }
    {
        Basis {
            register: Snapshot::of(register),
            schedules: Snapshot::of(schedules),
        }
    }

    /// What a decider reads, with nothing in the batch.
    pub(crate) fn of_decider(decider: &Decider<'_>) -> Self
        ensures { result ≡ record decider.now.state { batch = [] } }
    {
        Basis::of(decider.register(), decider.schedules())
    }
}
