//! What the machine of events is while a clerk runs.

ghost use Rattle.lift_keeper.specs.Calls.{ReopeningCalls};
ghost use Rattle.lift_world.specs.Policies.{RunsAreAny};
ghost use Rattle.lift_clerk.specs.Laws.{Laws, TurnsAreTheMachines};
ghost use Rattle.lift_clerk.specs.Once.{TurnsOnce, ReopensOnce};

use crate::clerk::Clerk;
use crate::counts::Counts;
use lift_disk::Disk;
use lift_keeper::KeeperFault;
use lift_policy::Policy;
use lift_register::registers_join;
use lift_world::{
    events_are_possible, every_run, parts_interleave, policies_are_covered, relays_are_events,
    terminals_pass, turns_are_events, turns_end_at_rest,
};

/// What is proved of the machine, by this or any policy: what a tie to it stands on.
pub fn machine_laws<P: Policy>()
    ensures laws { Laws }
    ensures covered { (policy : P) → RunsAreAny (P.chooses policy) }
{
    policies_are_covered::<P>();
    laws();
}

// What is proved of the machine, whatever runs it.
pub(crate) fn laws()
    ensures { Laws }
{
    every_run();
    events_are_possible();
    turns_are_events();
    relays_are_events();
    turns_end_at_rest();
    parts_interleave();
    terminals_pass();
    registers_join();
}

/// A clerk's group is in some world of the machine between any two calls. Each turn is a list of
/// possible events, with just its commands and their replies, and leads to the group's next world:
/// a turn that answers Ok, one that the device failed, and one while broken. What terminals ask and
/// hear between two calls leads to such a world too.
pub fn turns_are_the_machines<D: Disk, P: Policy>()
    ensures { TurnsAreTheMachines D P P.chooses }
{
    machine_laws::<P>();
}

/// One turn, and which turn of the machine it is.
pub fn turn_once<D: Disk, P: Policy + Drop>(
    clerk: &mut Clerk<'_, '_, D, P>,
) -> Result<Counts, KeeperFault>
    ensures turn { TurnsOnce
        D.state (P.chooses clerk.old.policy) clerk.old clerk.new result }
{
    clerk.turn()
}

/// One reopening likewise.
pub fn reopen_once<D: Disk, P: Policy + Drop>(
    clerk: &mut Clerk<'_, '_, D, P>,
) -> Result<(), KeeperFault>
    ensures reopening { ReopensOnce D.state clerk.old clerk.new result }
    ensures calls { ReopeningCalls D.state clerk.old.keeper.writer clerk.new.keeper.writer result }
{
    clerk.reopen()
}
