//! What every decision keeps.
ghost use Rattle.lift_policy.specs.Choices.{Measure, PicksLeast};
ghost use Rattle.lift_policy.specs.Decision.{least_pick};
ghost use Rattle.lift_policy.specs.Laws.{StepsJoinAtMostOne, RefusalsAreFirstCauses, StepsAreKnown};
ghost use Rattle.lift_policy.specs.Laws.{StepsPreserveStates, StepsTell, RunsJoin, StepsAreDecisions};

use crate::policy::Policy;

/// What every decision keeps, under any policy.
pub fn decisions_preserve<P: Policy>(policy: &P)
    ensures joins { StepsJoinAtMostOne (P.chooses policy.now) }
    ensures refusals { RefusalsAreFirstCauses (P.chooses policy.now) }
    ensures known { StepsAreKnown (P.chooses policy.now) }
    ensures states { StepsPreserveStates (P.chooses policy.now) }
    ensures tells { StepsTell (P.chooses policy.now) }
    ensures runs { RunsJoin (P.chooses policy.now) }
{
    let _ = policy;
}

/// Who picks the least leaves no choice, as the three policies do: what is decided is what a function
/// computes.
pub fn decisions_are_computed()
    ensures { (measure : Measure) → StepsAreDecisions (PicksLeast measure) (least_pick measure) }
{}
