//! What a policy is.
ghost use Rattle.std.specs.Prelude.{ℕ, List, ◌≡◌, ◌<◌, Contains};
ghost use Rattle.lift_building.specs.Plan.{Plan};
ghost use Rattle.lift_cost.specs.declared.call.NewCall.{NewCall as Call};
ghost use Rattle.lift_policy.specs.View.{ViewState, IsViewIn};
ghost use Rattle.lift_policy.specs.Eligible.{AreEligible};

use crate::eligible::Eligible;
use crate::view::View;
use lift_base::Letter;
use lift_building::Building;
use lift_cost::NewCall;

/// Which of the eligible cars takes a call.
pub trait Policy {
    /// Which cars this policy may name in a building, at what it sees, for a call, of these
    /// eligible cars.
    ghost chooses: { Self → Plan → ViewState → Call → List ℕ → ℕ → Type 0 };

    /// Names one of these cars, each of which may take the call at what is seen: `Eligible::among`
    /// of the same building, view and call gives all of them. The call is between two floors of the
    /// building.
    fn choose(&self, building: &Building, view: &View, call: NewCall, eligible: Eligible) -> Letter
        requires possible { IsViewIn building.now view.now }
        requires from { call.from < building.now.floors }
        requires to { call.to < building.now.floors }
        requires eligible { AreEligible building.now view.now call eligible }
        ensures member { Contains eligible result }
        ensures chosen { chooses self.now building.now view.now call eligible result };

    /// Whatever it may name is one of the eligible cars.
    ghost only_members: { (policy : Self) (plan : Plan) (view : ViewState) (call : Call)
        (eligible : List ℕ) (car : ℕ)
        → chooses policy plan view call eligible car → Contains eligible car };
}
