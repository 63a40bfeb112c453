//! How a group dispatches, and the policy that does so.

ghost use Rattle.lift_policy.specs.Present.{IsDispatched};
ghost use Rattle.lift_policy.specs.lemmas.Present.{dispatched_member};

use crate::eligible::Eligible;
use crate::policy::Policy;
use crate::presence::Presence;
use crate::view::View;
use lift_base::Letter;
use lift_building::Building;
use lift_cost::NewCall;

/// A group's policy, and whether cars that are absent come last.
#[derive(Clone, Copy)]
pub struct Dispatching<P> {
    /// Which of the cars that may take a call.
    pub policy: P,
    /// Whether it is asked of those alone that are present, where one of them is.
    pub absent_last: bool,
}

/// The policy of a group that dispatches so. Where absent cars come last, it asks once for each call
/// which cars are present.
#[derive(Drop)]
pub struct GroupPolicy<'p, P: Drop, W> {
    pub dispatching: Dispatching<P>,
    /// Who knows which cars are present.
    pub presence: &'p W,
}

impl<'p, P: Policy + Drop, W: Presence> Policy for GroupPolicy<'p, P, W> {
    ghost chooses = { λ group. IsDispatched (W.tells group.presence.now) P.chooses group.dispatching };

    #[tactic(auto, using(crate::specs::lemmas::Present::present_eligible))]
    fn choose(&self, building: &Building, view: &View, call: NewCall, among: Eligible) -> Letter {
        let policy = &self.dispatching.policy;
        if !self.dispatching.absent_last {
            return policy.choose(building, view, call, among);
        }
        let present = self.presence.present();
        policy.choose(building, view, call, among.present_first(&present))
    }

    ghost only_members = { λ group. dispatched_member (W.tells group.presence.now) P.chooses
        P.only_members group.dispatching };
}
