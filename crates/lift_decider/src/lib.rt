//! Decides the commands of a lift group, by the rules and a policy.
#![tactic(auto)]

mod decider;
mod group;
mod schedules;

pub use decider::Decider;
