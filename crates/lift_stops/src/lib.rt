//! The stops that a car still has to make, in the order in which it makes them.
#![tactic(auto)]

mod leaving;
mod marks;
mod schedule;
mod stops;

pub use leaving::Leaving;
pub use schedule::{Listed, Schedule};
pub use stops::{Split, next_stop, pass_of, split_at, stop_list, stop_of};
