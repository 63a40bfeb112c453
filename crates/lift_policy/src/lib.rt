//! Which car takes a call, and what each command is answered.
#![tactic(auto)]

mod causes;
mod command;
mod dispatching;
mod eligible;
mod laws;
mod policies;
mod policy;
mod presence;
mod schedules;
mod verdict;
mod view;
mod waits;

pub use command::Command;
pub use dispatching::{Dispatching, GroupPolicy};
pub use eligible::Eligible;
pub use laws::{decisions_are_computed, decisions_preserve};
pub use policies::{Etd, FewestOpen, Shipped, ShortestWait};
pub use policy::Policy;
pub use presence::{CarSet, Presence};
pub use schedules::{schedule_of, schedules_at};
pub use verdict::Verdict;
pub use view::View;
