//! Cars at the desk: their sessions, lines in and lines out, and agents that drive them. Nothing
//! here takes memory, and nothing waits but calls of the reader and the writer, and a port's rest.
#![tactic(auto)]

mod car;
mod driving;
mod laws;
mod lines;
mod terms;

pub use car::{Car, Halts, ModelCar};
pub use driving::drive;
pub use laws::sessions_are_determined;
pub use lines::{CarLines, lines_ask_for_one_thing, session};
pub use terms::{CarEnd, DriveEnd, Ending};
