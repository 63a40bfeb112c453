//! Decides the commands of a lift group, makes what they add safe in a journal, and recovers the
//! register from it.
#![tactic(auto)]

mod checkpoints;
mod copies;
mod fault;
mod keeper;
mod opening;
mod reading;
mod recovery;
mod store;
mod writer;

pub use checkpoints::checkpoints_keep;
pub use fault::KeeperFault;
pub use keeper::Keeper;
pub use writer::{Safe, Writer};
