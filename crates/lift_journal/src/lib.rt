//! The journal: batches of records on a device of sectors, each in it whole or not at all, whatever
//! a power cut leaves.
#![tactic(auto)]

mod batch;
mod body;
mod bytes;
mod checkpoint;
mod device;
mod fault;
mod formatting;
mod journal;
mod law;
mod order;
mod parse;
mod place;
mod reads;
mod stamp;
mod visitor;
mod walk;

pub use fault::JournalFault;
pub use formatting::format;
pub use journal::{Cursor, FormerPlace, Journal};
pub use law::images_read_as_one_pair;
pub use visitor::Visitor;
