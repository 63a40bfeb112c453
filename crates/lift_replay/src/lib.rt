//! Scripts for the group controller: what each line asks for, what it does, and the lines of their
//! reports.
#![tactic(auto)]

mod ask;
mod device_action;
mod input;
mod law;
mod line;
mod lines;
mod parsing;
mod piece;
mod query;
mod refused;
pub mod report;
mod script;
mod segment;
mod source;
mod station;
mod terminals;

pub use ask::ScriptAsk;
pub use device_action::DeviceAction;
pub use input::{InputFault, read_all};
pub use law::each_script_has_one_report;
pub use line::ScriptLine;
pub use lines::Verdict;
pub use parsing::parse;
pub use query::Query;
pub use refused::NoMemory;
pub use script::{MOST_BYTES, MOST_CALLS, ReplayFault, run};
pub use source::{Lines, split_script};
pub use station::first_disk;
pub use terminals::Terminals;
