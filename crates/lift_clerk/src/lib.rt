//! The clerk of a lift group: it scans the desk, decides what was asked, makes the batch safe, and
//! then answers. Nothing here takes memory or waits; what its device takes or waits for is the
//! device's.
#![tactic(auto)]

mod answering;
mod clerk;
mod counts;
mod group;
mod history;
mod machine;
mod scan;

pub use answering::{AnsweringSeat, DueAnswer};
pub use clerk::Clerk;
pub use counts::Counts;
pub use group::{ask_once, calls_are_steps, hear_once, pasts_go_on, rule_orders, turn_goes_on};
pub use history::{
    begin_over, crash_shows_letters, histories_are_runs, reopening_shows_letters,
    turn_is_of_the_history, turn_shows_letters,
};
pub use machine::{machine_laws, turns_are_the_machines};
pub use scan::{DeskScan, scan_desk};
