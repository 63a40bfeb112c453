//! The open calls of a group, and each terminal's last command.
#![tactic(auto)]

mod joins;
mod registers;
mod rows;
mod rules;

pub use joins::{registers_join, rows_follow_their_stops};
pub use lift_base::{Content, Last};
pub use registers::Register;
pub use rules::persons;
