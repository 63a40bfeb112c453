//! What the two parts of a clerk's work are to contracts, and what their turns are in the machine of
//! events.
#![tactic(auto)]

mod counts;
mod taken;
mod tie;

pub use counts::FlushCounts;
pub use taken::NotedCommand;
pub use tie::{
    flushes_are_steps, parts_are_clerks, relays_are_the_machines, rule_orders_ahead,
    turns_keep_what_was_given,
};
