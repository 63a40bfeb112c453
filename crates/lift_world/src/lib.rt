//! The controller as a machine of events: what terminals ask, what is decided, what the disk keeps,
//! what is answered.
#![tactic(auto)]

mod decide;
mod event;
mod lists;
mod theorem;
mod world;

pub use event::{Answer, Event, Kept, Phase, Power, Taken};
pub use theorem::{
    definitions_are_exact, events_are_possible, events_are_typed, every_run, outcomes_move,
    parts_interleave, parts_stay, policies_are_covered, premises_are_exact, relays_are_events,
    replies_are_safe, terminals_pass, turns_are_events, turns_end_at_rest,
};
pub use world::World;
