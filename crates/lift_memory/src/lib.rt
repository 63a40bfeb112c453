//! The growths whose refusal is a want of memory, and the evidence of one. A crate that doesn't stand on
//! this one and is passed no allocator can't answer a want of memory.
#![tactic(auto)]

mod memory;

pub use memory::{
    Memory, passed_queue, push, push_all, reserve, reserve_one, table_of_words, two_owners,
    with_room,
};
