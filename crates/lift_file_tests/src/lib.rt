//! A file in memory that is honest, so that the honesty of a file is a premise that can be met.
#![tactic(auto)]

mod memory_file;
mod memory_opener;

pub use memory_file::{MemoryFile, made};
pub use memory_opener::{MemoryOpener, made_in_memory};
