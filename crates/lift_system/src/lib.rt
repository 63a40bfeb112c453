//! What the system does for the group that the library has no word for: the only calls of the C
//! library by name, and the only `unsafe`.
#![tactic(auto)]

mod connections;
mod files;

pub use connections::watch;
pub use files::drop_cached;
