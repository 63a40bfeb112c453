//! Callers of the desk, written as the layers above it are.
#![tactic(auto)]

mod alone;
mod clerk;
mod relay;
mod terminal;

pub use alone::{answer_and_hear, ask_and_take};
pub use clerk::scan;
pub use relay::{relay_once, take_asked};
pub use terminal::{Answer, ask_and_hear};
