//! Cases as text: the lines of their files, the words of a line, and whether each case comes out as
//! it says.

mod came;
mod records;
mod report;
mod words;

pub(crate) use came::Came;
pub(crate) use records::{entry_of, record_of};
pub(crate) use report::Report;
pub(crate) use words::{body_of, call_of, floor_of, place_of, position_of, terminal_of};
