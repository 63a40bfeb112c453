//! The names, numbers and messages that all parts of the group controller share.
#![tactic(auto)]

mod checked;
mod command;
mod count;
mod history;
mod limits;
mod lists;
mod proof_bytes;
pub mod text;
mod travel;

pub use checked::{Floor, Letter, Number, Party, Terminal};
pub use command::{Body, Reason, Reply};
pub use count::ProofCount;
pub use history::{Content, Entry, Last, Record, Row, Shape, serve_rows};
pub use limits::{
    FIRST_KIOSK, LAST_CAR, LAST_KIOSK, LAST_TERMINAL, LEAST_HALF, MOST_BATCHES, MOST_CARS,
    MOST_DONE, MOST_ENTRIES, MOST_FLOORS, MOST_HALTS, MOST_KIOSKS, MOST_OPEN, MOST_PLACES,
    MOST_RECORDS, MOST_ROWS, MOST_TERMINALS, MOST_WEIGHED, TOP_FLOOR,
};
pub use lists::push_some;
pub use travel::{Dir, Halt, Pass, Position, Stop};
