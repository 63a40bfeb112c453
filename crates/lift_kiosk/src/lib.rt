//! Sessions of kiosks: lines in, asks at a port, lines out. Nothing here takes memory, and
//! nothing waits but calls of the reader and the writer, and a port's rest.
#![tactic(auto)]

mod conversation;
mod desk_port;
mod dialect;
mod kiosk;
mod laws;
mod line;
mod listening;
mod outcome;
mod port;
mod reading;
mod rest;
mod speaking;
mod terms;

pub use conversation::converse;
pub use desk_port::DeskPort;
pub use dialect::{Dialect, Wanted};
pub use kiosk::{Kiosk, lines_ask_for_one_thing, session};
pub use laws::{dialects_determine, sessions_are_determined};
pub use line::{Line, NoLine, read_line};
pub use listening::{bring_in, carry_out};
pub use outcome::{Opening, Outcome};
pub use port::Port;
pub use reading::{without_return, words_in};
pub use rest::{Rest, Yield};
pub use terms::{End, LastLetter, Limits, SessionEnd};
