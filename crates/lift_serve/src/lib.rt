//! The lift group on sockets: connections that speak for a terminal, each on a thread of its own,
//! beside the allocator's and the flusher's.
#![tactic(auto)]

mod attending;
mod first_line;
mod keeping;
mod over;
mod pace;
mod prepared;
mod present;
mod reading;
mod relaying;
mod serving;
mod sleep;
mod socket;
mod speaking;
mod waking;

pub use attending::{Attendance, Outcome, attend};
pub use first_line::terminal_of;
pub use keeping::journals_keep;
pub use lift_memory::Memory;
pub use lift_relay::{Failed, Flusher, Notifies, Witness};
pub use pace::{Pace, PagedAsk, Pager, RingCount};
pub use prepared::connections::{ServingEnd, Ticket};
pub use prepared::seating::{HeldSeat, Lobby, NoSeat, SeatReturn};
pub use prepared::{ReadyGroup, Room, prepare};
pub use present::{PresentCars, ServedPolicy};
pub use relaying::Parts;
pub use serving::{ServeFault, serve};
pub use sleep::Sleep;
pub use socket::Listening;
