//! The clerk's work in two parts, which may run on two threads: one takes asks and decides them,
//! ahead by the four batches of a line and one in hand; the other makes the batches safe and answers.
#![tactic(auto)]

mod allocator;
mod basis;
mod batch;
mod deciding;
mod flusher;
mod gate;
mod line;
mod pair;
mod places;
mod queue;
mod refused;
mod relay;
mod scan;
mod settling;
mod side;
mod tie;
mod witness;

pub use allocator::Allocator;
pub use basis::Basis;
pub use batch::Batch;
pub use deciding::Scanner;
pub use flusher::Flusher;
pub use gate::Gate;
pub use lift_parts::{FlushCounts, NotedCommand};
pub use pair::{RunFault, run};
pub use refused::{BothRun, NoThread};
pub use relay::{Key, rejoin, split, split_for, tell};
pub use settling::Settler;
pub use tie::{turn_flusher_once, turns_preserve_parts};
pub use witness::{Failed, Notifies, Witness};
