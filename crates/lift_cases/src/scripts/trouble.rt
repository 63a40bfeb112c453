//! Why a script came to no report, or to a bad one.
use lift_keeper::KeeperFault;
use lift_memory::Memory;
use lift_replay::{InputFault, NoMemory};
use std::alloc::AllocError;
use std::io;

#[derive(Clone, Copy)]
pub(crate) enum Trouble {
    /// The script, its building or one of its lines is malformed, as the report says.
    Bad,
    /// The script can't be read, or the report can't be written.
    Stream,
    /// A growth was refused.
    Memory,
    /// The device is no image of the building, though a power cut alone has come over it.
    Unopened,
    /// The flusher made batches safe for more turns than there are batches in the line.
    Endless,
    /// The parts can't join, though all was flushed.
    Apart,
    /// A terminal or a kiosk that the building lacks is asked for, though it was looked for before.
    Lacking,
}

impl Trouble {
    pub(crate) fn name(self) -> &'static str {
        match self {
            Trouble::Bad => "a bad script",
            Trouble::Stream => "a stream",
            Trouble::Memory => "memory",
            Trouble::Unopened => "a device that doesn't open",
            Trouble::Endless => "a flusher that comes to no end",
            Trouble::Apart => "parts that don't join",
            Trouble::Lacking => "a terminal that is lacking",
        }
    }
}

impl From<AllocError> for Trouble {
    fn from(_error: AllocError) -> Trouble {
        Trouble::Memory
    }
}

impl From<Memory> for Trouble {
    fn from(_error: Memory) -> Trouble {
        Trouble::Memory
    }
}

impl From<NoMemory> for Trouble {
    fn from(_error: NoMemory) -> Trouble {
        Trouble::Memory
    }
}

impl From<io::Error> for Trouble {
    fn from(_error: io::Error) -> Trouble {
        Trouble::Stream
    }
}

impl From<InputFault> for Trouble {
    fn from(fault: InputFault) -> Trouble {
        match fault {
            InputFault::Read => Trouble::Stream,
            InputFault::Memory(_) => Trouble::Memory,
        }
    }
}
