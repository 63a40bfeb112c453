//! Why a workload fails.
use lift_disk::{DiskFault, FileFault};
use lift_journal::JournalFault;
use std::alloc::AllocError;
use std::io;

#[derive(Clone, Copy)]
pub(crate) enum Fault {
    /// The words are those of no workload.
    Words,
    /// The system refused a call of a file or of the standard output.
    File,
    /// What stands there is no plain file.
    NotAFile,
    /// A call of a device failed.
    Device,
    /// The journal refused.
    Journal,
    /// A growth was refused.
    Memory,
}

impl Fault {
    pub(crate) fn name(self) -> &'static str {
        match self {
            Fault::Words => "words",
            Fault::File => "file",
            Fault::NotAFile => "not a file",
            Fault::Device => "device",
            Fault::Journal => "journal",
            Fault::Memory => "memory",
        }
    }
}

impl<F: Drop, O: Drop> From<FileFault<F, O>> for Fault {
    fn from(fault: FileFault<F, O>) -> Fault {
        match fault {
            FileFault::NotAFile(_) => Fault::NotAFile,
            _ => Fault::File,
        }
    }
}

impl From<io::Error> for Fault {
    fn from(_error: io::Error) -> Fault {
        Fault::File
    }
}

impl From<AllocError> for Fault {
    fn from(_error: AllocError) -> Fault {
        Fault::Memory
    }
}

impl From<DiskFault> for Fault {
    fn from(_fault: DiskFault) -> Fault {
        Fault::Device
    }
}

impl From<JournalFault> for Fault {
    fn from(_fault: JournalFault) -> Fault {
        Fault::Journal
    }
}
