//! A device of sectors of 512 bytes, by what it may have kept after a crash.
#![tactic(auto)]

mod buffered;
mod call;
mod disk;
mod failing;
mod file;
mod file_calls;
mod in_memory;
mod listed;
mod memory;
mod memory_sectors;
mod opener;
mod outcome;
mod rule;
mod runs;
mod sectors;
mod span;
mod trace;
mod traced;
mod two_places;

pub use buffered::Buffered;
pub use disk::{Arm, Disk, DiskFault};
pub use failing::{FailingDisk, FlakyDisk, FuseDisk};
pub use file::{BufferedFile, FailedFile, FileDisk, FileFault};
pub use listed::{HostFile, ListedFile, SystemFile};
pub use memory::MemDisk;
pub use opener::{FileOpener, SystemFolder, SystemOpener};
pub use outcome::Outcome;
pub use rule::{FaultRule, Flaky, Fuse};
pub use runs::RunDisk;
pub use sectors::SectorFile;
pub use traced::TracedFile;
