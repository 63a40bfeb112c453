//! Why a call of the keeper is refused.

ghost use Rattle.std.specs.Prelude.{◌≡◌, ◌↔◌, IsTrue};
ghost use Rattle.lift_journal.specs.declared.fault.JournalFault.TheVariants.{Disk};
ghost use Rattle.lift_keeper.specs.declared.fault.KeeperFault.TheVariants.{Journal};
ghost use Rattle.lift_keeper.specs.Fault.{fault_number};

use lift_journal::JournalFault;

/// Why a call of the keeper was refused.
#[derive(Clone, Copy, PartialEq, Eq)]
pub enum KeeperFault {
    /// A fault of the journal.
    Journal(JournalFault),
    /// The journal is of a building of another shape.
    OtherBuilding,
    /// The record at this place, counted from 0, is the first that doesn't fit the building and the
    /// records before it.
    BadEntry(u32),
}

impl KeeperFault {
    /// The number that reports show: 1 to 5 for the journal's, then 6 and 7.
    pub fn number(self) -> u8
        ensures { result ≡ fault_number self }
    {
        match self {
            KeeperFault::Journal(fault) => fault.number(),
            KeeperFault::OtherBuilding => 6,
            KeeperFault::BadEntry(_) => 7,
        }
    }

    /// Whether a call of the device has failed just now.
    pub fn is_of_disk(self) -> bool
        ensures { IsTrue result ↔ (self ≡ Journal Disk) }
    {
        matches!(self, KeeperFault::Journal(JournalFault::Disk))
    }
}
