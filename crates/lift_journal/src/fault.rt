//! Why a call of the journal is refused.
ghost use Rattle.std.specs.Prelude.{◌≡◌, ◌↔◌, IsTrue};
ghost use Rattle.lift_journal.specs.declared.fault.JournalFault.TheVariants.{Disk};
ghost use Rattle.lift_journal.specs.Fault.{fault_number};

/// Why a call of the journal was refused.
#[derive(Clone, Copy, PartialEq, Eq)]
pub enum JournalFault {
    /// A call of the device failed.
    Disk,
    /// The device lacks sectors, or its stamp isn't spelled right.
    NotFormatted,
    /// The gate in this sector breaks a rule of the chain: it is open and no lawful batch stands
    /// after it, or it closes a chain within a checkpoint.
    Damaged(u32),
    /// The batch has no room in its half.
    Full,
    /// A call of the device has failed, and no reopening has succeeded since.
    Broken,
}

impl JournalFault {
    /// The number that reports show, 1 to 5.
    pub fn number(self) -> u8
        ensures { result ≡ fault_number self }
    {
        match self {
            JournalFault::Disk => 1,
            JournalFault::NotFormatted => 2,
            JournalFault::Damaged(_) => 3,
            JournalFault::Full => 4,
            JournalFault::Broken => 5,
        }
    }

    /// Whether a call of the device has failed just now.
    pub fn is_of_disk(self) -> bool
        ensures { IsTrue result ↔ (self ≡ Disk) }
    {
        matches!(self, JournalFault::Disk)
    }
}
