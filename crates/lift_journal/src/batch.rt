//! A batch as it was read.
ghost use Rattle.std.specs.Prelude.{◌≡◌, []};

use arrayvec::ArrayVec;
use lift_base::{MOST_ENTRIES, Record};
use lift_record::Version;

/// The records of a batch.
pub type RecordList = ArrayVec<Record, MOST_ENTRIES>;

/// A batch as it was read.
#[derive(Drop)]
pub struct Stored {
    pub version: Version,
    pub records: RecordList,
    /// The sectors that were read last.
    pub body: [[u8; 512]; 2],
}

impl Stored {
    /// No batch yet.
    pub fn empty() -> Self
        ensures { result.records.items ≡ [] }
    {
        Stored {
            version: Version::One,
            records: ArrayVec::new(),
            body: [[0; 512]; 2],
        }
    }
}
