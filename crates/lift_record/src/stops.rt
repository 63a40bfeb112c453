//! The quick reading of stops, which most records are.
ghost use Rattle.std.specs.Prelude.{◌≡◌, ℕ, IfSome, IfNone};
ghost use Rattle.lift_base.specs.declared.history.Entry.{Entry as EntryValue};
ghost use Rattle.lift_base.specs.declared.history.Record.{Record as RecordValue};
ghost use Rattle.lift_base.specs.declared.travel.Dir.{Dir as DirValue};
ghost use Rattle.lift_record.specs.Record.{IsSpellingOf};
ghost use Rattle.lift_record.specs.declared.version.Version.{Version as VersionValue};

use crate::records::dir_from_byte;
use lift_base::{Entry, Floor, Letter, Number, Record};

/// The stop that these bytes spell, in either version, as `decode` reads it, if they spell one. Each
/// of its numbers is looked at once.
pub fn decode_stop(bytes: &[u8; 16]) -> Option<Record>
    ensures some { IfSome result (λ content. (version : VersionValue)
        → IsSpellingOf version bytes.now content) }
    ensures stop { IfSome result (λ content. (car number floor : ℕ) × (dir : DirValue)
        × (content ≡ RecordValue.Entry (EntryValue.Stop car number floor dir))) }
    ensures none { IfNone result ((version : VersionValue) (car number floor : ℕ) (dir : DirValue)
        → ¬ IsSpellingOf version bytes.now
        (RecordValue.Entry (EntryValue.Stop car number floor dir))) }
{
    let [
        kind,
        car,
        floor,
        dir,
        third,
        party,
        status,
        blank,
        a,
        b,
        c,
        d,
        e,
        f,
        g,
        h,
    ] = *bytes;
    let content = u32::from_be_bytes([third, party, status, blank]);
    let number = u32::from_be_bytes([a, b, c, d]);
    let end = u32::from_be_bytes([e, f, g, h]);
    if kind != 2 || content != 0 || number == 0 || end != 0 {
        return None;
    }
    Some(Record::Entry(Entry::Stop {
        car: Letter::new(car)?,
        number: Number::new(number)?,
        floor: Floor::new(floor)?,
        dir: dir_from_byte(dir)?,
    }))
}
