//! The reading of a batch.
ghost use Rattle.std.specs.Prelude.{◌≡◌, ◌≤◌, ◌-◌, ◌+◌, ◌++◌, ◌↔◌, IsTrue, Some};
ghost use Rattle.std.specs.Prelude.{List, IsFalse, [], ◌∷◌, ◌<◌, length, take, drop, replicate};
ghost use Rattle.lift_base.specs.declared.history.Record.{Record as RecordValue};
ghost use Rattle.lift_record.specs.Header.{IsHeaderSpelling};
ghost use Rattle.lift_record.specs.Record.{IsSpellingOf};
ghost use Rattle.lift_journal.specs.Seen.{IsRecordsIn, IsTailOf};

use crate::batch::RecordList;
use crate::bytes::sixteen;
use lift_base::{MOST_ENTRIES, push_some};
use lift_record::{Header, Version, decode, decode_header, decode_stop};

/// The header at the front of a body, if it is one and has this number.
pub fn header_of(first: &[u8; 512], number: u32) -> Option<Header>
    ensures { (header : _) → (result ≡ Some header
        ↔ (IsHeaderSpelling (take 16 first.now) header × (header.number ≡ number))) }
{
    let header = decode_header(&sixteen(first, 0))?;
    if header.number == number {
        Some(header)
    } else {
        None
    }
}

/// Adds the record that these bytes spell, if they spell one.
#[inline(never)]
fn push_decoded(version: Version, bytes: &[u8; 16], records: &mut RecordList) -> bool
    requires room { length records.old.items < MOST_ENTRIES }
    ensures pushed { IsTrue result → (content : RecordValue) × IsSpellingOf version bytes.now content
        × (records.new.items ≡ records.old.items ++ content ∷ []) }
    ensures none { IsFalse result → (content : RecordValue)
        → ¬ IsSpellingOf version bytes.now content }
{
    let found = decode(version, bytes);
    push_some(records, found);
    found.is_some()
}

/// Adds the record that the text spells at this place, if one is spelled there. A stop takes fewer
/// steps.
fn push_next(version: Version, text: &[u8], at: usize, records: &mut RecordList) -> bool
    requires whole { at + 16 ≤ length text.now }
    requires room { length records.old.items < MOST_ENTRIES }
    ensures pushed { IsTrue result → (content : RecordValue)
        × IsSpellingOf version (take 16 (drop at text.now)) content
        × (records.new.items ≡ records.old.items ++ content ∷ []) }
    ensures none { IsFalse result → (content : RecordValue)
        → ¬ IsSpellingOf version (take 16 (drop at text.now)) content }
{
    let stop = decode_stop(&sixteen(text, at));
    if stop.is_none() {
        return push_decoded(version, &sixteen(text, at), records);
    }
    push_some(records, stop);
    true
}

/// Fills a list with this many records after the header of this text, if they are spelled there.
#[inline(never)]
fn read_records(version: Version, text: &[u8], count: usize, records: &mut RecordList) -> bool
    requires whole { length text.now ≡ 1024 }
    requires few { count ≤ MOST_ENTRIES }
    ensures some { IsTrue result
        → IsRecordsIn version (drop 16 text.now) count records.new.items }
    ensures none { IsFalse result → (others : List RecordValue)
        → ¬ IsRecordsIn version (drop 16 text.now) count others }
{
    records.clear();
    for k in 0..count {
        if !push_next(version, text, 16 + 16 * k, records) {
            return false;
        }
    }
    true
}

/// As many zeros as two sectors have bytes.
static ZEROS: [u8; 1024] = [0; 1024];

/// Whether all bytes from this place on are zero.
fn is_zero_from(text: &[u8], at: usize) -> bool
    requires whole { length text.now ≡ 1024 }
    requires inside { at ≤ 1024 }
    ensures { IsTrue result ↔ (drop at text.now ≡ replicate (1024 - at) 0) }
{
    let rest: &[u8] = &text[at..];
    rest == &ZEROS[at..]
}

/// Fills a list with the records after the header of a text of two sectors, if they and zeros stand
/// there.
pub fn parse(version: Version, text: &[u8], count: usize, records: &mut RecordList) -> bool
    requires whole { length text.now ≡ 1024 }
    requires few { count ≤ MOST_ENTRIES }
    ensures some { IsTrue result → (length records.new.items ≡ count)
        × IsTailOf version records.new.items (drop 16 text.now) }
    ensures none { IsFalse result → (others : List RecordValue) → length others ≡ count
        → ¬ IsTailOf version others (drop 16 text.now) }
{
    if !is_zero_from(text, 16 + 16 * count) {
        return false;
    }
    read_records(version, text, count, records)
}
