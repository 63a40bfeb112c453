//! The spelling of a batch.
ghost use Rattle.std.specs.Prelude.{◌≡◌, ◌≤◌, ◌*◌, length, replicate, All};
ghost use Rattle.lift_base.specs.Records.{IsLawful};
ghost use Rattle.lift_journal.specs.Layout.{IsBody, body_size, new_batch};
ghost use Rattle.lift_journal.specs.Calls.{batch_body};

use crate::batch::RecordList;
use crate::bytes::put;
use lift_record::{encode, encode_header};

const RECORD_BYTES: usize = 16;

/// How many sectors a batch of this many records takes beside its gate.
pub fn body_count(count: usize) -> usize
    ensures { result ≡ body_size count }
{
    if count < 32 { 1 } else { 2 }
}

/// Puts the body of a batch of the second version into the zeros of as many sectors as it takes,
/// and gives the sectors.
// (in its callers' own bodies, where the length of the text is a constant)
#[inline(always)]
pub fn put_body<'a>(text: &'a mut [u8], batch: &RecordList, number: u32) -> &'a [[u8; 512]]
    requires blank { text.old ≡ replicate (512 * body_size (length batch.now.items)) 0 }
    requires some { 1 ≤ length batch.now.items }
    requires numbered { 1 ≤ number }
    requires lawful { All IsLawful batch.now.items }
    ensures exact { result.now ≡ batch_body number (new_batch batch.now.items) }
    ensures spelled { IsBody number (new_batch batch.now.items) result.now }
{
    let records = batch.as_slice();
    put(text, 0, &encode_header(records.len() as u16, number));
    let mut at = RECORD_BYTES;
    for content in records {
        put(text, at, &encode(content));
        at += RECORD_BYTES;
    }
    let (sectors, _) = text.as_chunks();
    sectors
}
