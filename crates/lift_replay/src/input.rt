//! All bytes of a reader, within bounds.

ghost use Rattle.std.specs.Prelude.{◌≡◌, ◌⊎◌, List, ◌+◌, ◌≤◌, ◌<◌, ◌^◌, ◌++◌, vec_len, IfOk, OnOk};
ghost use Rattle.std.specs.Prelude.{ℕ, Some, None, true, false};
ghost use Rattle.std.specs.Io.KnownBytes.{Consumes, IsAtEnd, Keeps};
ghost use Rattle.lift_replay.specs.Reading.{GivesInput, IsLastCall, LeavesUnread, ReadsUpTo};
ghost use Rattle.lift_replay.specs.Reading.{ReaderFails};

use crate::refused::{NoMemory, add_bytes};
use lift_base::text::{Counted, Inlet, ReadFault};
use std::alloc::Global;

/// Why the bytes were not read.
#[derive(Drop, PartialEq, Eq)]
pub enum InputFault {
    /// A call of the reader failed, or all calls were used and the end was not found.
    Read,
    /// A growth was refused.
    Memory(NoMemory),
}

/// A call of the reader is for this many bytes at most.
const CHUNK: usize = 16_384;

/// One call of the reader, which adds what it gives to the bytes, as long as these are no more than
/// `most` and one. The answer is whether anything came.
fn read_some<R: Inlet + Drop>(
    input: &mut Counted<R>,
    buffer: &mut [u8; CHUNK],
    bytes: &mut Vec<u8>,
    most: usize,
) -> Result<bool, InputFault>
    requires room { vec_len bytes.old ≤ most }
    requires limit { most < 2 ^ 63 }
    ensures one_call { IsLastCall most R.remaining bytes.old.items input.old input.new }
    ensures gave { OnOk result ((more : List ℕ) × (bytes.new.items ≡ bytes.old.items ++ more)
        × Consumes (R.remaining input.old.reader) (R.remaining input.new.reader) more) }
    ensures came { OnOk result ((more : List ℕ) × (bytes.new.items ≡ bytes.old.items ++ more)
        × (input.new.came ≡ input.old.came ++ more)) }
    ensures grew { (more : List ℕ) × (input.new.came ≡ input.old.came ++ more) }
    ensures some { result ≡ Ok true → (vec_len bytes.old < vec_len bytes.new)
        × (input.new.ended ≡ input.old.ended) }
    ensures end { result ≡ Ok false → (input.new.ended ≡ true)
        × IsAtEnd (R.remaining input.new.reader) }
    ensures ok { OnOk result (input.new.failed ≡ input.old.failed) }
    ensures failed { result ≡ Err InputFault.Read → (input.new.failed ≡ true)
        × Keeps (R.remaining input.old.reader) (R.remaining input.new.reader) }
    ensures refused { result ≡ Err (InputFault.Memory tt) → input.new.failed ≡ input.old.failed }
    ensures bound { OnOk result (vec_len bytes.new ≤ most + 1) }
    ensures one { result ≡ Ok true → (buffer : List ℕ) × (count : ℕ)
        × R.gives input.old.reader buffer (Some count) input.new.reader × (0 < count) }
    ensures one_err { result ≡ Err InputFault.Read → (buffer : List ℕ)
        × R.gives input.old.reader buffer None input.new.reader }
{
    let room = CHUNK.min(most - bytes.len() + 1);
    let part = &mut buffer[..room];
    match input.read(part) {
        Ok(count) => {
            match add_bytes(bytes, &part[..count]) {
                Ok(()) => Ok(count != 0),
                Err(no_memory) => Err(InputFault::Memory(no_memory)),
            }
        }
        Err(_) => Err(InputFault::Read),
    }
}

/// All bytes of a reader that was not called yet. Reading stops once more than `most` have come;
/// that the end was not found in this many calls is a fault.
pub fn read_all<R: Inlet + Drop>(
    alloc: Global,
    input: &mut Counted<R>,
    most: usize,
    calls: u32,
) -> Result<Vec<u8>, InputFault>
    requires limit { most < 2 ^ 63 }
    requires fresh { input.old.calls ≡ 0 }
    requires unhurt { input.old.failed ≡ false }
    requires before_end { input.old.ended ≡ false }
    ensures gives { IfOk result (λ bytes.
        GivesInput most R.remaining input.old input.new bytes.items) }
    ensures came { IfOk result (λ bytes. input.new.came ≡ input.old.came ++ bytes.items) }
    ensures grew { (bytes : List ℕ) × (input.new.came ≡ input.old.came ++ bytes) }
    ensures reads { ReadsUpTo most calls R.remaining input.old input.new }
    ensures unread { result ≡ Err InputFault.Read
        → LeavesUnread most calls R.remaining input.old input.new }
    ensures refused { result ≡ Err (InputFault.Memory tt) → input.new.failed ≡ false }
    // Where a call failed it was the last.
    ensures fails { result ≡ Err InputFault.Read
        → ReaderFails R.gives input.old.reader input.new.reader
        ⊎ ((input.new.calls ≡ calls) × (input.new.ended ≡ false)) }
{
    let mut buffer = [0u8; CHUNK];
    let mut bytes = Vec::new(alloc);
    for _ in 0..calls {
        if !read_some(input, &mut buffer, &mut bytes, most)? || bytes.len() > most {
            return Ok(bytes);
        }
    }
    Err(InputFault::Read)
}
