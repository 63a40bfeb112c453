//! Lines, read one byte at a call, so that nothing after a line is taken from the reader.

ghost use Rattle.std.specs.Prelude.{◌≡◌, ℕ, List, ◌+◌, ◌≤◌, ◌<◌, ◌^◌, [], ◌∷◌, IfOk, Ok, Err, None};
ghost use Rattle.std.specs.Prelude.{Some, IfSome, IfErr, ◌++◌};
ghost use Rattle.lift_kiosk.specs.Lines.{Source, GivesBytes, FindsEnd, FailsOnce, GivesLine};
ghost use Rattle.lift_kiosk.specs.Lines.{GivesPart, Buffers65, source_of};

use arrayvec::ArrayVec;
use lift_base::text::{Counted, ReadFault};
use std::io::Read;

/// A line of more bytes, its end apart, is malformed.
pub const MOST_BYTES: usize = 64;

/// A line without its line feed: a byte more than a line may have, since a carriage return belongs
/// to its end.
#[derive(Drop)]
pub struct Line {
    pub bytes: ArrayVec<u8, 65>,
    /// More bytes came than are kept.
    pub is_longer: bool,
}

impl Line {
    fn new() -> Line
        ensures { Buffers65 [] result.bytes.items result.is_longer }
    {
        Line {
            bytes: ArrayVec::new(),
            is_longer: false,
        }
    }

    fn push(&mut self, byte: u8)
        ensures { (line : List ℕ) → Buffers65 line self.old.bytes.items self.old.is_longer
            → Buffers65 (line ++ byte ∷ []) self.new.bytes.items self.new.is_longer }
    {
        if self.bytes.is_full() {
            self.is_longer = true;
        } else {
            self.bytes.push(byte);
        }
    }
}

/// Why no line came.
#[derive(Clone, Copy)]
pub enum NoLine {
    /// The reader was at its end.
    AtEnd,
    /// All calls of the reader were used.
    NoCalls,
    /// A call failed.
    Fault,
}

/// One byte; none at the end.
fn next_byte<R: Read + Drop>(reader: &mut Counted<R>) -> Result<Option<u8>, ReadFault>
    ensures byte { IfOk result (λ found.
        IfSome found (λ byte. GivesBytes (byte ∷ []) (source_of R.remaining reader.old)
        (source_of R.remaining reader.new))) }
    ensures end { result ≡ Ok None
        → FindsEnd (source_of R.remaining reader.old) (source_of R.remaining reader.new) }
    ensures fault { IfErr result (λ _.
        FailsOnce (source_of R.remaining reader.old) (source_of R.remaining reader.new)) }
{
    let mut byte = [0u8; 1];
    let count = reader.read(&mut byte)?;
    if count == 0 {
        Ok(None)
    } else {
        Ok(Some(byte[0]))
    }
}

/// A line, where its line feed comes within the calls of the reader that are left.
pub fn read_line<R: Read + Drop>(reader: &mut Counted<R>, left: &mut u32) -> Result<Line, NoLine>
    ensures line { IfOk result (λ found.
        (line : List ℕ) × Buffers65 line found.bytes.items found.is_longer
        × GivesLine line (source_of R.remaining reader.old) (source_of R.remaining reader.new)) }
    ensures closed { result ≡ Err NoLine.AtEnd → (part : List ℕ) × (mid : Source)
        × GivesPart part (source_of R.remaining reader.old) mid
        × FindsEnd mid (source_of R.remaining reader.new) }
    ensures fault { result ≡ Err NoLine.Fault → (part : List ℕ) × (mid : Source)
        × GivesPart part (source_of R.remaining reader.old) mid
        × FailsOnce mid (source_of R.remaining reader.new) }
    ensures limit { result ≡ Err NoLine.NoCalls → (part : List ℕ)
        × GivesPart part (source_of R.remaining reader.old) (source_of R.remaining reader.new)
        × (left.new ≡ 0) }
    ensures calls { reader.new.calls + left.new ≡ reader.old.calls + left.old }
{
    let mut line = Line::new();
    while *left > 0 {
        *left -= 1;
        match next_byte(reader) {
            Ok(Some(b'\n')) => return Ok(line),
            Ok(Some(byte)) => line.push(byte),
            Ok(None) => return Err(NoLine::AtEnd),
            Err(ReadFault) => return Err(NoLine::Fault),
        }
    }
    Err(NoLine::NoCalls)
}
