//! What a line that was read asks for.

ghost use Rattle.std.specs.Prelude.{◌≡◌, ℕ, List, IfSome, IfNone, ◌<◌, length, map};
ghost use Rattle.std.specs.Str.Lines.{strip_carriage_return};
ghost use Rattle.lift_base.specs.Text.{AreWords};
ghost use Rattle.lift_kiosk.specs.Lines.{AreAscii, IsShortLine, Buffers65};
ghost use Rattle.lift_kiosk.specs.declared.dialect.Wanted.{Wanted as WantedValue};

use crate::dialect::{Dialect, Wanted};
use crate::line::{Line, MOST_BYTES};
use arrayvec::ArrayVec;
use lift_base::text::{MOST_WORDS, words_of};
use std::str;

/// A line without the carriage return before its line feed.
pub fn without_return(bytes: &[u8]) -> &[u8]
    ensures { result.now ≡ strip_carriage_return bytes.now }
{
    match bytes {
        [front @ .., b'\r'] => front,
        _ => bytes,
    }
}

/// The words of a line of at most 64 bytes, none where it has more than six.
pub fn words_in(line: &[u8]) -> Option<ArrayVec<&str, MOST_WORDS>>
    ensures some { IfSome result (λ words. AreWords line.now (map (λ word. word.now) words.items)
        × IsShortLine line.now) }
    ensures none { IfNone result ((words : List (List ℕ)) → AreWords line.now words → AreAscii words
        → IsShortLine line.now → 6 < length words) }
{
    if line.len() > MOST_BYTES {
        return None;
    }
    match str::from_utf8(line) {
        Ok(text) => words_of(text),
        Err(_) => None,
    }
}

/// What a line asks for; none where it is malformed.
pub(crate) fn wanted_of<T: Dialect>(line: &Line) -> Option<Wanted>
    ensures some { (bytes : List ℕ) → Buffers65 bytes line.now.bytes.items line.now.is_longer
        → IfSome result (λ wanted. T.wants (strip_carriage_return bytes) wanted) }
    ensures none { (bytes : List ℕ) → Buffers65 bytes line.now.bytes.items line.now.is_longer
        → IfNone result ((wanted : WantedValue) → T.wants (strip_carriage_return bytes) wanted
        → ⊥) }
{
    if line.is_longer {
        return None;
    }
    T::read(without_return(&line.bytes))
}
