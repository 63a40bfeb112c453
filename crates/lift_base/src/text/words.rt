//! Lines as words with one space between each two.

ghost use Rattle.std.specs.Prelude.{◌≡◌, ◌≢◌, ◌<◌, ◌++◌, ◌∷◌, ℕ, List, All, map, length, slice_get};
ghost use Rattle.std.specs.Prelude.{take, Some, IfSome, IfNone};
ghost use Rattle.lift_base.specs.Text.{AreWords};

use arrayvec::ArrayVec;

/// No line of a script or a session has more words.
pub const MOST_WORDS: usize = 6;

/// The first place where this byte stands.
fn place_of(bytes: &[u8], byte: u8) -> Option<usize>
    ensures here { IfSome result (λ place. slice_get bytes.now place ≡ Some byte) }
    ensures first { IfSome result (λ place. All (λ other. other ≢ byte) (take place bytes.now)) }
    ensures none { IfNone result (All (λ other. other ≢ byte) bytes.now) }
{
    for place in 0..bytes.len() {
        if bytes[place] == byte {
            return Some(place);
        }
    }
    None
}

/// The text before the first such byte and the text after it, none where there is no such byte.
/// The byte is a whole character: below 128.
pub fn split_at_byte(text: &str, byte: u8) -> Option<(&str, &str)>
    requires { byte < 128 }
    ensures cut { IfSome result (λ parts. text.now ≡ parts.0.now ++ byte ∷ parts.1.now) }
    ensures first { IfSome result (λ parts. All (λ other. other ≢ byte) parts.0.now) }
    ensures none { IfNone result (All (λ other. other ≢ byte) text.now) }
{
    let place = place_of(text.as_bytes(), byte)?;
    Some((&text[..place], &text[place + 1..]))
}

/// The words of a line, none where there are more than six.
pub fn words_of(line: &str) -> Option<ArrayVec<&str, MOST_WORDS>>
    ensures some { IfSome result (λ words. AreWords line.now (map (λ word. word.now) words.items)) }
    ensures none { IfNone result ((words : List (List ℕ)) → AreWords line.now words
        → 6 < length words) }
{
    let mut words = ArrayVec::new();
    let mut rest = line;
    for _ in 0..MOST_WORDS {
        match split_at_byte(rest, b' ') {
            None => {
                words.push(rest);
                return Some(words);
            }
            Some((word, behind)) => {
                words.push(word);
                rest = behind;
            }
        }
    }
    None
}
