//! How cars, directions, the numbers of commands and parties are written.

ghost use Rattle.std.specs.Prelude.{◌≡◌, ◌≢◌, ◌<◌, ◌≤◌, ◌+◌, ℕ, map, IfSome, IfNone};
ghost use Rattle.std.specs.Fmt.{decimal};
ghost use Rattle.lift_base.specs.Text.{ArePartyWords, letter_text, dir_text};
ghost use Rattle.lift_base.specs.declared.travel.Dir.{Dir as Direction};

use super::number::number_up_to;
use crate::checked::{Letter, Number, Party};
use crate::limits::MOST_CARS;
use crate::travel::Dir;

/// The car that a word names by its letter.
pub fn letter_of_word(word: &str) -> Option<Letter>
    ensures some { IfSome result (λ car. word.now ≡ letter_text car) }
    ensures none { IfNone result ((car : ℕ) → car < MOST_CARS → word.now ≢ letter_text car) }
{
    let bytes = word.as_bytes();
    if bytes.len() != 1 || bytes[0] < b'A' {
        return None;
    }
    Letter::new(bytes[0] - b'A')
}

/// The direction that a word names.
pub fn dir_of_word(word: &str) -> Option<Dir>
    ensures some { IfSome result (λ dir. word.now ≡ dir_text dir) }
    ensures none { IfNone result ((dir : Direction) → word.now ≢ dir_text dir) }
{
    if word == "up" {
        Some(Dir::Up)
    } else if word == "down" {
        Some(Dir::Down)
    } else {
        None
    }
}

/// The number of a command, 0 to 16,777,215, that a word names.
pub fn number_of_word(word: &str) -> Option<Number>
    ensures some { IfSome result (λ number. (word.now ≡ decimal number) × (number < 16777216)) }
    ensures none { IfNone result ((number : ℕ) → number < 16777216 → word.now ≢ decimal number) }
{
    match number_up_to(word, 16_777_215) {
        Some(number) => Number::new(number),
        None => None,
    }
}

/// The party, 1 to 15, that the last words of a line name: absent means 1.
pub fn party_of_words(words: &[&str]) -> Option<Party>
    ensures some { IfSome result (λ party.
        ArePartyWords (map (λ word. word.now) words.now) party × (1 ≤ party) × (party ≤ 15)) }
    ensures none { IfNone result ((party : ℕ) → 1 ≤ party → party ≤ 15
        → ArePartyWords (map (λ word. word.now) words.now) party → ⊥) }
{
    match words {
        [] => Some(Party::default()),
        [word] => match number_up_to(word, 15) {
            Some(number) => Party::new(number as u8),
            None => None,
        },
        _ => None,
    }
}
