//! Decimal numbers without leading zeros.

ghost use Rattle.std.specs.Prelude.{◌≡◌, ◌≢◌, ◌≤◌, ℕ, ◌<◌, ◌^◌, ◌↔◌, IsTrue, IfSome, IfNone};
ghost use Rattle.std.specs.Fmt.{decimal};
ghost use Rattle.lift_base.specs.Text.{IsPlain};

/// Whether a word has no sign and no leading zero.
fn is_plain(word: &str) -> bool
    ensures { IsTrue result ↔ IsPlain word.now }
{
    let bytes = word.as_bytes();
    !bytes.is_empty() && bytes[0] != b'+' && (bytes[0] != b'0' || bytes.len() == 1)
}

/// The number that a word spells in the way in which it is printed.
fn number_of(word: &str) -> Option<u32>
    ensures some { IfSome result (λ n. word.now ≡ decimal n) }
    ensures small { IfSome result (λ n. n < 2 ^ 32) }
    ensures none { IfNone result ((n : ℕ) → n < 2 ^ 32 → word.now ≢ decimal n) }
{
    if !is_plain(word) {
        return None;
    }
    match word.parse::<u32>() {
        Ok(number) => Some(number),
        Err(_) => None,
    }
}

/// The number up to `most` that a word spells in the way in which it is printed: decimal, without
/// sign or leading zero.
pub fn number_up_to(word: &str, most: u32) -> Option<u32>
    ensures some { IfSome result (λ n. word.now ≡ decimal n) }
    ensures limit { IfSome result (λ n. n ≤ most) }
    ensures none { IfNone result ((n : ℕ) → n ≤ most → word.now ≢ decimal n) }
{
    match number_of(word) {
        Some(number) => { if number <= most { Some(number) } else { None } }
        None => None,
    }
}
