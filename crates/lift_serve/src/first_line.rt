//! The first line of a connection, which says for which terminal it speaks.

ghost use Rattle.std.specs.Prelude.{◌≡◌, ◌∷◌, ◌≤◌, ℕ, List, map, codes, length, IfSome, IfNone};
ghost use Rattle.std.specs.Str.Lines.{strip_carriage_return};
ghost use Rattle.lift_kiosk.specs.Lines.{Buffers65};
ghost use Rattle.lift_serve.specs.FirstLine.{AreTerminalWords, IsCarWord, IsKioskWord, SpeaksFor};

use lift_base::text::{letter_of_word, number_up_to};
use lift_base::{LAST_KIOSK, MOST_CARS, MOST_KIOSKS, Terminal};
use lift_building::Building;
use lift_kiosk::{Line, without_return, words_in};

/// The kiosk of a building with so many that a word names.
#[tactic(auto, using(std::proofs::lemmas::Fmt::decimal_injective))]
fn kiosk_named(word: &str, kiosks: u8) -> Option<Terminal>
    requires { kiosks ≤ MOST_KIOSKS }
    ensures some { IfSome result (λ terminal. IsKioskWord kiosks word.now terminal) }
    ensures none { IfNone result ((terminal : ℕ) → IsKioskWord kiosks word.now terminal → ⊥) }
{
    let index = number_up_to(word, LAST_KIOSK.into())?;
    if index >= u32::from(kiosks) {
        return None;
    }
    Terminal::of_kiosk(index as u8)
}

/// The car of a building with so many that a word names.
fn car_named(word: &str, cars: u8) -> Option<Terminal>
    requires { cars ≤ MOST_CARS }
    ensures some { IfSome result (λ terminal. IsCarWord cars word.now terminal) }
    ensures none { IfNone result ((terminal : ℕ) → IsCarWord cars word.now terminal → ⊥) }
{
    let car = letter_of_word(word)?;
    if car.get() >= cars {
        return None;
    }
    Some(Terminal::of_car(car))
}

/// The terminal that the words of a first line name.
#[tactic(auto, using(crate::proofs::FirstLines::pair_of, crate::proofs::FirstLines::kiosk_none))]
fn named_by(words: &[&str], cars: u8, kiosks: u8) -> Option<Terminal>
    requires cars { cars ≤ MOST_CARS }
    requires kiosks { kiosks ≤ MOST_KIOSKS }
    ensures some { IfSome result (λ terminal.
        AreTerminalWords cars kiosks (map (λ word. word.now) words.now) terminal) }
    ensures none { IfNone result ((terminal : ℕ)
        → AreTerminalWords cars kiosks (map (λ word. word.now) words.now) terminal → ⊥) }
{
    match words {
        [kind, name] => {
            if *kind == "KIOSK" {
                kiosk_named(name, kiosks)
            } else if *kind == "CAR" {
                car_named(name, cars)
            } else {
                None
            }
        }
        _ => None,
    }
}

/// The terminal of a building that a first line names; none where it is malformed, or where the building
/// lacks it.
pub fn terminal_of(line: &Line, building: &Building) -> Option<Terminal>
    ensures some { (bytes : List ℕ) → Buffers65 bytes line.now.bytes.items line.now.is_longer
        → IfSome result (λ terminal. SpeaksFor (length building.now.cars)
        (length building.now.kiosks) (strip_carriage_return bytes) terminal) }
    ensures none { (bytes : List ℕ) → Buffers65 bytes line.now.bytes.items line.now.is_longer
        → IfNone result ((terminal : ℕ) → SpeaksFor (length building.now.cars)
        (length building.now.kiosks) (strip_carriage_return bytes) terminal → ⊥) }
{
    if line.is_longer {
        return None;
    }
    let (cars, kiosks) = (building.cars(), building.kiosks());
    match words_in(without_return(&line.bytes)) {
        Some(words) => named_by(words.as_slice(), cars, kiosks),
        None => None,
    }
}
