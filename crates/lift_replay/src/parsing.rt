//! From a script's line to what it asks for.

ghost use Rattle.std.specs.Prelude.{◌≡◌, ◌≢◌, ◌<◌, ◌⊎◌, ◌∷◌, ℕ, [], IfSome, IfNone};
ghost use Rattle.std.specs.Prelude.{codes};
ghost use Rattle.std.specs.Fmt.{decimal};
ghost use Rattle.lift_base.specs.Text.{dir_text};
ghost use Rattle.lift_base.specs.declared.travel.Dir.{Dir as Direction};
ghost use Rattle.lift_base.specs.lemmas.Texts.{texts};
ghost use Rattle.lift_replay.specs.Grammar.{Spells, AreReadAsLine};
ghost use Rattle.lift_replay.specs.declared.line.ScriptLine.{ScriptLine as Wanted};

use crate::ask::ask_of;
use crate::device_action::device_action_of;
use crate::line::ScriptLine;
use crate::query::query_of;
use lift_base::text::{dir_of_word, number_up_to, words_of};
use lift_base::{Dir, Floor, LAST_KIOSK, MOST_FLOORS, MOST_KIOSKS, TOP_FLOOR};

/// The floor, 0 to 63, that a word names.
pub fn floor_of(word: &str) -> Option<Floor>
    ensures some { IfSome result (λ floor. (word.now ≡ decimal floor) × (floor < MOST_FLOORS)) }
    ensures none { IfNone result ((floor : ℕ) → floor < MOST_FLOORS → word.now ≢ decimal floor) }
{
    match number_up_to(word, TOP_FLOOR.into()) {
        Some(number) => Floor::new(number as u8),
        None => None,
    }
}

/// The kiosk, 0 to 46, that a word names.
pub fn kiosk_of(word: &str) -> Option<u8>
    ensures some { IfSome result (λ kiosk. (word.now ≡ decimal kiosk) × (kiosk < MOST_KIOSKS)) }
    ensures none { IfNone result ((kiosk : ℕ) → kiosk < MOST_KIOSKS → word.now ≢ decimal kiosk) }
{
    match number_up_to(word, LAST_KIOSK.into()) {
        Some(number) => Some(number as u8),
        None => None,
    }
}

/// The floor and the direction that two words name.
pub fn at_of(floor: &str, dir: &str) -> Option<(Floor, Dir)>
    ensures some { IfSome result (λ at. (floor.now ≡ decimal at.0) × (at.0 < MOST_FLOORS)
        × (dir.now ≡ dir_text at.1)) }
    ensures none { IfNone result (((at : ℕ) → at < MOST_FLOORS → floor.now ≢ decimal at)
        ⊎ ((to : Direction) → dir.now ≢ dir_text to)) }
{
    let floor = floor_of(floor)?;
    let dir = dir_of_word(dir)?;
    Some((floor, dir))
}

/// What a line's words ask for, by the first one, where they aren't those of a turn.
fn asked_by(first: &str, others: &[&str]) -> Option<ScriptLine>
    ensures { first.now ∷ texts others.now ≢ codes "turn" ∷ []
        → AreReadAsLine (first.now ∷ texts others.now) result }
{
    if let Some(ask) = ask_of(first, others) {
        return Some(ScriptLine::Ask(ask));
    }
    if let Some(action) = device_action_of(first, others) {
        return Some(ScriptLine::Device(action));
    }
    let query = query_of(first, others)?;
    Some(ScriptLine::Show(query))
}

/// What a line asks for, none where it is malformed.
pub fn parse(line: &str) -> Option<ScriptLine>
    ensures some { IfSome result (λ wanted. Spells line.now wanted) }
    ensures none { IfNone result ((wanted : Wanted) → Spells line.now wanted → ⊥) }
{
    if line == "turn" {
        return Some(ScriptLine::Turn);
    }
    let words = words_of(line)?;
    match words.as_slice() {
        [first, others @ ..] => asked_by(first, others),
        [] => None,
    }
}
