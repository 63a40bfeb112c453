//! Runs of the machine of events.
use crate::cases::{Came, body_of, terminal_of};
use lift_base::text::{letter_of_word, number_of_word};
use lift_world::{Event, Kept, Phase, Power, World};

fn kept_of(word: &str) -> Option<Kept> {
    match word {
        "safe" => Some(Kept::Safe),
        "with-batch" => Some(Kept::WithBatch),
        _ => None,
    }
}

/// An event of one word.
fn plain_event(word: &str) -> Option<Event> {
    match word {
        "seal" => Some(Event::Seal),
        "pull" => Some(Event::Pull),
        "fold" => Some(Event::Fold),
        "body" => Some(Event::Body),
        "first-sync" => Some(Event::FirstSync),
        "gate" => Some(Event::Gate),
        "second-sync" => Some(Event::SecondSync),
        "fault" => Some(Event::Fault),
        _ => None,
    }
}

/// An event of a verb and its words: `ask K0 1 call 5`, `take K0 A`, `take A`, `answer K0`, `hear
/// K0`, `cut safe` or `reopen with-batch`.
fn event_of(words: &[&str]) -> Option<Event> {
    match words {
        [word] => plain_event(word),
        ["answer", who] => Some(Event::Answer(terminal_of(who)?)),
        ["hear", who] => Some(Event::Hear(terminal_of(who)?)),
        ["take", who] => Some(Event::Take(terminal_of(who)?, None)),
        ["take", who, car] => Some(Event::Take(terminal_of(who)?, Some(letter_of_word(car)?))),
        ["cut", kept] => Some(Event::Cut(kept_of(kept)?)),
        ["reopen", kept] => Some(Event::Reopen(kept_of(kept)?)),
        ["ask", who, number, body @ ..] => Some(Event::Ask(
            terminal_of(who)?,
            number_of_word(number)?,
            body_of(body)?,
        )),
        _ => None,
    }
}

/// Whether an event is possible; then it happens.
fn happens(world: &mut World, event: Option<Event>, came: &mut Came) -> Option<bool> {
    match event {
        Some(event) => match world.step(&event) {
            Ok(is_possible) => Some(is_possible),
            Err(_) => {
                came.cut_off();
                Some(true)
            }
        },
        None => None,
    }
}

/// `event seal then pull`: each of these happens. The first that isn't possible ends the line.
pub(crate) fn happen(world: &mut World, words: &[&str], came: &mut Came) -> Option<()> {
    for part in words.split(|word| *word == "then") {
        if !happens(world, event_of(part), came)? {
            came.word("not possible");
            return Some(());
        }
    }
    Some(())
}

fn power_word(power: Power) -> &'static str {
    match power {
        Power::Running => "running",
        Power::Broken => "broken",
        Power::Off(Kept::Safe) => "off safe",
        Power::Off(Kept::WithBatch) => "off with-batch",
    }
}

/// How far the batch in flight is.
fn push_phase(phase: Phase, came: &mut Came) {
    match phase {
        Phase::Idle => came.word("idle"),
        Phase::Writing(count) => {
            came.word("writing");
            came.word(count);
        }
        Phase::Synced => came.word("synced"),
        Phase::GateWritten => came.word("gate written"),
    }
}

/// How many entries were accepted, how many of them are safe, and how many batches are queued.
fn push_entries(world: &World, came: &mut Came) {
    came.word(world.accepted().len());
    came.word("accepted,");
    came.word(world.safe());
    came.word("safe,");
    came.word(world.queued());
    came.word("queued");
}

/// What is asked of the machine: `run told` is the reply that was stored last.
pub(crate) fn asked(world: &World, words: &[&str], came: &mut Came) -> Option<()> {
    match words {
        ["power"] => came.word(power_word(world.power())),
        ["phase"] => push_phase(world.phase(), came),
        ["told"] => match world.answered().last() {
            Some(answer) => came.word(answer.reply),
            None => came.word("none"),
        },
        ["entries"] => push_entries(world, came),
        ["heard"] => came.word(world.heard().len()),
        _ => return None,
    }
    Some(())
}
