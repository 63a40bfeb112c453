//! The lines that a session writes. None has more than 32 bytes, and none takes memory.

ghost use Rattle.std.specs.Prelude.{◌≡◌, ◌+◌, ◌≤◌, ◌<◌, [], ◌++◌, length};
ghost use Rattle.std.specs.Fmt.{decimal};
ghost use Rattle.lift_base.specs.Text.{letter_text, next_text, reply_text};
ghost use Rattle.lift_kiosk.specs.Session.{answer_line, greeting_text, opening_line};
ghost use Rattle.lift_kiosk.specs.declared.outcome.Opening.TheVariants.{StillWaits};

use crate::outcome::{Opening, Outcome};
use crate::terms::LastLetter;
use arrayvec::ArrayVec;
use lift_base::{Dir, Letter, Reply, Stop};

pub(crate) type Text = ArrayVec<u8, 32>;

fn push(text: &mut Text, bytes: &[u8])
    requires { length text.old.items + length bytes.now ≤ 32 }
    ensures text { text.new.items ≡ text.old.items ++ bytes.now }
    ensures count { length text.new.items ≡ length text.old.items + length bytes.now }
{
    let pushed = text.try_extend_from_slice(bytes).is_ok();
    prove!(pushed);
}

/// Adds a number, decimal without leading zeros.
fn push_number(text: &mut Text, number: u32)
    requires room { length text.old.items ≤ 16 }
    requires small { number < 16777216 }
    ensures text { text.new.items ≡ text.old.items ++ decimal number }
    ensures count { length text.new.items ≤ length text.old.items + 8 }
    ensures few { number < 100 → length text.new.items ≤ length text.old.items + 2 }
{
    if number < 10 {
        text.push(b'0' + number as u8);
    } else {
        push_number(text, number / 10);
        text.push(b'0' + (number % 10) as u8);
    }
}

fn push_letter(text: &mut Text, letter: &Letter)
    requires { length text.old.items < 32 }
    ensures text { text.new.items ≡ text.old.items ++ letter_text letter.now }
    ensures count { length text.new.items ≡ length text.old.items + 1 }
{
    text.push(b'A' + letter.get());
}

fn push_next(text: &mut Text, next: &Option<Stop>)
    requires { text.old.items ≡ [] }
    ensures text { text.new.items ≡ next_text next.now }
    ensures short { length text.new.items ≤ 16 }
{
    match next {
        None => push(text, b"IDLE"),
        Some(stop) => {
            push(text, b"NEXT ");
            push_number(text, u32::from(stop.floor.get()));
            match stop.dir {
                Dir::Up => push(text, b" up"),
                Dir::Down => push(text, b" down"),
            }
        }
    }
}

fn push_reply(text: &mut Text, reply: &Reply)
    requires { text.old.items ≡ [] }
    ensures text { text.new.items ≡ reply_text reply.now }
    ensures short { length text.new.items ≤ 16 }
{
    match reply {
        Reply::Car(letter) => {
            push(text, b"CAR ");
            push_letter(text, letter);
        }
        Reply::Stopped(next) => push_next(text, next),
        Reply::Placed(next) => push_next(text, next),
        Reply::Refused(reason) => {
            push(text, b"NO ");
            push_number(text, u32::from(reason.number()));
        }
        Reply::Unknown => push(text, b"UNKNOWN"),
    }
}

/// The line that answers a line.
pub(crate) fn answer_of(outcome: &Outcome) -> Text
    ensures { result.items ≡ answer_line outcome.now }
{
    let mut text = Text::new();
    match outcome {
        Outcome::Malformed => push(&mut text, b"BAD"),
        Outcome::OffFloors => push(&mut text, b"NO 1"),
        Outcome::Answered(_, reply) => push_reply(&mut text, reply),
        Outcome::NotAnswered(_) => push(&mut text, b"LATE"),
        Outcome::Refused(_) => push(&mut text, b"SPENT"),
    }
    text.push(b'\n');
    text
}

/// The first line: the greeting, or that the answer to an earlier ask was not heard.
pub(crate) fn opening_of(last: &LastLetter, opening: &Opening) -> Text
    ensures { result.items ≡ opening_line last.now opening.now }
{
    let mut text = Text::new();
    if let Opening::StillWaits = opening {
        push(&mut text, b"LATE");
    } else {
        push_greeting(&mut text, last);
    }
    text.push(b'\n');
    text
}

fn push_greeting(text: &mut Text, last: &LastLetter)
    requires { text.old.items ≡ [] }
    ensures text { text.new.items ≡ greeting_text last.now }
    ensures short { length text.new.items ≤ 16 }
{
    push(text, b"READY ");
    push_number(text, last.number.get());
    if let Some(letter) = &last.letter {
        push(text, b" ");
        push_letter(text, letter);
    }
}
