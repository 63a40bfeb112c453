//! What a kiosk says in its sessions.

ghost use Rattle.std.specs.Prelude.{◌≡◌, ℕ, ◌<◌, List, map, ◌^◌, IfSome, IfNone, ◌∷◌, codes};
ghost use Rattle.lift_kiosk.specs.Session.{Converses, standing_of};
ghost use Rattle.lift_kiosk.specs.Kiosk.{AreCallWords, SpellsCall, WantsCall, keeps_letter};
ghost use Rattle.lift_kiosk.specs.declared.dialect.Wanted.{Wanted as WantedValue};

use crate::conversation::converse;
use crate::dialect::{Dialect, Wanted};
use crate::port::Port;
use crate::reading::words_in;
use crate::terms::{End, LastLetter, Limits, SessionEnd};
use lift_base::text::{Counted, Watched, number_of_word, number_up_to, party_of_words};
use lift_base::{Body, Floor, Number, Party, Reply, TOP_FLOOR};
use lift_desk::Ask;
use std::io::{Read, Write};

/// A call as its line spells it, to a floor up to 999.
#[derive(Clone, Copy)]
struct CallLine {
    number: Number,
    floor: u32,
    party: Party,
}

/// The call that the words after CALL spell.
fn call_of(words: &[&str]) -> Option<CallLine>
    ensures some { IfSome result (λ call.
        AreCallWords (map (λ word. word.now) words.now) call.number call.floor call.party) }
    ensures none { IfNone result ((number floor party : ℕ)
        → AreCallWords (map (λ word. word.now) words.now) number floor party → ⊥) }
{
    match words {
        [number, floor, party @ ..] => {
            let number = number_of_word(number)?;
            let floor = number_up_to(floor, 999)?;
            let party = party_of_words(party)?;
            Some(CallLine {
                number,
                floor,
                party,
            })
        }
        _ => None,
    }
}

/// The call that all words of a line spell.
fn call_among(words: &[&str]) -> Option<CallLine>
    ensures some { IfSome result (λ call.
        (others : List (List ℕ)) × (map (λ word. word.now) words.now ≡ codes "CALL" ∷ others)
        × AreCallWords others call.number call.floor call.party) }
    ensures none { IfNone result ((others : List (List ℕ)) (number floor party : ℕ)
        → map (λ word. word.now) words.now ≡ codes "CALL" ∷ others
        → AreCallWords others number floor party → ⊥) }
{
    match words {
        [first, others @ ..] => {
            if *first == "CALL" {
                call_of(others)
            } else {
                None
            }
        }
        [] => None,
    }
}

/// The call that a line spells.
fn call_line(line: &[u8]) -> Option<CallLine>
    ensures some { IfSome result (λ call. SpellsCall line.now call.number call.floor call.party) }
    ensures none { IfNone result ((number floor party : ℕ) → SpellsCall line.now number floor party
        → ⊥) }
{
    match words_in(line) {
        Some(words) => call_among(words.as_slice()),
        None => None,
    }
}

/// What a call asks for.
fn wanted_by(call: &CallLine) -> Wanted
    ensures { (line : List ℕ) → SpellsCall line call.now.number call.now.floor call.now.party
        → WantsCall line result }
{
    if call.floor > u32::from(TOP_FLOOR) {
        return Wanted::NoFloor;
    }
    match Floor::new(call.floor as u8) {
        Some(floor) => Wanted::Ask(Ask {
            number: call.number,
            body: Body::Call(floor, call.party),
        }),
        None => Wanted::NoFloor,
    }
}

/// The lines of a kiosk.
pub struct Kiosk;

impl Dialect for Kiosk {
    ghost use Rattle.lift_kiosk.specs.Kiosk.{calls_are_short};

    ghost wants = { WantsCall };

    ghost keeps = { keeps_letter };

    fn read(line: &[u8]) -> Option<Wanted> {
        match call_line(line) {
            Some(call) => Some(wanted_by(&call)),
            None => None,
        }
    }

    fn keep(last: &LastLetter, number: Number, reply: &Reply) -> LastLetter {
        match reply {
            Reply::Car(letter) => last.or_later(number, Some(*letter)),
            _ => *last,
        }
    }

    ghost short = { calls_are_short };
}

/// A line asks for one thing at most.
pub fn lines_ask_for_one_thing()
    ensures { (line : List ℕ) (one other : WantedValue) → WantsCall line one → WantsCall line other
        → one ≡ other }
{}

/// A session of a kiosk. It greets with the last call that is known to be in, then reads lines
/// `CALL <number> <floor> [party]`, asks each at the port, and answers it. It may call the reader
/// as often as the limits say, beyond the calls that were made before.
pub fn session<R: Read + Drop, W: Write + Drop, P: Port>(
    reader: &mut Counted<R>,
    writer: &mut Watched<W>,
    port: &mut P,
    last: LastLetter,
    limits: Limits,
) -> SessionEnd
    ensures converses { Converses WantsCall keeps_letter limits result.end
        (standing_of R.remaining W.contents P.view reader.old writer.old port.old last)
        (standing_of R.remaining W.contents P.view reader.new writer.new port.new result.last) }
    ensures stays { P.place port.new ≡ P.place port.old }
{
    let mut last = last;
    let end = converse::<Kiosk, R, W, P>(reader, writer, port, &mut last, &limits);
    SessionEnd { last, end }
}
