//! What a car says in its sessions.

ghost use Rattle.std.specs.Prelude.{◌≡◌, ℕ, ◌<◌, ◌^◌, List, map, IfSome, IfNone, ◌∷◌, codes};
ghost use Rattle.lift_kiosk.specs.Session.{Converses, standing_of};
ghost use Rattle.lift_kiosk.specs.declared.dialect.Wanted.{Wanted as WantedValue};
ghost use Rattle.lift_car.specs.declared.lines.Move.{Move as MoveValue};
ghost use Rattle.lift_car.specs.Lines.{WantsMove, SpellsMove, IsMove, ReadsMove, keeps_stop};
ghost use Rattle.lift_car.specs.Lines.{stop_numbered};

use crate::terms::CarEnd;
use lift_base::text::{Counted, Watched, dir_of_word, number_of_word, number_up_to};
use lift_base::{Body, Dir, Floor, Number, Reply, TOP_FLOOR};
use lift_desk::Ask;
use lift_kiosk::{Dialect, End, LastLetter, Limits, Port, Wanted, converse, words_in};
use std::io::{Read, Write};

/// A move as its line spells it, to a floor up to 999.
#[derive(Clone, Copy)]
struct Move {
    /// The number of a stop; none for a place.
    number: Option<Number>,
    floor: u32,
    dir: Dir,
}

/// The place that the words after PLACE spell.
fn place_of(words: &[&str]) -> Option<Move>
    ensures { ReadsMove (codes "PLACE" ∷ map (λ word. word.now) words.now) result }
{
    match words {
        [floor, dir] => {
            let floor = number_up_to(floor, 999)?;
            let dir = dir_of_word(dir)?;
            Some(Move {
                number: None,
                floor,
                dir,
            })
        }
        _ => None,
    }
}

/// The stop that the words after STOP spell.
fn stop_of(words: &[&str]) -> Option<Move>
    ensures { ReadsMove (codes "STOP" ∷ map (λ word. word.now) words.now) result }
{
    match words {
        [number, floor, dir] => {
            let number = number_of_word(number)?;
            let floor = number_up_to(floor, 999)?;
            let dir = dir_of_word(dir)?;
            Some(Move {
                number: Some(number),
                floor,
                dir,
            })
        }
        _ => None,
    }
}

/// The move that all words of a line spell.
fn move_among(words: &[&str]) -> Option<Move>
    ensures some { IfSome result (λ found. IsMove (map (λ word. word.now) words.now) found) }
    ensures none { IfNone result ((found : MoveValue)
        → IsMove (map (λ word. word.now) words.now) found → ⊥) }
{
    match words {
        [first, others @ ..] => {
            if *first == "PLACE" {
                place_of(others)
            } else if *first == "STOP" {
                stop_of(others)
            } else {
                None
            }
        }
        [] => None,
    }
}

/// The move that a line spells.
fn move_line(line: &[u8]) -> Option<Move>
    ensures some { IfSome result (λ found. SpellsMove line.now found) }
    ensures none { IfNone result ((found : MoveValue) → SpellsMove line.now found → ⊥) }
{
    match words_in(line) {
        Some(words) => move_among(words.as_slice()),
        None => None,
    }
}

/// What a move asks for.
fn wanted_by(found: &Move) -> Wanted
    ensures { (line : List ℕ) → SpellsMove line found.now → WantsMove line result }
{
    if found.floor > u32::from(TOP_FLOOR) {
        return Wanted::NoFloor;
    }
    let Some(floor) = Floor::new(found.floor as u8) else {
        return Wanted::NoFloor;
    };
    match &found.number {
        Some(number) => Wanted::Ask(Ask {
            number: *number,
            body: Body::Stop(floor, found.dir),
        }),
        None => Wanted::Ask(Ask {
            number: Number::default(),
            body: Body::Place(floor, found.dir),
        }),
    }
}

/// The lines of a car.
pub struct CarLines;

impl Dialect for CarLines {
    ghost use Rattle.lift_car.specs.Lines.{moves_are_short};

    ghost wants = { WantsMove };

    ghost keeps = { keeps_stop };

    fn read(line: &[u8]) -> Option<Wanted> {
        match move_line(line) {
            Some(found) => Some(wanted_by(&found)),
            None => None,
        }
    }

    fn keep(last: &LastLetter, number: Number, reply: &Reply) -> LastLetter {
        match reply {
            Reply::Stopped(_) => last.or_later(number, None),
            _ => *last,
        }
    }

    ghost short = { moves_are_short };
}

/// A line asks for one thing at most.
pub fn lines_ask_for_one_thing()
    ensures { (line : List ℕ) (one other : WantedValue) → WantsMove line one → WantsMove line other
        → one ≡ other }
{}

/// A session of a car. It greets with the number of the last stop that is known to be in, then
/// reads lines `PLACE <floor> <up or down>` and `STOP <number> <floor> <up or down>`, asks each at
/// the port, and answers it. It may call the reader as often as the limits say, beyond the calls
/// that were made before.
pub fn session<R: Read + Drop, W: Write + Drop, P: Port>(
    reader: &mut Counted<R>,
    writer: &mut Watched<W>,
    port: &mut P,
    last: Number,
    limits: Limits,
) -> CarEnd
    ensures converses { Converses WantsMove keeps_stop limits result.end
        (standing_of R.remaining W.contents P.view reader.old writer.old port.old (stop_numbered last))
        (standing_of R.remaining W.contents P.view reader.new writer.new port.new (stop_numbered result.last)) }
    ensures stays { P.place port.new ≡ P.place port.old }
{
    let mut last = LastLetter {
        number: last,
        letter: None,
    };
    let end = converse::<CarLines, R, W, P>(reader, writer, port, &mut last, &limits);
    CarEnd {
        last: last.number,
        end,
    }
}
