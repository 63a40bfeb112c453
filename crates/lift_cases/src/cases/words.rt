//! Words of a case's line: floors, terminals, parties, calls, and what terminals ask. There is none
//! where they are spelled otherwise.

use lift_base::text::{dir_of_word, letter_of_word, number_up_to};
use lift_base::{Body, Dir, Floor, Party, Position, Terminal};
use lift_cost::NewCall;

/// A floor, 0 to 63.
pub(crate) fn floor_of(word: &str) -> Option<Floor> {
    let number = number_up_to(word, 63)?;
    Floor::new(number as u8)
}

/// A car, `A` to `P`, or a kiosk, `K0` to `K46`.
pub(crate) fn terminal_of(word: &str) -> Option<Terminal> {
    if let Some(car) = letter_of_word(word) {
        return Some(Terminal::of_car(car));
    }
    let index = number_up_to(word.strip_prefix('K')?, 46)?;
    Terminal::of_kiosk(index as u8)
}

/// The party that the last words name, as `x2`; without any it is one person.
pub(crate) fn party_of(words: &[&str]) -> Option<Party> {
    match words {
        [] => Some(Party::default()),
        [word] => {
            let persons = number_up_to(word.strip_prefix('x')?, 15)?;
            Party::new(persons as u8)
        }
        _ => None,
    }
}

/// The floors and the party of a call, as `0 5 x2`.
pub(crate) fn call_of(words: &[&str]) -> Option<NewCall> {
    match words {
        [from, to, party @ ..] => Some(NewCall {
            from: floor_of(from)?,
            to: floor_of(to)?,
            party: party_of(party)?,
        }),
        _ => None,
    }
}

/// A floor and a direction, as `0 up`.
pub(crate) fn place_of(words: &[&str]) -> Option<(Floor, Dir)> {
    match words {
        [floor, dir] => Some((floor_of(floor)?, dir_of_word(dir)?)),
        _ => None,
    }
}

/// The same, as where a car is.
pub(crate) fn position_of(words: &[&str]) -> Option<Position> {
    let (floor, dir) = place_of(words)?;
    Some(Position { floor, dir })
}

/// What a terminal asks: `call 5 x2`, `stop 0 up` or `place 0 up`.
pub(crate) fn body_of(words: &[&str]) -> Option<Body> {
    let (verb, behind) = words.split_first()?;
    if *verb == "call" {
        let (floor, party) = behind.split_first()?;
        return Some(Body::Call(floor_of(floor)?, party_of(party)?));
    }
    let (floor, dir) = place_of(behind)?;
    match *verb {
        "stop" => Some(Body::Stop(floor, dir)),
        "place" => Some(Body::Place(floor, dir)),
        _ => None,
    }
}
