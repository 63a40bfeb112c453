//! Words of a script: replies, asks and stops. There is none where they are spelled otherwise.
use lift_base::text::{dir_of_word, letter_of_word, number_of_word, number_up_to, party_of_words};
use lift_base::{Body, Floor, Number, Reason, Reply, Stop};
use lift_desk::{Ask, reply_word};
use lift_kiosk::LastLetter;
use std::alloc::Global;

/// A floor, 0 to 63.
fn floor_of(word: &str) -> Option<Floor> {
    let number = number_up_to(word, 63)?;
    Floor::new(number as u8)
}

/// A floor and a direction, as `0 up`.
pub(crate) fn stop_of(words: &[&str]) -> Option<Stop> {
    match words {
        [floor, dir] => Some(Stop {
            floor: floor_of(floor)?,
            dir: dir_of_word(dir)?,
        }),
        _ => None,
    }
}

/// `car A`, `stopped`, `stopped 5 up`, `placed`, `placed 5 up`, `refused 11` or `unknown`.
pub(crate) fn reply_of(words: &[&str]) -> Option<Reply> {
    match words {
        ["car", letter] => Some(Reply::Car(letter_of_word(letter)?)),
        ["stopped"] => Some(Reply::Stopped(None)),
        ["stopped", stop @ ..] => Some(Reply::Stopped(Some(stop_of(stop)?))),
        ["placed"] => Some(Reply::Placed(None)),
        ["placed", stop @ ..] => Some(Reply::Placed(Some(stop_of(stop)?))),
        ["refused", reason] => {
            let number = number_up_to(reason, 255)?;
            Some(Reply::Refused(Reason::from_number(number as u8)?))
        }
        ["unknown"] => Some(Reply::Unknown),
        _ => None,
    }
}

/// The same as the desk's word for it in the first turn.
pub(crate) fn reply_word_of(words: &[&str]) -> Option<u64> {
    let reply = reply_of(words);
    match &reply {
        Some(reply) => Some(reply_word(1, Number::default(), *reply)),
        None => None,
    }
}

/// `1 call 5`, `1 call 5 2`, `1 stop 0 up` or `0 place 0 up`.
pub(crate) fn ask_of(words: &[&str]) -> Option<Ask> {
    let (number, words) = words.split_first()?;
    let (kind, behind) = words.split_first()?;
    let number = number_of_word(number)?;
    if *kind == "call" {
        let (floor, party) = behind.split_first()?;
        let body = Body::Call(floor_of(floor)?, party_of_words(party)?);
        return Some(Ask { number, body });
    }
    let Stop { floor, dir } = stop_of(behind)?;
    let body = match *kind {
        "stop" => Body::Stop(floor, dir),
        "place" => Body::Place(floor, dir),
        _ => return None,
    };
    Some(Ask { number, body })
}

/// `5` or `5 B`: the number of a command and the letter that it got.
pub(crate) fn last_of(words: &[&str]) -> Option<LastLetter> {
    let (number, letter) = match words {
        [number] => (number, None),
        [number, letter] => (number, Some(letter_of_word(letter)?)),
        _ => return None,
    };
    let number = number_of_word(number)?;
    Some(LastLetter { number, letter })
}

/// A car's index or a reason's number, by a letter or a number.
pub(crate) fn index_of(word: &str) -> Option<u8> {
    match letter_of_word(word) {
        Some(letter) => Some(letter.get()),
        None => match number_up_to(word, 255) {
            Some(number) => Some(number as u8),
            None => None,
        },
    }
}

/// The bytes that a text stands for: `|` is the end of a line, `~` and `^` are FF and C3, which begin
/// no character and one that needs more. None where memory is refused.
pub(crate) fn bytes_of(alloc: Global, text: &str) -> Option<Vec<u8>> {
    let mut bytes = Vec::new(alloc);
    for byte in text.as_bytes() {
        let plain = match *byte {
            b'|' => b'\n',
            b'~' => 0xFF,
            b'^' => 0xC3,
            other => other,
        };
        bytes.push(plain).ok()?;
    }
    Some(bytes)
}
