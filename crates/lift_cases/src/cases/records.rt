//! Records as words: `allot K0 1 0 5 A x2`, `stop A 1 0 up`, `row K0 1 0 5 A aboard x2`, `last K0 1
//! 0 5 A x2`, `last A 1 0 up` and `done 3`.
use crate::cases::words::{floor_of, party_of, place_of, terminal_of};
use lift_base::text::{letter_of_word, number_of_word, number_up_to};
use lift_base::{Content, Entry, Last, Record, Row};

/// A call that waits: its kiosk, number, floors and car, and its party in the words from this place
/// on.
fn row_of(words: &[&str], party: usize) -> Option<Row> {
    match words {
        [kiosk, number, from, to, car, ..] if party <= words.len() => Some(Row {
            kiosk: terminal_of(kiosk)?,
            number: number_of_word(number)?,
            from: floor_of(from)?,
            to: floor_of(to)?,
            car: letter_of_word(car)?,
            party: party_of(&words[party..])?,
            aboard: false,
        }),
        _ => None,
    }
}

/// A call with its status before its party.
fn open_row_of(words: &[&str]) -> Option<Row> {
    let row = row_of(words, 6)?;
    match words {
        [_, _, _, _, _, "aboard", ..] => Some(Row {
            aboard: true,
            ..row
        }),
        [_, _, _, _, _, "waiting", ..] => Some(row),
        _ => None,
    }
}

/// The last command of a terminal, a stop or a call.
fn last_of(words: &[&str]) -> Option<Record> {
    if let [terminal, number, at @ ..] = words
        && let Some((floor, dir)) = place_of(at)
    {
        return Some(Record::Last {
            terminal: terminal_of(terminal)?,
            last: Last {
                number: number_of_word(number)?,
                content: Content::Stopped { floor, dir },
            },
        });
    }
    let row = row_of(words, 5)?;
    Some(Record::Last {
        terminal: row.kiosk,
        last: row.kept(),
    })
}

/// The record that these words name.
pub(crate) fn record_of(words: &[&str]) -> Option<Record> {
    let (kind, behind) = words.split_first()?;
    match *kind {
        "row" => Some(Record::Row(open_row_of(behind)?)),
        "last" => last_of(behind),
        "done" => match behind {
            [count] => Some(Record::Done {
                count: number_up_to(count, u32::MAX)?,
            }),
            _ => None,
        },
        _ => Some(Record::Entry(entry_of(words)?)),
    }
}

/// The entry that these words name.
pub(crate) fn entry_of(words: &[&str]) -> Option<Entry> {
    match words {
        ["allot", call @ ..] => Some(row_of(call, 5)?.allotment()),
        ["stop", car, number, at @ ..] => {
            let (floor, dir) = place_of(at)?;
            Some(Entry::Stop {
                car: letter_of_word(car)?,
                number: number_of_word(number)?,
                floor,
                dir,
            })
        }
        _ => None,
    }
}
