//! Scripts of sessions and drives at one terminal, and what has to come of them.
use crate::recorder::Recorder;
use crate::served::{Served, only_seat, open, use_turns};
use crate::streams::{Narrow, Slow};
use crate::words::{ask_of, bytes_of, index_of, last_of, reply_word_of, stop_of};
use crate::{cars, drives, faults, kiosks};
use lift_base::text::{Counted, Watched, number_up_to, words_of};
use lift_base::{Floor, Number};
use lift_car::{Ending, drive};
use lift_desk::{DeskParts, read_ask};
use lift_kiosk::{End, LastLetter, Limits, Port};
use std::alloc::Global;
use std::cell::Cell;

/// What a session or a drive came to: why it ended, the last number that is known to be in, and the
/// letter that it got or the number of the reason.
#[derive(Clone, Copy)]
struct Came {
    end: &'static str,
    last: u32,
    index: Option<u8>,
}

/// How the streams of a session go.
#[derive(Clone, Copy)]
struct Streams {
    filled: usize,
    is_endless: bool,
    gives: u64,
    takes: usize,
    fails: bool,
}

/// A terminal, what the lines of its script set, and what came of the last session or drive.
#[derive(Drop)]
struct Scene<'d> {
    alloc: Global,
    port: Served<'d>,
    car: Recorder<'d>,
    limits: Limits,
    streams: Streams,
    begins: LastLetter,
    wrote: Vec<u8>,
    /// None before the first one, and once its end was compared.
    came: Option<Came>,
    /// What `#` stands for.
    each: u32,
    /// How many asks were compared, and how many halts.
    asked: usize,
    halted: usize,
}

/// More than any session uses.
pub(crate) const AMPLE: Limits = Limits {
    lines: 1000,
    looks: 10,
    reads: 1_000_000,
};

/// No stream fails.
const PLAIN: Streams = Streams {
    filled: 0,
    is_endless: false,
    gives: u64::MAX,
    takes: usize::MAX,
    fails: false,
};

fn name_of(end: End) -> &'static str {
    match end {
        End::Closed => "closed",
        End::Limit => "limit",
        End::Late => "late",
        End::Spent => "spent",
        End::ReadFault => "read",
        End::WriteFault => "write",
    }
}

fn came_of(ending: Ending, last: u32) -> Came {
    let (end, index) = match ending {
        Ending::Limit => ("limit", None),
        Ending::Late => ("late", None),
        Ending::Spent => ("spent", None),
        Ending::Refused(reason) => ("refused", Some(reason.number())),
        Ending::Unknown => ("unknown", None),
    };
    Came { end, last, index }
}

fn talk_of_kiosk(
    reader: Slow,
    writer: &mut Watched<Narrow>,
    port: &mut Served,
    last: LastLetter,
    limits: Limits,
) -> Came {
    let end = lift_kiosk::session(&mut Counted::new(reader), writer, port, last, limits);
    let index = match end.last.letter {
        Some(letter) => Some(letter.get()),
        None => None,
    };
    Came {
        end: name_of(end.end),
        last: end.last.number.get(),
        index,
    }
}

fn talk_of_car(
    reader: Slow,
    writer: &mut Watched<Narrow>,
    port: &mut Served,
    last: Number,
    limits: Limits,
) -> Came {
    let end = lift_car::session(&mut Counted::new(reader), writer, port, last, limits);
    Came {
        end: name_of(end.end),
        last: end.last.get(),
        index: None,
    }
}

impl Scene<'_> {
    /// A session whose reader has this text.
    fn talk(&mut self, is_of_car: bool, text: &[u8]) {
        let streams = self.streams;
        let reader = Slow {
            filled: streams.filled,
            text,
            given: 0,
            is_endless: streams.is_endless,
            calls: streams.gives,
        };
        let mut writer = Watched::new(Narrow {
            taken: Vec::new(self.alloc),
            room: streams.takes,
            fails: streams.fails,
        });
        let (last, limits) = (self.begins, self.limits);
        self.came = Some(if is_of_car {
            talk_of_car(reader, &mut writer, &mut self.port, last.number, limits)
        } else {
            talk_of_kiosk(reader, &mut writer, &mut self.port, last, limits)
        });
        let Narrow { taken, .. } = writer.into_inner();
        self.wrote = taken;
    }

    /// `kiosk TEXT` and `car TEXT` are sessions; `wrote TEXT` is all that came of one, or of it as much
    /// as its writer took.
    fn follows_text(&mut self, key: &str, text: &str) -> bool {
        match bytes_of(self.alloc, text) {
            Some(bytes) => {
                let bytes = bytes.as_slice();
                if key == "wrote" {
                    let most = self.streams.takes.min(bytes.len());
                    return self.wrote.as_slice() == &bytes[..most];
                }
                let is_first = self.came.is_none();
                self.talk(key == "car", bytes);
                is_first
            }
            None => false,
        }
    }

    /// A number, or `#`.
    fn number_of(&self, word: &str) -> Option<u32> {
        if word == "#" {
            Some(self.each)
        } else {
            number_up_to(word, u32::MAX)
        }
    }

    /// `ended closed 1 A`, `ended refused 4 11`: the last session or drive.
    fn has_ended(&mut self, words: &[&str]) -> bool {
        match (words, self.came.take()) {
            ([end, last, behind @ ..], Some(came)) => {
                let is_index = match (behind, came.index) {
                    ([], None) => true,
                    ([word], Some(index)) => index_of(word) == Some(index),
                    _ => false,
                };
                is_index && came.end == *end && number_up_to(last, u32::MAX) == Some(came.last)
            }
            _ => false,
        }
    }

    /// `asked 1 call 5`: the next ask that the clerk took.
    fn has_asked(&mut self, words: &[&str]) -> bool {
        let next = self.asked;
        self.asked = next.saturating_add(1);
        match (ask_of(words), self.port.taken.get(next)) {
            (Some(ask), Some(taken)) => read_ask(*taken) == Some(ask),
            _ => false,
        }
    }

    /// `halt 1 3 down`: the next stop to which the car went, after so many asks.
    fn has_halted(&mut self, words: &[&str]) -> bool {
        let next = self.halted;
        self.halted = next.saturating_add(1);
        let (Some((asks, stop)), Some(halt)) = (words.split_first(), self.car.halts.get(next))
        else {
            return false;
        };
        match stop_of(stop) {
            Some(stop) => {
                number_up_to(asks, u32::MAX) == Some(halt.asks)
                    && stop.floor.get() == halt.floor
                    && stop.dir == halt.dir
            }
            None => false,
        }
    }

    /// What numbers set: of the clerk, the limits and the streams what their names say. `put 3` has the
    /// car at that floor, and `stands 3` asks that.
    fn sets(&mut self, key: &str, number: u32) -> bool {
        match key {
            "idle" => self.port.idle = number,
            "lines" => self.limits.lines = number,
            "looks" => self.limits.looks = number,
            "reads" => self.limits.reads = number,
            "filled" => self.streams.filled = number as usize,
            "gives" => self.streams.gives = u64::from(number),
            "takes" => self.streams.takes = number as usize,
            "used" => return use_turns(&mut self.port, number),
            "put" if number <= 63 => {
                self.car.car.position.floor = Floor::new(number as u8).unwrap_or_default()
            }
            "stands" => return u32::from(self.car.car.position.floor.get()) == number,
            _ => return false,
        }
        true
    }

    /// Lines of one word.
    fn does(&mut self, key: &str) -> bool {
        match key {
            "turn" => self.port.turn(),
            "endless" => self.streams.is_endless = true,
            "fails" => self.streams.fails = true,
            "drive" if self.came.is_none() => {
                let end = drive(
                    &mut self.car,
                    &mut self.port,
                    self.begins.number,
                    self.limits,
                );
                self.came = Some(came_of(end.end, end.last.get()));
            }
            "all" => {
                return self.asked == self.port.taken.len() && self.halted == self.car.halts.len();
            }
            _ => return false,
        }
        true
    }

    /// `ask 3 stop 1 up`: the terminal asks.
    fn asks(&mut self, words: &[&str]) -> bool {
        match ask_of(words) {
            Some(ask) => self.port.ask(ask.number, ask.body).is_ok(),
            None => false,
        }
    }

    fn follows_number(&mut self, key: &str, words: &[&str]) -> bool {
        match words {
            [word] => match self.number_of(word) {
                Some(number) => self.sets(key, number),
                None => false,
            },
            _ => false,
        }
    }

    fn follows_words(&mut self, key: &str, words: &[&str]) -> bool {
        match key {
            "asked" => self.has_asked(words),
            "halt" => self.has_halted(words),
            "ended" => self.has_ended(words),
            "reply" => match reply_word_of(words) {
                Some(word) => self.port.add_reply(word),
                None => false,
            },
            "ask" => self.asks(words),
            "begins" => match last_of(words) {
                Some(last) => {
                    self.begins = last;
                    true
                }
                None => false,
            },
            _ => self.follows_number(key, words),
        }
    }

    /// Carries out a line. Whether it is one, and all is as it says.
    fn follows_line(&mut self, line: &str) -> bool {
        match line.split_once(' ') {
            None => self.does(line),
            Some((key, rest)) => {
                if key == "kiosk" || key == "car" || key == "wrote" {
                    return self.follows_text(key, rest);
                }
                match words_of(rest) {
                    Some(words) => self.follows_words(key, words.as_slice()),
                    None => false,
                }
            }
        }
    }

    fn follows(&mut self, lines: &str) -> bool {
        for line in lines.lines() {
            if !self.follows_line(line) {
                return false;
            }
        }
        true
    }
}

/// Whether a case comes out, with the end of each session and drive. Where memory is refused for its
/// desk it doesn't.
fn comes_out(alloc: Global, front: &str, lines: &str, each: u32) -> bool {
    let Ok(
        DeskParts {
            desk,
            mut seats,
            clerk,
        },
    ) = open(alloc)
    else {
        return false;
    };
    let seat = only_seat(&desk, &mut seats);
    let asks = Cell::new(0);
    let mut scene = Scene {
        alloc,
        port: Served::new(alloc, &desk, seat, clerk, &asks),
        car: Recorder::new(alloc, &asks),
        limits: AMPLE,
        streams: PLAIN,
        begins: LastLetter {
            number: Number::default(),
            letter: None,
        },
        wrote: Vec::new(alloc),
        came: None,
        each,
        asked: 0,
        halted: 0,
    };
    scene.follows(front) && scene.follows(lines) && scene.came.is_none()
}

/// A case's lines behind `each 0 9`, which has it carried out for 0 to 8 in turn; `#` stands for that.
fn span_of(lines: &str) -> Option<(u32, u32, &str)> {
    let (span, behind) = lines.strip_prefix("each ")?.split_once('\n')?;
    let (from, to) = span.split_once(' ')?;
    Some((
        number_up_to(from, u32::MAX)?,
        number_up_to(to, u32::MAX)?,
        behind,
    ))
}

/// How often a case comes out before it doesn't, and whether it always does.
fn comes_out_each(alloc: Global, front: &str, case: &str) -> (u32, bool) {
    let (_name, lines) = case.split_once('\n').unwrap_or((case, ""));
    let (from, to, lines) = span_of(lines).unwrap_or((0, 1, lines));
    let mut count = 0u32;
    for each in from..to {
        if !comes_out(alloc, front, lines, each) {
            return (count, false);
        }
        count = count.saturating_add(1);
    }
    (count, true)
}

/// How many cases of a text come out before the first one that doesn't, and whether all do. Each begins
/// with a line `case NAME` and is of one terminal at a desk of its own; `front` stands before its lines.
fn successes(alloc: Global, front: &str, text: &str) -> (u32, bool) {
    let mut count = 0u32;
    for case in text.split("\ncase ").skip(1) {
        let (times, is_right) = comes_out_each(alloc, front, case);
        count = count.saturating_add(times);
        if !is_right {
            return (count, false);
        }
    }
    (count, true)
}

/// Each text with the lines before each of its cases, and how many cases it has.
#[test]
fn cases_come_out(rt: HostRuntime) {
    for (name, front, text, count) in [
        ("kiosks", "", kiosks::lines(), 10),
        ("cars", "", cars::lines(), 4),
        ("drives", "looks 2\nreads 0\nlines 9", drives::trips(), 10),
        ("reads", "", faults::reads(), 65),
        ("writes", "", faults::writes(), 102),
        ("limits", "looks 2", faults::limits(), 14),
        ("endless", "endless", faults::endless(), 5),
        ("long", "", faults::long(), 2),
    ] {
        let (right, are_all) = successes(rt.alloc(), front, text);
        assert!(rt; are_all && right == count, "{name}: {right}");
    }
}
