//! How answers are written.
use lift_base::{Content, Dir, Floor, Halt, Last, Party, Record, Row, Stop, Terminal};
use std::alloc::Global;
use std::fmt::{Display, Write};

/// What a line comes to, word by word. Where memory is refused for one, there is no text at the end.
#[derive(Drop)]
pub(crate) struct Came {
    text: String,
    is_whole: bool,
}

impl Came {
    pub(crate) fn new(alloc: Global) -> Self {
        Came {
            text: String::new(alloc),
            is_whole: true,
        }
    }

    /// One word more.
    pub(crate) fn word<T: Display + Drop>(&mut self, word: T) {
        if write!(self.text, " {word}").is_err() {
            self.is_whole = false;
        }
    }

    /// A line more, which begins with this word.
    pub(crate) fn line(&mut self, word: &str) {
        self.joined('\n');
        self.joined(word);
    }

    /// The word before goes on with this.
    pub(crate) fn joined<T: Display + Drop>(&mut self, part: T) {
        if write!(self.text, "{part}").is_err() {
            self.is_whole = false;
        }
    }

    /// Memory was refused for what had to come.
    pub(crate) fn cut_off(&mut self) {
        self.is_whole = false;
    }

    pub(crate) fn text(&self) -> Option<&str> {
        if self.is_whole {
            Some(self.text.trim())
        } else {
            None
        }
    }

    pub(crate) fn yes_or_no(&mut self, is_so: bool) {
        self.word(if is_so { "yes" } else { "no" });
    }

    /// What came two ways has to be the same.
    pub(crate) fn both_ways(&mut self, are_same: bool) {
        if !are_same {
            self.word("two ways differ");
        }
    }

    /// A floor and a direction, as `0 up`.
    pub(crate) fn place(&mut self, floor: Floor, dir: Dir) {
        self.word(floor.get());
        self.word(dir);
    }

    /// The same of a stop, and `none`.
    pub(crate) fn stop(&mut self, stop: Option<Stop>) {
        match stop {
            Some(stop) => self.place(stop.floor, stop.dir),
            None => self.word("none"),
        }
    }

    /// Passes and floors, as `1:0 1:5`, and `none`.
    pub(crate) fn halts(&mut self, halts: &[Halt]) {
        for halt in halts {
            self.word(halt.pass.number());
            self.joined(':');
            self.joined(halt.floor.get());
        }
        if halts.is_empty() {
            self.word("none");
        }
    }

    /// `x2` for two persons, and nothing for one.
    fn party(&mut self, party: Party) {
        let persons = party.get();
        if persons != 1 {
            self.word('x');
            self.joined(persons);
        }
    }

    /// An open call, as `K0 1 0 5 A waiting x2`: its kiosk, number, floors, car and status, and its
    /// party.
    pub(crate) fn row(&mut self, row: &Row) {
        self.word(row.kiosk);
        self.word(row.number.get());
        self.word(row.from.get());
        self.word(row.to.get());
        self.word(row.car);
        self.word(if row.aboard { "aboard" } else { "waiting" });
        self.party(row.party);
    }

    /// A terminal's last command, as `last A 1 0 up` or `last K0 1 0 5 A x2`.
    pub(crate) fn last(&mut self, terminal: Terminal, last: &Last) {
        self.word("last");
        self.word(terminal);
        self.word(last.number.get());
        match last.content {
            Content::Stopped { floor, dir } => self.place(floor, dir),
            Content::Letter {
                from,
                to,
                car,
                party,
            } => {
                self.word(from.get());
                self.word(to.get());
                self.word(car);
                self.party(party);
            }
        }
    }

    /// A checkpoint's record as the words that name it.
    pub(crate) fn record(&mut self, record: &Record) {
        match record {
            Record::Entry(_) => self.word("entry"),
            Record::Row(row) => {
                self.word("row");
                self.row(row);
            }
            Record::Last { terminal, last } => self.last(*terminal, last),
            Record::Done { count } => {
                self.word("done");
                self.word(*count);
            }
        }
    }
}
