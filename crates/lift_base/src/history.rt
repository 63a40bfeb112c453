//! Entries, open calls, and the records that keep them.
ghost use Rattle.std.specs.Prelude.{◌≡◌, ◌≤◌, ◌∷◌, [], ◌↔◌, IsTrue, false, length, take};
ghost use Rattle.std.specs.List.{flat_map};
ghost use Rattle.std.specs.Option.{option_to_list};
ghost use Rattle.lift_base.specs.declared.history.Content.{Content as ContentValue};
ghost use Rattle.lift_base.specs.declared.history.Entry.{Entry as EntryValue};
ghost use Rattle.lift_base.specs.History.{dir_of, row_after, IsWithinLimits};
ghost use Rattle.lift_base.specs.History.{terminal_of, number_of, content_of};

use crate::checked::{Floor, Letter, Number, Party, Terminal};
use crate::limits::{LEAST_HALF, MOST_CARS, MOST_FLOORS, MOST_KIOSKS};
use crate::travel::{Dir, Stop};
use arrayvec::ArrayVec;

/// A command that was accepted and is kept: a call allotted to a car, or a stop of a car.
#[derive(Clone, Copy, PartialEq, Eq)]
pub enum Entry {
    /// A kiosk's call, and the car that takes it.
    Allot {
        kiosk: Terminal,
        number: Number,
        from: Floor,
        to: Floor,
        car: Letter,
        party: Party,
    },
    /// A stop of a car.
    Stop {
        car: Letter,
        number: Number,
        floor: Floor,
        dir: Dir,
    },
}

impl Entry {
    /// The terminal whose command this is: the kiosk of a call, the car of a stop.
    pub fn terminal(&self) -> Terminal
        ensures { result ≡ terminal_of self.now }
    {
        match *self {
            Entry::Allot { kiosk, .. } => kiosk,
            Entry::Stop { car, .. } => Terminal::of_car(car),
        }
    }

    /// This command as the last one of its terminal.
    pub fn kept(&self) -> Last
        ensures number { result.number ≡ number_of self.now }
        ensures content { result.content ≡ content_of self.now }
    {
        match *self {
            Entry::Allot {
                number,
                from,
                to,
                car,
                party,
                ..
            } => Last {
                number,
                content: Content::Letter {
                    from,
                    to,
                    car,
                    party,
                },
            },
            Entry::Stop {
                number,
                floor,
                dir,
                ..
            } => Last {
                number,
                content: Content::Stopped { floor, dir },
            },
        }
    }
}

/// The blank of a list with fixed room.
impl Default for Entry {
    fn default() -> Self {
        Entry::Stop {
            car: Letter::default(),
            number: Number::default(),
            floor: Floor::default(),
            dir: Dir::default(),
        }
    }
}

/// An open call: it was allotted to a car, and its passengers wait or are aboard.
#[derive(Clone, Copy, Default, PartialEq, Eq)]
pub struct Row {
    /// Where it was asked.
    pub kiosk: Terminal,
    /// Its number at that kiosk, from 1.
    pub number: Number,
    /// The floor where its passengers wait.
    pub from: Floor,
    /// The floor that they go to.
    pub to: Floor,
    /// The car whose letter they were given.
    pub car: Letter,
    /// How many they are.
    pub party: Party,
    /// Whether they ride; else they wait.
    pub aboard: bool,
}

impl Row {
    /// The direction of the call.
    pub fn dir(&self) -> Dir
        ensures { result ≡ dir_of self.now.from self.now.to }
    {
        if self.to > self.from {
            Dir::Up
        } else {
            Dir::Down
        }
    }

    /// The entry that allots this call.
    pub fn allotment(&self) -> Entry
        ensures { result ≡ EntryValue.Allot self.now.kiosk self.now.number self.now.from self.now.to
            self.now.car self.now.party }
    {
        Entry::Allot {
            kiosk: self.kiosk,
            number: self.number,
            from: self.from,
            to: self.to,
            car: self.car,
            party: self.party,
        }
    }

    /// This call as the last command of its kiosk.
    pub fn kept(&self) -> Last
        ensures { result ≡ record {
          number = self.now.number;
          content = ContentValue.Letter self.now.from self.now.to self.now.car self.now.party;
        } }
    {
        Last {
            number: self.number,
            content: Content::Letter {
                from: self.from,
                to: self.to,
                car: self.car,
                party: self.party,
            },
        }
    }

    /// The call after a stop of its car, none once its passengers have left. Those aboard for the
    /// stop's floor leave, whatever its direction is; those who wait there board where their
    /// direction is the stop's.
    pub fn after(&self, stop: Stop) -> Option<Row>
        ensures { option_to_list result ≡ row_after stop self.now }
    {
        if self.aboard {
            if stop.floor == self.to {
                None
            } else {
                Some(*self)
            }
        } else {
            let aboard = stop.floor == self.from && stop.dir == self.dir();
            Some(Row { aboard, ..*self })
        }
    }

    /// Whether a stop of its car changes the call.
    fn is_changed_by(&self, stop: &Stop) -> bool
        ensures { result ≡ false → row_after stop.now self.now ≡ self.now ∷ [] }
    {
        if self.aboard {
            stop.floor == self.to
        } else {
            stop.floor == self.from && stop.dir == self.dir()
        }
    }
}

/// How many of a car's calls stand before the first one that a stop of the car changes.
fn count_unchanged(rows: &[Row], stop: &Stop) -> usize
    ensures rows { flat_map (row_after stop.now) (take result rows.now) ≡ take result rows.now }
    ensures limit { result ≤ length rows.now }
{
    for (index, row) in rows.iter().enumerate() {
        if row.is_changed_by(stop) {
            return index;
        }
    }
    rows.len()
}

/// Takes a stop into the calls of a car that is there: those that are open still stay in their
/// order. Where the answer is no, it changes none; where it is yes, only those that change are
/// written.
pub fn serve_rows<const MOST: usize>(rows: &mut ArrayVec<Row, MOST>, stop: &Stop) -> bool
    ensures rows { rows.new.items ≡ flat_map (row_after stop.now) rows.old.items }
    ensures fewer { length rows.new.items ≤ length rows.old.items }
    ensures unchanged { result ≡ false → rows.new.items ≡ rows.old.items }
{
    let mut index = count_unchanged(rows, stop);
    if index == rows.len() {
        return false;
    }
    while index < rows.len() {
        match rows[index].after(*stop) {
            Some(row) => {
                rows[index] = row;
                index += 1;
            }
            None => {
                let _gone = rows.remove(index);
            }
        }
        index += count_unchanged(&rows[index..], stop);
    }
    true
}

/// What a terminal's last accepted command said, with the letter that a call was answered.
#[derive(Clone, Copy, PartialEq, Eq)]
pub enum Content {
    /// A kiosk's last call, and the car that it was answered.
    Letter {
        from: Floor,
        to: Floor,
        car: Letter,
        party: Party,
    },
    /// A car's last stop.
    Stopped {
        floor: Floor,
        dir: Dir,
    },
}

/// The blank of a list with fixed room.
impl Default for Content {
    fn default() -> Self {
        Content::Stopped {
            floor: Floor::default(),
            dir: Dir::default(),
        }
    }
}

/// The last accepted command of a terminal.
#[derive(Clone, Copy, Default, PartialEq, Eq)]
pub struct Last {
    /// Its number, from 1.
    pub number: Number,
    /// What it said, and for a call also what was answered.
    pub content: Content,
}

/// One record of the journal: an entry, or a part of a checkpoint.
#[derive(Clone, Copy, PartialEq, Eq)]
pub enum Record {
    /// A command that was accepted: a call that was allotted, or a stop of a car.
    Entry(Entry),
    /// An open call of a checkpoint.
    Row(Row),
    /// The last command of a terminal at a checkpoint.
    Last { terminal: Terminal, last: Last },
    /// How many calls were done at a checkpoint, which this ends.
    Done { count: u32 },
}

/// The blank of a list with fixed room.
impl Default for Record {
    fn default() -> Self {
        Record::Done { count: 0 }
    }
}

/// The size of an installation: how many floors, cars and kiosks, and how many sectors in half of
/// its disk.
#[derive(Clone, Copy, Default, PartialEq, Eq)]
pub struct Shape {
    /// 2 to 64.
    pub floors: u8,
    /// 1 to 16.
    pub cars: u8,
    /// 1 to 47.
    pub kiosks: u8,
    /// Sectors in a half, 64 to 1,000,000.
    pub half: u32,
}

impl Shape {
    /// Whether the controller is made for these sizes.
    pub fn is_within_limits(&self) -> bool
        ensures { IsTrue result ↔ IsWithinLimits self.now }
    {
        2 <= self.floors
            && self.floors <= MOST_FLOORS as u8
            && 1 <= self.cars
            && self.cars <= MOST_CARS as u8
            && 1 <= self.kiosks
            && self.kiosks <= MOST_KIOSKS as u8
            && LEAST_HALF <= self.half
            && self.half <= 1_000_000
    }
}
