//! The register.
ghost use Rattle.std.specs.Prelude.{ℕ, ◌≡◌, ◌↔◌, ◌+◌, ◌<◌, ◌≤◌, IsTrue, IfSome, List, [], ◌∷◌};
ghost use Rattle.std.specs.Prelude.{◌++◌, All, Some, false, length, slice_get};
ghost use Rattle.std.specs.List.{flat_map};
ghost use Rattle.std.specs.Option.{option_to_list};
ghost use Rattle.lift_base.specs.Records.{IsRecord};
ghost use Rattle.lift_base.specs.declared.history.Entry.{Entry as EntryValue};
ghost use Rattle.lift_base.specs.declared.history.Record.{Record as RecordValue};
ghost use Rattle.lift_base.specs.declared.history.Row.{Row as RowValue};
ghost use Rattle.lift_building.specs.Plan.{Plan};

use crate::rows::{push_row, same_lasts, same_rows, serve_car};
use crate::rules::{is_possible_call, is_possible_stop, last_fits, note_ranges, persons};
use arrayvec::ArrayVec;
use lift_base::{
    Content, Entry, FIRST_KIOSK, Last, Letter, MOST_CARS, MOST_DONE, MOST_KIOSKS, MOST_OPEN,
    MOST_PLACES, MOST_RECORDS, MOST_ROWS, MOST_TERMINALS, Party, Record, Row, Shape, Stop,
    Terminal,
};
use lift_building::Building;
use std::marker::Model;

/// The open calls of each car, each terminal's last accepted command, and the count of done calls.
#[derive(Drop)]
pub struct Register {
    rows: [ArrayVec<Row, MOST_ROWS>; MOST_CARS],
    lasts: [Option<Last>; MOST_TERMINALS],
    done: u32,
}

impl Model for Register {
    ghost use Rattle.std.specs.Prelude.{map};
    ghost use Rattle.lift_register.specs.Register.{RegisterState};
    ghost use Rattle.lift_register.specs.WellFormed.{IsWellFormed};

    ghost Value = { RegisterState };

    ghost view = { λ r. record {
      rows = map (λ rows. rows.items) r.rows;
      lasts = r.lasts;
      done = r.done;
    } };

    ghost invariant = { λ r.
        IsWellFormed (record {
          rows = map (λ rows. rows.items) r.rows;
          lasts = r.lasts;
          done = r.done;
        }) };
}

impl Register {
    ghost use Rattle.lift_register.specs.Register.{RegisterState, rows_of, last_of, last_number};
    ghost use Rattle.lift_register.specs.Register.{register_of, empty, cars, terminals};
    ghost use Rattle.lift_register.specs.Fits.{Fits, HasPlace};
    ghost use Rattle.lift_register.specs.Balanced.{open_count, numbered_calls, IsBalanced};
    ghost use Rattle.lift_register.specs.Base.{BaseFits, BaseFitFrom, with_record, with_records};
    ghost use Rattle.lift_register.specs.Base.{base_records, last_records};
    ghost use Rattle.lift_register.specs.Steps.{with_call, with_stop};
    ghost use Rattle.lift_register.specs.WellFormed.{IsWellFormed};
    ghost use Rattle.lift_register.specs.Belongs.{BelongsTo};

    /// A register without calls and commands, the same for an installation of any shape.
    pub fn empty(_shape: Shape) -> Self
        ensures value { result ≡ empty }
        ensures lawful { IsWellFormed result }
        ensures balanced { IsBalanced result }
        ensures belongs { (plan : Plan) → BelongsTo plan result }
    {
        Register {
            rows: Default::default(),
            lasts: [None; MOST_TERMINALS],
            done: 0,
        }
    }

    /// The open calls of a car, in order of allotment.
    pub fn open_rows(&self, car: Letter) -> &[Row]
        ensures value { result.now ≡ rows_of self.now car }
        ensures lawful { IsWellFormed self.now }
        ensures limit { length result.now ≤ MOST_ROWS }
        ensures own { All (λ (row : RowValue). row.car ≡ car) result.now }
        // Each of them can be written: its parts are in their ranges, and its passengers leave at
        // another floor.
        ensures records { All (λ (row : RowValue). IsRecord (RecordValue.Row row)) result.now }
    {
        let rows = &self.rows[car.get() as usize];
        rows.as_slice()
    }

    /// The last accepted command of a terminal.
    pub fn last(&self, terminal: Terminal) -> Option<Last>
        ensures value { result ≡ last_of self.now terminal }
        ensures lawful { IsWellFormed self.now }
        ensures written { IfSome result (λ last. IsRecord (RecordValue.Last terminal last)) }
    {
        self.lasts[terminal.get() as usize]
    }

    /// How many calls are done.
    pub fn done(&self) -> u32
        ensures value { result ≡ self.now.done }
        ensures lawful { IsWellFormed self.now }
        ensures limit { result ≤ MOST_DONE }
    {
        self.done
    }

    /// Tells the proof what is true of every register.
    fn note_lawful(&self)
        ensures { IsWellFormed self.now }
    {
        let _ = &self.done;
    }

    /// Whether both hold the same calls, last commands and count.
    pub fn is_same(&self, other: &Register) -> bool
        ensures { IsTrue result ↔ (self.now ≡ other.now) }
    {
        self.done == other.done
            && same_rows(&self.rows, &other.rows)
            && same_lasts(&self.lasts, &other.lasts)
    }

    /// The number of a terminal's last accepted command, 0 for none.
    pub fn last_number(&self, terminal: Terminal) -> u32
        ensures number { result ≡ last_number self.now terminal }
        ensures limit { result < 16777216 }
    {
        match self.last(terminal) {
            Some(last) => last.number.get(),
            None => 0,
        }
    }

    /// Whether the car has places for a party beside its open calls.
    fn has_place(&self, building: &Building, car: Letter, party: Party) -> bool
        ensures { IsTrue result ↔ HasPlace building.now self.now car party }
    {
        persons(self.open_rows(car)) + u32::from(party.get()) <= u32::from(building.places(car))
    }

    /// Whether an entry can be taken now.
    pub fn fits(&self, building: &Building, entry: &Entry) -> bool
        ensures exact { IsTrue result ↔ Fits building.now self.now entry.now }
        ensures lawful { IsWellFormed self.now }
        // What fits can be written.
        ensures written { Fits building.now self.now entry.now
            → IsRecord (RecordValue.Entry entry.now) }
    {
        self.note_lawful();
        note_ranges(&Record::Entry(*entry));
        let number = entry.kept().number.get();
        let is_next = number == self.last_number(entry.terminal()) + 1;
        match *entry {
            Entry::Allot {
                kiosk,
                from,
                to,
                car,
                party,
                ..
            } => {
                is_possible_call(building, kiosk, from, to, car)
                    && is_next
                    && self.has_place(building, car, party)
            }
            Entry::Stop { car, floor, .. } => is_possible_stop(building, car, floor) && is_next,
        }
    }

    /// Adds an open call.
    fn add_row(&mut self, row: &Row)
        requires written { IsRecord (RecordValue.Row row.now) }
        requires room { length (rows_of self.old row.now.car) < MOST_ROWS }
        ensures value { self.new ≡ with_record self.old (RecordValue.Row row.now) }
        ensures was { IsWellFormed self.old }
        ensures lawful { IsWellFormed self.new }
    {
        push_row(&mut self.rows, *row);
    }

    /// Keeps a terminal's last command.
    fn keep_last(&mut self, terminal: Terminal, last: &Last)
        requires written { IsRecord (RecordValue.Last terminal last.now) }
        ensures value { self.new ≡ with_record self.old (RecordValue.Last terminal last.now) }
        ensures was { IsWellFormed self.old }
        ensures lawful { IsWellFormed self.new }
    {
        let index = terminal.get() as usize;
        self.lasts[index] = Some(*last);
    }

    /// Lets the passengers of a stop leave and board, and counts the calls that it ends. Whether it
    /// changes a call.
    fn serve(&mut self, car: Letter, stop: &Stop) -> bool
        requires countable { self.old.done + length (rows_of self.old car) ≤ MOST_DONE }
        ensures value { self.new ≡ with_stop self.old car stop.now }
        ensures unchanged { result ≡ false → self.new.rows ≡ self.old.rows }
        ensures was { IsWellFormed self.old }
        ensures lawful { IsWellFormed self.new }
    {
        match serve_car(&mut self.rows, car, stop) {
            Some(ended) => {
                self.done += ended;
                true
            }
            None => false,
        }
    }

    /// Adds a new call, and keeps it as its kiosk's last command.
    fn allot(&mut self, row: &Row)
        requires written { IsRecord (RecordValue.Row row.now) }
        requires room { length (rows_of self.old row.now.car) < MOST_ROWS }
        ensures value { self.new ≡ with_call self.old row.now }
        ensures was { IsWellFormed self.old }
        ensures lawful { IsWellFormed self.new }
    {
        self.add_row(row);
        self.keep_last(row.kiosk, &row.kept());
    }

    /// Takes in an entry. Where the answer is no, it changes no open call, and adds none.
    pub fn apply(&mut self, building: &Building, entry: &Entry) -> bool
        requires fits { Fits building.now self.old entry.now }
        requires balanced { IsBalanced self.old }
        ensures one { self.new ≡ register_of self.old (entry.now ∷ []) }
        // So after every list of entries it is what the definition says of that list.
        ensures history { (base : RegisterState) (entries : List EntryValue)
            → self.old ≡ register_of base entries
            → self.new ≡ register_of base (entries ++ entry.now ∷ []) }
        ensures was { IsWellFormed self.old }
        ensures lawful { IsWellFormed self.new }
        ensures balanced { IsBalanced self.new }
        ensures belongs { BelongsTo building.now self.old → BelongsTo building.now self.new }
        // What fits can be written.
        ensures written { IsRecord (RecordValue.Entry entry.now) }
        ensures unchanged { result ≡ false → self.new.rows ≡ self.old.rows }
    {
        note_ranges(&Record::Entry(*entry));
        self.note_lawful();
        match *entry {
            Entry::Allot {
                kiosk,
                number,
                from,
                to,
                car,
                party,
            } => {
                prove!(building.places(car) <= MOST_PLACES);
                self.allot(&Row {
                    kiosk,
                    number,
                    from,
                    to,
                    car,
                    party,
                    aboard: false,
                });
                true
            }
            Entry::Stop {
                car,
                number,
                floor,
                dir,
            } => {
                let changes = self.serve(car, &Stop { floor, dir });
                let content = Content::Stopped { floor, dir };
                self.keep_last(Terminal::of_car(car), &Last { number, content });
                changes
            }
        }
    }

    /// How many calls are open.
    pub fn open_count(&self) -> u32
        ensures count { result ≡ open_count self.now }
        ensures limit { result ≤ MOST_OPEN }
        ensures lawful { IsWellFormed self.now }
    {
        let mut count = 0;
        for rows in &self.rows {
            count += rows.len() as u32;
        }
        count
    }

    /// How many calls a kiosk has numbered.
    fn numbered_by(&self, kiosk: u8) -> u32
        requires { kiosk < MOST_KIOSKS }
        ensures number { result ≡ last_number self.now (FIRST_KIOSK + kiosk) }
        ensures limit { result < 16777216 }
    {
        match Terminal::of_kiosk(kiosk) {
            Some(terminal) => self.last_number(terminal),
            None => unreachable!(),
        }
    }

    /// How many calls the kiosks have numbered.
    fn numbered_calls(&self) -> u32
        ensures { result ≡ numbered_calls self.now }
    {
        let mut count = 0;
        for kiosk in 0..MOST_KIOSKS as u8 {
            count += self.numbered_by(kiosk);
        }
        count
    }

    /// Whether a record of a checkpoint can be taken now.
    pub fn base_fits(&self, building: &Building, part: &Record) -> bool
        ensures exact { IsTrue result ↔ BaseFits building.now self.now part.now }
        ensures lawful { IsWellFormed self.now }
    {
        self.note_lawful();
        match part {
            Record::Row(row) => {
                is_possible_call(building, row.kiosk, row.from, row.to, row.car)
                    && row.number.get() >= 1
                    && self.has_place(building, row.car, row.party)
            }
            Record::Last { terminal, last } => { last_fits(building, *terminal, last) }
            Record::Done { count } => {
                *count <= MOST_DONE && *count + self.open_count() == self.numbered_calls()
            }
            Record::Entry(_) => false,
        }
    }

    /// Takes in a record of a checkpoint.
    pub fn apply_base(&mut self, building: &Building, part: &Record)
        requires fits { BaseFits building.now self.old part.now }
        ensures value { self.new ≡ with_record self.old part.now }
        ensures lawful { IsWellFormed self.new }
        ensures belongs { BelongsTo building.now self.old → BelongsTo building.now self.new }
        // The record that ends a checkpoint tells that no call was lost.
        ensures balanced { (count : ℕ) → part.now ≡ RecordValue.Done count
            → IsBalanced self.new }
    {
        note_ranges(part);
        self.note_lawful();
        match part {
            Record::Row(row) => {
                prove!(building.places(row.car) <= MOST_PLACES);
                self.add_row(row);
            }
            Record::Last { terminal, last } => self.keep_last(*terminal, last),
            Record::Done { count } => {
                self.done = *count;
            }
            Record::Entry(_) => unreachable!(),
        }
    }

    /// How many terminals have a last command.
    fn last_count(&self) -> usize
        ensures count { result ≡ length (flat_map (last_records self.now) terminals) }
        ensures limit { result ≤ MOST_TERMINALS }
    {
        let mut count = 0;
        for terminal in 0..MOST_TERMINALS {
            count += usize::from(self.lasts[terminal].is_some());
        }
        count
    }

    /// How many records a checkpoint of this register has, 1 to 576.
    pub fn base_len(&self) -> usize
        ensures value { result ≡ length (base_records self.now) }
        ensures limit { (1 ≤ result) × (result ≤ MOST_RECORDS) }
        ensures lawful { IsWellFormed self.now }
        // Each record can be written; taken in from nothing, they give this register; and each fits
        // where it comes.
        ensures records { All IsRecord (base_records self.now) }
        ensures spelled { with_records empty (base_records self.now) ≡ self.now }
        ensures fitting { (plan : Plan) → BelongsTo plan self.now → IsBalanced self.now
            → BaseFitFrom plan empty (base_records self.now) }
    {
        self.open_count() as usize + self.last_count() + 1
    }

    /// The open call at a place, over all cars in order.
    fn open_row(&self, place: usize) -> Option<Row>
        ensures { result ≡ slice_get (flat_map (rows_of self.now) cars) place }
    {
        let mut left = place;
        for rows in &self.rows {
            if left < rows.len() {
                return Some(rows[left]);
            }
            left -= rows.len();
        }
        None
    }

    /// The record of a terminal's last command.
    fn last_record_of(&self, index: u8) -> Option<Record>
        requires { index < MOST_TERMINALS }
        ensures { option_to_list result ≡ last_records self.now index }
    {
        let terminal = Terminal::new(index)?;
        let last = self.last(terminal)?;
        Some(Record::Last { terminal, last })
    }

    /// The record of a last command at a place, over all terminals in order.
    fn last_record(&self, place: usize) -> Option<Record>
        ensures { result ≡ slice_get (flat_map (last_records self.now) terminals) place }
    {
        let mut left = place;
        for index in 0..MOST_TERMINALS {
            if self.lasts[index].is_some() {
                if left == 0 {
                    return self.last_record_of(index as u8);
                }
                left -= 1;
            }
        }
        None
    }

    /// The record at a place of a checkpoint of this register, counted from 0: the open calls by
    /// rising car, then the last commands by rising terminal, then the count of done calls.
    pub fn base_record(&self, place: usize) -> Record
        requires inside { place < length (base_records self.now) }
        ensures value { slice_get (base_records self.now) place ≡ Some result }
        ensures lawful { IsRecord result }
    {
        self.note_lawful();
        match self.open_row(place) {
            Some(row) => Record::Row(row),
            None => match self.last_record(place - self.open_count() as usize) {
                Some(record) => record,
                None => Record::Done { count: self.done() },
            },
        }
    }
}
