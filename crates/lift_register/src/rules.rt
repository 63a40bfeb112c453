//! What a building allows.
ghost use Rattle.std.specs.Prelude.{◌≡◌, ◌↔◌, ◌<◌, ◌≤◌, ◌+◌, IsTrue, length};
ghost use Rattle.lift_register.specs.Fits.{IsPossibleCall, IsPossibleStop, IsPossibleLast};
ghost use Rattle.lift_register.specs.Fits.{persons_of};
ghost use Rattle.lift_base.specs.Records.{IsTypedCommand, IsTypedCall, IsTypedContent, IsTyped};
ghost use Rattle.lift_base.specs.Records.{IsLawfulLast};
ghost use Rattle.lift_base.specs.declared.history.Record.{Record as RecordValue};

use lift_base::{
    Content, Entry, Floor, LAST_CAR, LAST_TERMINAL, Last, Letter, MOST_ROWS, Number, Party, Record,
    Row, TOP_FLOOR, Terminal,
};
use lift_building::Building;

fn has_car(building: &Building, car: Letter) -> bool
    ensures { IsTrue result ↔ (car < length building.now.cars) }
{
    car.get() < building.cars()
}

/// Whether a car of the building may stop at a floor.
pub fn is_possible_stop(building: &Building, car: Letter, floor: Floor) -> bool
    ensures { IsTrue result ↔ IsPossibleStop building.now car floor }
{
    has_car(building, car) && building.serves(car, floor)
}

/// Whether a kiosk of the building may send passengers from its floor to another one by a car.
pub fn is_possible_call(
    building: &Building,
    kiosk: Terminal,
    from: Floor,
    to: Floor,
    car: Letter,
) -> bool
    ensures { IsTrue result ↔ IsPossibleCall building.now kiosk from to car }
{
    match kiosk.kiosk() {
        Some(kiosk) => {
            kiosk < building.kiosks()
                && from == building.kiosk_floor(kiosk)
                && from != to
                && has_car(building, car)
                && building.serves(car, from)
                && building.serves(car, to)
        }
        None => false,
    }
}

/// Whether a terminal of the building may have asked this last, with a number from 1 on.
pub fn last_fits(building: &Building, terminal: Terminal, last: &Last) -> bool
    ensures { IsTrue result
        ↔ (IsLawfulLast terminal last.now.number last.now.content
        × IsPossibleLast building.now terminal last.now.content) }
{
    match &last.content {
        Content::Letter { from, to, car, .. } => {
            last.number.get() >= 1 && is_possible_call(building, terminal, *from, *to, *car)
        }
        Content::Stopped { floor, .. } => match terminal.car() {
            Some(car) => last.number.get() >= 1 && is_possible_stop(building, car, *floor),
            None => false,
        },
    }
}

fn note_command(terminal: Terminal, number: Number)
    ensures { IsTypedCommand terminal number }
{
    prove!(terminal.get() <= LAST_TERMINAL && number.get() <= 16_777_215);
}

fn note_call(from: Floor, to: Floor, car: Letter, party: Party)
    ensures { IsTypedCall from to car party }
{
    prove!(from.get() <= TOP_FLOOR && to.get() <= TOP_FLOOR && car.get() <= LAST_CAR);
    prove!(party.get() >= 1 && party.get() <= 15);
}

fn note_content(content: &Content)
    ensures { IsTypedContent content.now }
{
    match content {
        Content::Letter {
            from,
            to,
            car,
            party,
        } => note_call(*from, *to, *car, *party),
        Content::Stopped { floor, .. } => prove!(floor.get() <= TOP_FLOOR),
    }
}

fn note_entry(entry: &Entry)
    ensures { IsTyped (RecordValue.Entry entry.now) }
{
    let last = entry.kept();
    note_command(entry.terminal(), last.number);
    note_content(&last.content);
    match entry {
        Entry::Allot { .. } => {}
        Entry::Stop { car, .. } => prove!(car.get() <= LAST_CAR),
    }
}

/// Tells the proof, and nobody else, that each part of a record is in its type's range.
pub fn note_ranges(record: &Record)
    ensures { IsTyped «record».now }
{
    match record {
        Record::Entry(entry) => note_entry(entry),
        Record::Row(row) => {
            note_command(row.kiosk, row.number);
            note_call(row.from, row.to, row.car, row.party);
        }
        Record::Last { terminal, last } => {
            note_command(*terminal, last.number);
            note_content(&last.content);
        }
        Record::Done { count } => prove!(*count <= u32::MAX),
    }
}

/// How many persons these calls are for.
pub fn persons(rows: &[Row]) -> u32
    requires { length rows.now ≤ MOST_ROWS }
    ensures count { result ≡ persons_of rows.now }
    ensures limit { result ≤ 480 }
{
    let mut count = 0;
    for row in rows {
        count += u32::from(row.party.get());
    }
    count
}
