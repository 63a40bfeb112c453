//! Records and their bytes.
ghost use Rattle.std.specs.Prelude.{◌≡◌, ◌≢◌, ◌<◌, ◌≤◌, ◌↔◌, ℕ, false};
ghost use Rattle.std.specs.Prelude.{IsTrue, IsSome, IfSome, IfNone, Some};
ghost use Rattle.lift_base.specs.declared.history.Content.{Content as ContentValue};
ghost use Rattle.lift_base.specs.declared.history.Record.{Record as RecordValue};
ghost use Rattle.lift_base.specs.declared.history.Row.{Row as RowValue};
ghost use Rattle.lift_base.specs.declared.travel.Dir.{Dir as DirValue};
ghost use Rattle.lift_base.specs.Records.{IsLawfulCall, IsTypedCall, IsTypedContent, IsTyped};
ghost use Rattle.lift_base.specs.Records.{IsLawful, IsLawfulStop, IsTypedCommand, IsRecord};
ghost use Rattle.lift_record.specs.Version.{party_byte, IsSayableParty};
ghost use Rattle.lift_record.specs.Record.{record_bytes, dir_byte, status_byte};
ghost use Rattle.lift_record.specs.Record.{call_bytes as call_bytes_of};
ghost use Rattle.lift_record.specs.Record.{stop_bytes as stop_bytes_of};
ghost use Rattle.lift_record.specs.Record.{last_bytes as last_bytes_of, spelling_of, IsSpellingOf};
ghost use Rattle.lift_record.specs.declared.version.Version.TheVariants.{Two};

use crate::version::Version;
use lift_base::{
    Content, Dir, Entry, Floor, Last, Letter, MOST_DONE, Number, Party, Record, Row, TOP_FLOOR,
    Terminal,
};

/// Whether the journal may hold this call, which any car may have taken for any party.
fn is_lawful_call(
    kiosk: Terminal,
    number: Number,
    from: Floor,
    to: Floor,
    _car: Letter,
    _party: Party,
) -> bool
    ensures lawful { IsTrue result ↔ IsLawfulCall kiosk number from to }
    ensures typed { IsTypedCommand kiosk number × IsTypedCall from to _car _party }
{
    kiosk.is_kiosk() && number.get() >= 1 && from != to
}

/// Whether the journal may hold this stop, which may be at any floor.
fn is_lawful_stop(terminal: Terminal, number: Number, _floor: Floor) -> bool
    ensures lawful { IsTrue result ↔ IsLawfulStop terminal number }
    ensures typed { IsTypedCommand terminal number × (_floor ≤ TOP_FLOOR) }
{
    !terminal.is_kiosk() && number.get() >= 1
}

/// Whether the journal may hold this record.
pub fn is_lawful(value: &Record) -> bool
    ensures lawful { IsTrue result ↔ IsLawful value.now }
    ensures record { IsTrue result ↔ IsRecord value.now }
{
    match *value {
        Record::Entry(
            Entry::Allot {
                kiosk,
                number,
                from,
                to,
                car,
                party,
            },
        ) => is_lawful_call(kiosk, number, from, to, car, party),
        Record::Entry(
            Entry::Stop {
                car,
                number,
                floor,
                ..
            },
        ) => is_lawful_stop(Terminal::of_car(car), number, floor),
        Record::Row(row) => {
            is_lawful_call(row.kiosk, row.number, row.from, row.to, row.car, row.party)
        }
        Record::Last { terminal, ref last } => match last.content {
            Content::Letter {
                from,
                to,
                car,
                party,
            } => is_lawful_call(terminal, last.number, from, to, car, party),
            Content::Stopped { floor, .. } => is_lawful_stop(terminal, last.number, floor),
        },
        Record::Done { count } => count <= MOST_DONE,
    }
}

fn dir_to_byte(dir: Dir) -> u8
    ensures { result ≡ dir_byte dir }
{
    match dir {
        Dir::Up => 0,
        Dir::Down => 1,
    }
}

pub(crate) fn dir_from_byte(byte: u8) -> Option<Dir>
    ensures valid { IsSome result ↔ (byte < 2) }
    ensures value { IfSome result (λ dir. dir_byte dir ≡ byte) }
{
    match byte {
        0 => Some(Dir::Up),
        1 => Some(Dir::Down),
        _ => None,
    }
}

/// Whether this byte of a call says that its passengers are aboard.
fn aboard_from_byte(byte: u8) -> Option<bool>
    ensures valid { IsSome result ↔ (byte < 2) }
    ensures value { IfSome result (λ aboard. status_byte aboard ≡ byte) }
{
    match byte {
        0 => Some(false),
        1 => Some(true),
        _ => None,
    }
}

fn party_to_byte(version: Version, party: Party) -> u8
    ensures byte { result ≡ party_byte version party }
    ensures typed { (1 ≤ party) × (party ≤ 15) }
{
    let persons = party.get();
    match version {
        Version::One => 0,
        Version::Two => persons,
    }
}

/// The party that this byte spells; the first version spells one person by zero.
fn party_from_byte(version: Version, byte: u8) -> Option<Party>
    ensures some { IfSome result (λ party. (1 ≤ party) × (party ≤ 15)
        × IsSayableParty version party × (party_byte version party ≡ byte)) }
    ensures none { IfNone result ((party : ℕ) → 1 ≤ party → party ≤ 15
        → IsSayableParty version party → party_byte version party ≢ byte) }
{
    match version {
        Version::One if byte == 0 => Some(Party::default()),
        Version::One => None,
        Version::Two => Party::new(byte),
    }
}

/// A record's bytes: its kind, its terminal, what it says, and its number.
fn record_to_bytes(kind: u8, terminal: u8, content: [u8; 5], number: u32) -> [u8; 16]
    ensures { result ≡ record_bytes kind terminal content number }
{
    let [from, to, car, party, status] = content;
    let [a, b, c, d] = number.to_be_bytes();
    [
        kind, terminal, from, to, car, party, status, 0, a, b, c, d, 0, 0, 0, 0,
    ]
}

fn call_bytes(
    version: Version,
    from: Floor,
    to: Floor,
    car: Letter,
    party: Party,
    aboard: bool,
) -> [u8; 5]
    ensures bytes { result ≡ call_bytes_of version from to car party aboard }
    ensures typed { IsTypedCall from to car party }
{
    [
        from.get(),
        to.get(),
        car.get(),
        party_to_byte(version, party),
        u8::from(aboard),
    ]
}

fn stop_bytes(floor: Floor, dir: Dir) -> [u8; 5]
    ensures bytes { result ≡ stop_bytes_of floor dir }
    ensures typed { floor ≤ TOP_FLOOR }
{
    [floor.get(), dir_to_byte(dir), 0, 0, 0]
}

fn last_bytes(version: Version, content: &Content) -> [u8; 5]
    ensures bytes { result ≡ last_bytes_of version content.now }
    ensures typed { IsTypedContent content.now }
{
    match *content {
        Content::Letter {
            from,
            to,
            car,
            party,
        } => call_bytes(version, from, to, car, party, false),
        Content::Stopped { floor, dir } => stop_bytes(floor, dir),
    }
}

/// The sixteen bytes of an entry: its kind, and then as those of the last command that it is.
fn entry_bytes(version: Version, entry: &Entry) -> [u8; 16]
    ensures bytes { result ≡ spelling_of version (RecordValue.Entry entry.now) }
    ensures typed { IsTyped (RecordValue.Entry entry.now) }
{
    let last = entry.kept();
    let content = last_bytes(version, &last.content);
    let number = last.number.get();
    match *entry {
        Entry::Allot { kiosk, .. } => record_to_bytes(1, kiosk.get(), content, number),
        Entry::Stop { car, .. } => record_to_bytes(2, car.get(), content, number),
    }
}

/// The sixteen bytes of this record in this version, which may not be able to say it.
fn spell(version: Version, value: &Record) -> [u8; 16]
    ensures bytes { result ≡ spelling_of version value.now }
    ensures typed { IsTyped value.now }
{
    match *value {
        Record::Entry(ref entry) => entry_bytes(version, entry),
        Record::Row(row) => {
            let content = call_bytes(version, row.from, row.to, row.car, row.party, row.aboard);
            record_to_bytes(4, row.kiosk.get(), content, row.number.get())
        }
        Record::Last { terminal, ref last } => {
            let content = last_bytes(version, &last.content);
            record_to_bytes(5, terminal.get(), content, last.number.get())
        }
        Record::Done { count } => record_to_bytes(6, 0, [0; 5], count),
    }
}

/// The sixteen bytes that spell this record in the second version.
pub fn encode(value: &Record) -> [u8; 16]
    requires { IsLawful value.now }
    ensures bytes { result ≡ spelling_of Two value.now }
    ensures in_grammar { IsSpellingOf Two result value.now }
{
    spell(Version::Two, value)
}

/// The call that these parts of a record spell, if they spell one.
fn read_call(version: Version, kiosk: u8, content: [u8; 5], number: u32) -> Option<Row>
    ensures some { IfSome result
        (λ row. IsSpellingOf version (record_bytes 4 kiosk content number) (RecordValue.Row row)) }
    ensures none { IfNone result ((row : RowValue)
        → ¬ IsSpellingOf version (record_bytes 4 kiosk content number) (RecordValue.Row row)) }
{
    let [from, to, car, party, status] = content;
    let row = Row {
        kiosk: Terminal::new(kiosk)?,
        number: Number::new(number)?,
        from: Floor::new(from)?,
        to: Floor::new(to)?,
        car: Letter::new(car)?,
        party: party_from_byte(version, party)?,
        aboard: aboard_from_byte(status)?,
    };
    if is_lawful_call(row.kiosk, row.number, row.from, row.to, row.car, row.party) {
        Some(row)
    } else {
        None
    }
}

/// The same, if its passengers wait.
fn read_waiting(version: Version, kiosk: u8, content: [u8; 5], number: u32) -> Option<Row>
    ensures some { IfSome result (λ row. (row.aboard ≡ false)
        × IsSpellingOf version (record_bytes 4 kiosk content number) (RecordValue.Row row)) }
    ensures none { IfNone result ((row : RowValue) → row.aboard ≡ false
        → ¬ IsSpellingOf version (record_bytes 4 kiosk content number) (RecordValue.Row row)) }
{
    let row = read_call(version, kiosk, content, number)?;
    if row.aboard { None } else { Some(row) }
}

/// The number, floor and direction of the stop that these parts of a record spell, if they spell
/// one.
fn read_stop(content: [u8; 5], number: u32) -> Option<(Number, Floor, Dir)>
    ensures some { IfSome result (λ stop. (1 ≤ stop.0) × (stop.0 ≤ 16777215) × (stop.1 ≤ TOP_FLOOR)
        × (stop.0 ≡ number) × (content ≡ stop_bytes_of stop.1 stop.2)) }
    ensures none { IfNone result ((floor : ℕ) → (dir : DirValue) → 1 ≤ number
        → number ≤ 16777215 → floor ≤ TOP_FLOOR → content ≢ stop_bytes_of floor dir) }
{
    let [floor, dir, 0, 0, 0] = content else {
        return None;
    };
    if number == 0 {
        return None;
    }
    Some((
        Number::new(number)?,
        Floor::new(floor)?,
        dir_from_byte(dir)?,
    ))
}

/// A call as the last one of its kiosk.
fn last_call_of(row: &Row) -> Record
    ensures { result ≡ RecordValue.Last row.now.kiosk (record {
      number = row.now.number;
      content = ContentValue.Letter row.now.from row.now.to row.now.car row.now.party;
    }) }
{
    Record::Last {
        terminal: row.kiosk,
        last: row.kept(),
    }
}

/// The last command of a terminal that these parts of a record spell, if they spell one.
fn read_last(version: Version, terminal: Terminal, content: [u8; 5], number: u32) -> Option<Record>
    ensures some { IfSome result
        (λ value. IsSpellingOf version (record_bytes 5 terminal content number) value) }
    ensures none { IfNone result ((value : RecordValue)
        → ¬ IsSpellingOf version (record_bytes 5 terminal content number) value) }
{
    if terminal.is_kiosk() {
        let row = read_waiting(version, terminal.get(), content, number)?;
        return Some(last_call_of(&row));
    }
    let (number, floor, dir) = read_stop(content, number)?;
    let content = Content::Stopped { floor, dir };
    Some(Record::Last {
        terminal,
        last: Last { number, content },
    })
}

/// The count of done calls that these parts of a record spell, if they spell one.
fn read_done(version: Version, terminal: u8, content: [u8; 5], count: u32) -> Option<Record>
    ensures some { IfSome result
        (λ value. IsSpellingOf version (record_bytes 6 terminal content count) value) }
    ensures none { IfNone result ((value : RecordValue)
        → ¬ IsSpellingOf version (record_bytes 6 terminal content count) value) }
{
    let [0, 0, 0, 0, 0] = content else {
        return None;
    };
    if terminal == 0 && count <= MOST_DONE {
        Some(Record::Done { count })
    } else {
        None
    }
}

/// The record that these parts spell, if they spell one.
fn read(version: Version, kind: u8, terminal: u8, content: [u8; 5], number: u32) -> Option<Record>
    ensures some { IfSome result
        (λ value. IsSpellingOf version (record_bytes kind terminal content number) value) }
    ensures none { IfNone result ((value : RecordValue)
        → ¬ IsSpellingOf version (record_bytes kind terminal content number) value) }
{
    match kind {
        1 => {
            let row = read_waiting(version, terminal, content, number)?;
            Some(Record::Entry(row.allotment()))
        }
        2 => {
            let (number, floor, dir) = read_stop(content, number)?;
            Some(Record::Entry(Entry::Stop {
                car: Letter::new(terminal)?,
                number,
                floor,
                dir,
            }))
        }
        4 => Some(Record::Row(read_call(version, terminal, content, number)?)),
        5 => read_last(version, Terminal::new(terminal)?, content, number),
        6 => read_done(version, terminal, content, number),
        _ => None,
    }
}

/// The record that these bytes spell in this version, if they spell one. None exactly for bytes
/// outside its grammar.
pub fn decode(version: Version, bytes: &[u8; 16]) -> Option<Record>
    ensures { (content : Record)
        → (result ≡ Some content ↔ IsSpellingOf version bytes.now content) }
{
    let [
        kind,
        terminal,
        first,
        second,
        third,
        party,
        status,
        0,
        a,
        b,
        c,
        d,
        0,
        0,
        0,
        0,
    ] = *bytes
    else {
        return None;
    };
    let content = [first, second, third, party, status];
    let number = u32::from_be_bytes([a, b, c, d]);
    read(version, kind, terminal, content, number)
}
