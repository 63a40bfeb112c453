//! Worked bytes of `lift_record`. Those of all kinds of records, and bytes that are none, are data, tried by
//! `tools/try/images`; no image there has a batch of so high a number.
use lift_base::{Dir, Entry, Floor, Letter, Number, Record};
use lift_record::{Version, decode, encode, encode_header, is_lawful};

/// Car A's first stop, at floor 7, going down.
fn stop() -> Record {
    Record::Entry(Entry::Stop {
        car: Letter::default(),
        number: Number::new(1).unwrap_or_default(),
        floor: Floor::new(7).unwrap_or_default(),
        dir: Dir::Down,
    })
}

#[test]
fn bytes_are_spelled(rt: HostRuntime) {
    let (record, bytes) = (stop(), &[2, 0, 7, 1, 0, 0, 0, 0, 0, 0, 0, 1, 0, 0, 0, 0]);
    assert!(rt; is_lawful(&record) && encode(&record) == *bytes);
    assert!(rt; decode(Version::Two, bytes) == Some(record));
    let header = [0x4C, 0x42, 2, 0, 0, 0x3F, 0, 0, 1, 2, 3, 4, 0, 0, 0, 0];
    assert!(rt; encode_header(63, 0x0102_0304) == header);
}
