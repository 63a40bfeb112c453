//! Readers that end, fail, never end or give a byte at a time.
use lift_base::text::Counted;
use lift_replay::{InputFault, read_all};
use std::io;
use std::io::Read;

/// A reader whose calls all fail.
#[derive(Drop)]
pub(crate) struct Failing {
    pub(crate) calls: u32,
}

impl Read for Failing {
    fn read(&mut self, _buf: &mut [u8]) -> io::Result<usize> {
        self.calls = self.calls.saturating_add(1);
        Err(io::Error::from(io::ErrorKind::TimedOut))
    }
}

/// A reader that never ends and gives one byte a call.
#[derive(Drop)]
struct Endless {
    calls: u32,
}

impl Read for Endless {
    fn read(&mut self, buf: &mut [u8]) -> io::Result<usize> {
        self.calls = self.calls.saturating_add(1);
        if buf.is_empty() {
            return Ok(0);
        }
        buf[0] = b'#';
        Ok(1)
    }
}

/// All bytes are read up to the limit, and one more byte tells that there are more.
#[test]
fn bytes_within_bounds(rt: HostRuntime) {
    for (bytes, most, wanted) in [
        (b"".as_slice(), 0, b"".as_slice()),
        (b"turn".as_slice(), 4, b"turn".as_slice()),
        (b"turns".as_slice(), 4, b"turns".as_slice()),
        (b"turn A".as_slice(), 4, b"turn ".as_slice()),
    ] {
        let mut input = Counted::new(bytes);
        let is_read = match read_all(rt.alloc(), &mut input, most, 10) {
            Ok(found) => found.as_slice() == wanted,
            Err(_) => false,
        };
        assert!(rt; is_read && !input.failed());
    }
}

/// A call that fails ends the reading.
#[test]
fn a_reader_that_fails(rt: HostRuntime) {
    let mut reader = Failing { calls: 0 };
    let mut input = Counted::new(&mut reader);
    let read = read_all(rt.alloc(), &mut input, 10, 10);
    assert!(rt; matches!(read, Err(InputFault::Read)) && input.failed());
    assert!(rt; reader.calls == 1);
}

/// A reader that never ends is left after this many calls, and once a byte more than wanted has
/// come.
#[test]
fn a_reader_that_does_not_end(rt: HostRuntime) {
    for (most, calls) in [(100, 10), (5, 6)] {
        let mut reader = Endless { calls: 0 };
        let mut input = Counted::new(&mut reader);
        let is_read = match read_all(rt.alloc(), &mut input, most, 10) {
            Ok(found) => most == 5 && found.len() == 6,
            Err(fault) => most == 100 && matches!(fault, InputFault::Read),
        };
        assert!(rt; is_read && !input.failed());
        assert!(rt; reader.calls == calls);
    }
}
