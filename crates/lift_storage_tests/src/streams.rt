//! A call of a reader or a writer of the library is one of the stream, whatever that came to.
use lift_base::text::{Counted, Outflow, Watched};
use std::cell::Cell;
use std::io;
use std::io::{ErrorKind, Read, Write};

/// Comes to this at each call, and keeps how many there were and how many bytes the last was for.
#[derive(Drop)]
struct Stream<'s> {
    answer: Result<usize, ErrorKind>,
    calls: &'s Cell<u32>,
    bytes: &'s Cell<usize>,
}

impl Stream<'_> {
    fn turn(&self, bytes: usize) -> io::Result<usize> {
        self.calls.set(self.calls.get().saturating_add(1));
        self.bytes.set(bytes);
        match self.answer {
            Ok(count) => Ok(count.min(bytes)),
            Err(fault) => Err(io::Error::from(fault)),
        }
    }
}

impl Read for Stream<'_> {
    fn read(&mut self, buf: &mut [u8]) -> io::Result<usize> {
        Ok(self.turn(buf.len())?.min(buf.len()))
    }
}

impl Write for Stream<'_> {
    fn write(&mut self, buf: &[u8]) -> io::Result<usize> {
        Ok(self.turn(buf.len())?.min(buf.len()))
    }

    fn flush(&mut self) -> io::Result<()> {
        self.turn(0)?;
        Ok(())
    }
}

/// What a call of a stream comes to: how many bytes it moves, or why it fails.
const ANSWERS: &[Result<usize, ErrorKind>] = &[
    Ok(0),
    Ok(1),
    Ok(5),
    Err(ErrorKind::TimedOut),
    Err(ErrorKind::Interrupted),
    Err(ErrorKind::WouldBlock),
];

/// Whether a read, a write and a flush are a call each, for all of the bytes, and come to this.
fn are_calls(answer: Result<usize, ErrorKind>) -> bool {
    let (calls, bytes) = (Cell::new(0), Cell::new(0));
    let (calls, bytes) = (&calls, &bytes);
    let mut reader = Counted::new(Stream {
        answer,
        calls,
        bytes,
    });
    let mut writer = Watched::new(Stream {
        answer,
        calls,
        bytes,
    });
    let is_read = (reader.read(&mut [0; 5]).ok() == answer.ok())
        & (reader.failed() == answer.is_err())
        & (calls.get() == 1)
        & (bytes.get() == 5);
    let is_written = (writer.take(b"a call") == answer.ok())
        & (writer.failed() == (answer.unwrap_or(0) == 0))
        & (calls.get() == 2)
        & (bytes.get() == 6);
    let is_flushed = (writer.flush_once().is_ok() == answer.is_ok()) & (calls.get() == 3);
    is_read & is_written & is_flushed
}

#[test]
fn streams_stop(rt: HostRuntime) {
    for answer in ANSWERS {
        assert!(rt; are_calls(*answer));
    }
}
