//! Readers and writers that end, fail or never end.
use std::io;
use std::io::{Read, Write};

fn fault() -> io::Error {
    io::Error::from(io::ErrorKind::TimedOut)
}

/// Gives this text, a byte at each call, and fails at one call.
#[derive(Drop)]
pub(crate) struct Slow<'t> {
    /// This many letters C come before the text.
    pub filled: usize,
    pub text: &'t [u8],
    pub given: usize,
    /// Whether the text comes again and again.
    pub is_endless: bool,
    /// This many calls succeed before one fails.
    pub calls: u64,
}

impl Read for Slow<'_> {
    fn read(&mut self, buf: &mut [u8]) -> io::Result<usize> {
        if self.calls == 0 {
            return Err(fault());
        }
        self.calls -= 1;
        if self.filled > 0 && !buf.is_empty() {
            self.filled -= 1;
            buf[0] = b'C';
            return Ok(1);
        }
        if self.is_endless && self.given >= self.text.len() {
            self.given = 0;
        }
        match self.text.get(self.given) {
            Some(byte) if !buf.is_empty() => {
                buf[0] = *byte;
                self.given += 1;
                Ok(1)
            }
            _ => Ok(0),
        }
    }
}

/// Takes this many bytes, two at most in a call, and then fails or takes nothing.
#[derive(Drop)]
pub(crate) struct Narrow {
    pub taken: Vec<u8>,
    pub room: usize,
    pub fails: bool,
}

impl Write for Narrow {
    fn write(&mut self, buf: &[u8]) -> io::Result<usize> {
        let count = self.room.min(buf.len()).min(2);
        if count == 0 && self.fails {
            return Err(fault());
        }
        match self.taken.extend_from_slice(&buf[..count]) {
            Ok(()) => {
                self.room -= count;
                Ok(count)
            }
            Err(_) => Err(fault()),
        }
    }

    fn flush(&mut self) -> io::Result<()> {
        Ok(())
    }
}
