//! A connection's reader that gives nothing more after the last end.

ghost use Rattle.std.specs.Prelude.{◌≡◌};

use crate::prepared::terms::ServingTerms;
use std::io;
use std::io::{ErrorKind, Read};

/// A reader. Each call of it fails once no more are accepted, and the connection itself isn't read.
#[derive(Drop)]
pub(crate) struct OpenReader<'s, I: Read + Drop> {
    reader: I,
    bound: &'s ServingTerms,
}

impl<'s, I: Read + Drop> OpenReader<'s, I> {
    /// Over a connection's own reader.
    pub(crate) fn new(reader: I, bound: &'s ServingTerms) -> Self
        ensures { result.reader ≡ reader }
    {
        OpenReader { reader, bound }
    }
}

impl<'s, I: Read + Drop> Read for OpenReader<'s, I> {
    ghost remaining = { λ r. I.remaining r.reader };

    fn read(&mut self, buf: &mut [u8]) -> io::Result<usize> {
        if self.bound.is_over() {
            return Err(io::Error::from(ErrorKind::ConnectionAborted));
        }
        self.reader.read(buf)
    }
}
