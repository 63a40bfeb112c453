//! A connection's writer that wakes another session after each write.

ghost use Rattle.std.specs.Prelude.{◌≡◌};

use crate::pace::Pace;
use std::io;
use std::io::Write;

/// A writer. After each call another session is woken whose answer is stored, if one is left: it
/// runs as this one comes to its next line.
#[derive(Drop)]
pub(crate) struct WakingWriter<'s, W: Write + Drop> {
    writer: W,
    pace: &'s Pace<'s>,
}

impl<'s, W: Write + Drop> WakingWriter<'s, W> {
    /// Over a connection's own writer.
    pub(crate) fn new(writer: W, pace: &'s Pace<'s>) -> Self
        ensures { result.writer ≡ writer }
    {
        WakingWriter { writer, pace }
    }
}

impl<'s, W: Write + Drop> Write for WakingWriter<'s, W> {
    ghost contents = { λ w. W.contents w.writer };

    fn write(&mut self, buf: &[u8]) -> io::Result<usize> {
        let outcome = self.writer.write(buf);
        self.pace.wake_one();
        outcome
    }

    fn flush(&mut self) -> io::Result<()> {
        self.writer.flush()
    }
}
