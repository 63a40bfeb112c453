//! What is written for words that ask for nothing.

ghost use Rattle.std.specs.Prelude.{map};
ghost use Rattle.lift_program.specs.Ends.{IsAnswered};
ghost use Rattle.lift_program.specs.Output.{IsFlushed, SaysText, WriterHasFailed};

use crate::grammar::HELP;
use crate::output::{Outflow, write_out};
use crate::words::asks_for_help;
use std::convert::AsStr;

/// Writes a text, and has the output pass it on. Where it can't be written, nothing says so.
fn write_text<W: Outflow>(writer: &mut W, text: &str)
    ensures { SaysText text.now (IsFlushed W.gives W.flushes writer.old writer.new)
        (WriterHasFailed W.gives W.flushes writer.old writer.new)
        (W.contents writer.old) (W.contents writer.new) }
{
    match write_out(writer, text.as_bytes()) {
        Ok(()) => {}
        Err(_) => {}
    }
}

/// Writes how the program is called, where the words ask for that. The status is that of other words
/// all the same.
pub fn answer<S: AsStr, W: Outflow>(words: &[S], writer: &mut W)
    ensures { IsAnswered (map S.text words.now)
        (IsFlushed W.gives W.flushes writer.old writer.new)
        (WriterHasFailed W.gives W.flushes writer.old writer.new)
        (W.contents writer.old) (W.contents writer.new) }
{
    if asks_for_help(words) {
        write_text(writer, HELP);
    }
}
