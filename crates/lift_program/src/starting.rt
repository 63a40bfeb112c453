//! From the program's words to its end.

ghost use Rattle.std.specs.Prelude.{[], map};
ghost use Rattle.lift_program.specs.Ends.{IsEndOf, IsInputLeft, IsOutputOf, IsScriptEnd};
ghost use Rattle.lift_program.specs.Ends.{KeepsIfServed, TellsLine, line_of, uncalled};
ghost use Rattle.lift_program.specs.Output.{IsFlushed, WriterHasFailed};

use crate::end::{End, EndBy};
use crate::invocation::Invocation;
use crate::leftover::Leftover;
use crate::opening::{FilesView, Listens, Openers, TextOpener};
use crate::output::Outflow;
use crate::serve::serve;
use lift_base::text::{Counted, Watched};
use lift_disk::FileOpener;
use std::alloc::Global;
use std::convert::AsStr;
use std::io::{Read, Write};
use std::sync::Wait;
use std::thread::Threads;
use std::time::Clock;

/// Does what the words after the program's name ask for, and answers how that ended, whose `status` is the
/// program's: 0 where all was done, 1 for a bad script or a fault, 2 for other words. A fault writes its line
/// to `errors`, which comes back, and so do other words; where that fails, only the status says so. The input
/// comes back as it was left. A request for help is answered by how the program is called. What opens the files
/// and the socket is used up: nothing is opened twice, and no file or socket but these. Only a serving waits,
/// once it has all that it takes: whatever it waits for, and whether or not it ever ends, nothing was opened
/// but what the words asked for, and nothing is read of the standard input. One that ends has kept every letter
/// over power cuts, if its file is an honest device.
#[inline(never)]
pub fn start<
    F: Threads + Wait + Clock + Sync,
    B: TextOpener,
    I: FileOpener,
    L: Listens,
    S: AsStr,
    R: Read + Drop,
    W: Outflow,
    E: Write + Drop,
>(
    rt: &F,
    invocation: Invocation<'_, B, I, L, S, R, E>,
    alloc: Global,
    writer: &mut W,
    errors: Watched<E>,
) -> (EndBy<I, I::Listed>, Watched<E>, Leftover<Counted<R>>)
    // It did what the words ask for, and nothing else.
    ensures end { IsEndOf (⟦<Openers<B, I, L> as FilesView>⟧.view invocation.entry.openers)
        (map S.text invocation.entry.words.now) (W.contents writer.old) (W.contents writer.new) result.0 }
    // A group that was served has kept every letter over power cuts, if its file is an honest device.
    ensures keeps { KeepsIfServed (⟦<Openers<B, I, L> as FilesView>⟧.view invocation.entry.openers)
        (map S.text invocation.entry.words.now) result.0 }
    // What was written is its report, passed on where all was done; one that failed over an image has
    // written nothing, or the output has failed.
    ensures output { IsOutputOf (IsFlushed W.gives W.flushes writer.old writer.new)
        (WriterHasFailed W.gives W.flushes writer.old writer.new) (R.remaining invocation.entry.reader)
        (map S.text invocation.entry.words.now) result.0 (W.contents writer.old) (W.contents writer.new) }
    // Of every reader and writer: what the output took of a script is the report of the bytes that came
    // of the input, or a prefix of it.
    ensures script { IsScriptEnd W.sent W.contents W.gives W.flushes [] result.2.came writer.old
        writer.new result.0 }
    // Only a script is read, as far as its end says.
    ensures input { IsInputLeft R.remaining result.0 (uncalled invocation.entry.reader) result.2 }
    // Its line was written, and nothing else.
    ensures line { TellsLine E.contents (line_of result.0) errors result.1 }
{
    let (input, outcome) = invocation.prepare(alloc, writer);
    let (end, mut errors) = match outcome {
        Ok(asked) => {
            let (outcome, errors) = serve(rt, asked, alloc, writer, errors);
            (End::Served(outcome), errors)
        }
        Err(end) => (end, errors),
    };
    end.tell(&mut errors);
    (end, errors, input)
}
