//! The carrying out of a script.

ghost use Rattle.std.specs.Prelude.{◌≡◌, ◌≤◌, ◌+◌, true, IfErr, OnOk};
ghost use Rattle.lift_replay.specs.Reading.{IsInputRead, TakesUpTo, most_bytes};
ghost use Rattle.lift_program.specs.declared.fault.Role.TheVariants.{Input, Output};
ghost use Rattle.lift_replay.specs.Writing.{GoesInto, gone_in};
ghost use Rattle.lift_program.specs.Ends.{IsCalledFor, IsReplayFault, IsUncalled, IsUnread, ReportsAll};
ghost use Rattle.lift_program.specs.Ends.{ReportsAllThatCame};
ghost use Rattle.lift_program.specs.Output.{WriterHasFailed, IsFlushed};

use crate::fault::Fault;
use crate::output::Outflow;
use crate::refused::pass_on;
use lift_base::text::Counted;
use lift_replay::Verdict;
use std::alloc::Global;
use std::io::Read;

/// Carries out the script that the reader gives, and writes its report.
#[inline(never)]
pub fn replay<R: Read + Drop, W: Outflow>(
    alloc: Global,
    input: &mut Counted<R>,
    writer: &mut W,
) -> Result<Verdict, Fault>
    requires uncalled { IsUncalled input.old }
    ensures good { result ≡ Ok Verdict.Good → input.new.ended ≡ true }
    // What was written is the report of the reader's input, and the verdict is that of it; else it
    // is a prefix of it.
    ensures report { ReportsAll (R.remaining input.old.reader) (W.contents writer.old)
        (W.contents writer.new) result }
    // Of every reader and writer that is the report of the bytes which came, in those that were taken.
    ensures came { ReportsAllThatCame input.old.came input.new.came (gone_in W.sent writer.old)
        (gone_in W.sent writer.new) result }
    ensures goes { GoesInto W.sent W.contents writer.old writer.new }
    ensures called { IsCalledFor W.gives W.flushes writer.old writer.new result }
    ensures fault { IfErr result IsReplayFault }
    ensures unread { result ≡ Err (Fault.File Input) → IsUnread input.new }
    ensures unwritten { result ≡ Err (Fault.File Input)
        → W.contents writer.new ≡ W.contents writer.old }
    ensures read { result ≡ Err (Fault.File Output) → IsInputRead R.remaining input.old input.new }
    // Nothing is read after what the script took.
    ensures taken { TakesUpTo (most_bytes + 1) R.remaining input.old.reader input.new.reader }
    ensures few_calls { input.new.calls ≤ 2097152 }
    ensures flushed { OnOk result (IsFlushed W.gives W.flushes writer.old writer.new) }
    ensures failed { result ≡ Err (Fault.File Output)
        → WriterHasFailed W.gives W.flushes writer.old writer.new }
{
    let verdict = lift_replay::run(alloc, input, writer)?;
    match pass_on(writer) {
        Ok(()) => Ok(verdict),
        Err(fault) => Err(fault),
    }
}
