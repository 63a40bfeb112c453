//! What is written to the standard output, and where no more can be done if it fails.

ghost use Rattle.std.specs.Prelude.{◌≡◌, ℕ, Err, OnOk, OnErr, IfErr, take};
ghost use Rattle.std.specs.Io.KnownBytes.{Appends};
ghost use Rattle.lift_program.specs.Ends.{IsFileFault};
ghost use Rattle.lift_program.specs.Output.{HasFailedOnce, IsAllPassedOn, IsFlushed};
ghost use Rattle.lift_program.specs.Output.{IsWrittenOrFailed, WasTaken, WriterHasFailed};
ghost use Rattle.lift_program.specs.declared.fault.Role.TheVariants.{Output};

use crate::fault::{Fault, Role};
use crate::refused::pass_on;
pub use lift_base::text::Outflow;
use lift_base::text::{Watched, put_all};
use std::io::Write;

/// Writes all of the bytes to the standard output, and has it pass them on.
pub fn write_out<W: Outflow>(writer: &mut W, bytes: &[u8]) -> Result<(), Fault>
    ensures written { OnOk result
        (Appends (W.contents writer.old) (W.contents writer.new) bytes.now) }
    ensures front { OnErr result ((n : ℕ)
        × Appends (W.contents writer.old) (W.contents writer.new) (take n bytes.now)) }
    ensures fault { IfErr result (IsFileFault Output) }
    ensures flushed { OnOk result (IsFlushed W.gives W.flushes writer.old writer.new) }
    // Memory is the fault only where no call failed but a flush.
    ensures out_of_memory { result ≡ Err (Fault.Memory tt)
        → WasTaken W.gives W.flushes writer.old writer.new }
    ensures failed { OnErr result (WriterHasFailed W.gives W.flushes writer.old writer.new) }
{
    if put_all(writer, bytes).is_err() {
        return Err(Fault::File(Role::Output));
    }
    match pass_on(writer) {
        Ok(()) => Ok(()),
        Err(fault) => Err(fault),
    }
}

/// Writes all of the bytes, or those before which the writer fails: it keeps in mind that it did.
pub fn tell<W: Write + Drop>(writer: &mut Watched<W>, bytes: &[u8])
    ensures { IsWrittenOrFailed W.contents writer.old writer.new bytes.now }
{
    match writer.put(bytes) {
        Ok(()) => {}
        Err(_) => {}
    }
}

/// What is counted of an output, by how it was called: once it was flushed no call had failed, and all
/// that it took was passed on; where it has failed one call did, or a flush. So these are facts of the
/// state of the output, also of one that doesn't tell its bytes.
pub fn output_is_counted<W: Outflow>()
    ensures flushed { (old : W) (new : W) → IsFlushed W.gives W.flushes old new
        → IsAllPassedOn (W.sent old) (W.sent new) }
    ensures failed { (old : W) (new : W) → WriterHasFailed W.gives W.flushes old new
        → HasFailedOnce (W.sent old) (W.sent new) }
{}
