//! The open calls of a group, begun again from its image.

ghost use Rattle.std.specs.Prelude.{◌≡◌, ◌≢◌, ◌⊎◌, Err, IfOk, IfErr, OnOk, OnErr};
ghost use Rattle.std.specs.Io.KnownBytes.{Appends};
ghost use Rattle.lift_replay.specs.Report.{register_text};
ghost use Rattle.lift_program.specs.Ends.{IsFileFault, IsReportOfFailure};
ghost use Rattle.lift_program.specs.Output.{IsFlushed, WasTaken, WriterHasFailed};
ghost use Rattle.lift_program.specs.Showing.{IsShown, ShowsPart, WritesFront};
ghost use Rattle.lift_program.specs.Stages.{IsShowingFailure, fault_in};
ghost use Rattle.lift_program.specs.declared.fault.Role.TheVariants.{Output};

use crate::fault::Fault;
use crate::files::{building_in, image_to_show};
use crate::invocation::ready::ForServing;
use crate::invocation::ready::keeping::left_by;
use crate::leftover::{Failure, Leftover};
use crate::opening::{FilesView, Listens, Openers, TextOpener};
use crate::output::{Outflow, write_out};
use crate::unwritten::ShownImage;
use lift_disk::FileOpener;
use lift_keeper::Keeper;
use lift_register::Register;
use lift_replay::report::push_rows;
use std::alloc::Global;

/// Writes the open calls of a register, as scripts report them.
fn write_rows<W: Outflow>(alloc: Global, register: &Register, writer: &mut W) -> Result<(), Fault>
    ensures written { OnOk result
        (Appends (W.contents writer.old) (W.contents writer.new) (register_text register.now)) }
    ensures front { OnErr result (WritesFront (W.contents writer.old) (W.contents writer.new)
        (register_text register.now)) }
    ensures fault { IfErr result (IsFileFault Output) }
    ensures flushed { OnOk result (IsFlushed W.gives W.flushes writer.old writer.new) }
    ensures failed { result ≡ Err (Fault.File Output)
        → WriterHasFailed W.gives W.flushes writer.old writer.new }
    // Memory is the fault only where no call failed but a flush.
    ensures out_of_memory { result ≡ Err (Fault.Memory tt)
        → WasTaken W.gives W.flushes writer.old writer.new }
    ensures unwritten { OnErr result ((W.contents writer.new ≡ W.contents writer.old)
        ⊎ WriterHasFailed W.gives W.flushes writer.old writer.new) }
{
    let mut report = String::new(alloc);
    push_rows(&mut report, register)?;
    write_out(writer, report.as_bytes())
}

/// Shows the open calls of the journal in the file `image`, which is of the building in the file
/// `building`.
#[inline(never)]
#[tactic(auto, using(crate::proofs::Stages::reads_building))]
pub(crate) fn show<B: TextOpener, I: FileOpener, L: Listens, W: Outflow>(
    openers: Openers<B, I, ForServing<L>>,
    alloc: Global,
    image: &str,
    building: &str,
    writer: &mut W,
) -> Result<Leftover<ShownImage<I::Listed>>, Failure<ShownImage<I::Listed>, I::Listed, I>>
    ensures shown { IfOk result (λ disk. IsShown (⟦<Openers<B, I, L> as FilesView>⟧.view openers)
        image.now building.now disk (W.contents writer.old) (W.contents writer.new)) }
    ensures flushed { OnOk result (IsFlushed W.gives W.flushes writer.old writer.new) }
    ensures front { OnErr result (ShowsPart (⟦<Openers<B, I, L> as FilesView>⟧.view openers)
        image.now building.now (W.contents writer.old) (W.contents writer.new)) }
    ensures failure { IfErr result
        (IsShowingFailure (⟦<Openers<B, I, L> as FilesView>⟧.view openers) image.now building.now) }
    ensures portless { IfErr result (λ failure. fault_in failure ≢ Fault.Network) }
    // Nothing is written but the calls, and of these no prefix unless the output fails.
    ensures report { IfErr result (λ failure. IsReportOfFailure
        (WriterHasFailed W.gives W.flushes writer.old writer.new) failure (W.contents writer.old)
        (W.contents writer.new)) }
{
    let building = match building_in(openers.building, alloc, building) {
        Ok(building) => building,
        Err(fault) => return Err(Failure::NoBuilding(fault, Leftover::new(openers.image))),
    };
    let disk = match image_to_show(openers.image, image) {
        Ok(disk) => disk,
        Err((fault, cause)) => return Err(Failure::NoImage(fault, cause)),
    };
    let keeper = match Keeper::open(disk, &building) {
        Ok(keeper) => keeper,
        Err((disk, fault)) => {
            return Err(Failure::Opened(Fault::Journal(fault), Leftover::new(disk)));
        }
    };
    match write_rows(alloc, keeper.register(), writer) {
        Ok(()) => Ok(left_by(keeper)),
        Err(fault) => Err(Failure::Opened(fault, left_by(keeper))),
    }
}
