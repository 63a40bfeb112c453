//! The serving of what the words ask to be served. Here alone the program waits.

ghost use Rattle.std.specs.Prelude.{◌≡◌, None, cond, IfOk, IfErr, OnErr};
ghost use Rattle.std.specs.Io.KnownBytes.{Appends};
ghost use Rattle.lift_program.specs.Ends.{IsEndFor, IsReportOfFailure, TellsLine, is_reported_at_once};
ghost use Rattle.lift_program.specs.Ends.{line_for, serving_text};
ghost use Rattle.lift_program.specs.Faults.{served_fault};
ghost use Rattle.lift_program.specs.Output.{IsFlushed, WriterHasFailed};
ghost use Rattle.lift_program.specs.declared.end.End.TheVariants.{Served};
ghost use Rattle.lift_program.specs.declared.words.Request.TheVariants.{Serve};

use crate::at_once::{AtOnce, FAILED};
use crate::fault::Fault;
use crate::invocation::ToServe;
use crate::invocation::ready::keeping::left_served;
use crate::leftover::{Failure, Leftover};
use crate::opening::{FilesView, Listens, Openers, TextOpener};
use crate::output::Outflow;
use crate::refused::refused_in;
use lift_base::text::Watched;
use lift_disk::{BufferedFile, FileOpener};
use lift_serve::{Parts, ServingEnd};
use std::alloc::Global;
use std::io::Write;
use std::sync::Wait;
use std::thread::Threads;
use std::time::Clock;

/// Why the serving failed: for a device that failed, and else for the fault of the rest.
fn fault_of(is_broken: bool, end: &ServingEnd) -> Option<Fault>
    ensures { result ≡ served_fault is_broken end.now.fault }
{
    if is_broken {
        return Some(FAILED);
    }
    refused_in(end)
}

/// How a serving ended: only a serving makes that.
#[derive(Drop)]
pub struct Serving<D> {
    /// Where it was.
    pub port: u16,
    /// What is reported: that the device failed, and else what the serving was refused.
    pub fault: Option<Fault>,
    /// The image.
    pub left: Leftover<D>,
    /// What it was refused, and which connections have ended.
    pub end: ServingEnd,
}

/// Serves what the words ask to be served, once all that it takes was had, until so many connections have
/// ended, and answers how that ended. That the device failed is written to `errors` in the very turn in
/// which it fails, and nothing else is.
#[inline(never)]
pub(crate) fn serve<
    F: Threads + Wait + Clock + Sync,
    B: TextOpener,
    I: FileOpener,
    L: Listens,
    W: Outflow,
    E: Write + Drop,
>(
    rt: &F,
    asked: ToServe<'_, B, I, L, E>,
    alloc: Global,
    writer: &mut W,
    errors: Watched<E>,
) -> (
    Result<Serving<BufferedFile<I::Listed>>, Failure<BufferedFile<I::Listed>, I::Listed, I>>,
    Watched<E>,
)
    ensures end { IsEndFor (⟦<Openers<B, I, L> as FilesView>⟧.view asked.entry.openers)
        (Serve asked.entry.image asked.entry.building asked.entry.port asked.entry.sessions
        asked.entry.policy) (W.contents writer.old) (W.contents writer.new) (Served result.0) }
    // That its port is served was passed on, before it was,
    ensures said { IfOk result.0 (λ serving. IsFlushed W.gives W.flushes writer.old writer.new
        × Appends (W.contents writer.old) (W.contents writer.new) (serving_text serving.port)) }
    ensures report { IfErr result.0 (λ failure. IsReportOfFailure
        (WriterHasFailed W.gives W.flushes writer.old writer.new) failure (W.contents writer.old)
        (W.contents writer.new)) }
    // and the line of a device that failed before the end, and no other.
    ensures at_once { IfOk result.0 (λ serving.
        TellsLine E.contents (cond (is_reported_at_once serving.fault) (line_for serving.fault) None)
        errors result.1) }
    ensures quiet { OnErr result.0 (result.1 ≡ errors) }
{
    let mut place = None;
    let mut room = None;
    let (port, group) = match asked.made_ready(alloc, &mut place, &mut room, writer) {
        Ok(ready) => ready,
        Err(failure) => return (Err(failure), errors),
    };
    let reporter = AtOnce { errors };
    let (served, end) = lift_serve::serve(rt, alloc, group, reporter);
    let Parts {
        allocator: _,
        flusher,
        witness,
    } = served;
    let AtOnce { errors } = witness;
    let serving = Serving {
        port,
        fault: fault_of(flusher.is_broken(), &end),
        left: left_served(flusher),
        end,
    };
    (Ok(serving), errors)
}
