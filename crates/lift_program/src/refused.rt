//! What may be out of memory, and the evidence that none was left.

ghost use Rattle.std.specs.Prelude.{◌≡◌, ◌≢◌, Ok, Err, Some, None, true, false, map};
ghost use Rattle.std.specs.Prelude.{IfOk, IfErr, IfSome, IfNone, OnOk, OnErr};
ghost use Rattle.std.specs.Io.KnownBytes.{Keeps};
ghost use Rattle.std.specs.IoError.{error_kind};
ghost use Rattle.lift_program.specs.Ends.{IsFileFault, IsUncalled, TellsLine, line_of};
ghost use Rattle.lift_program.specs.Faults.{served_fault};
ghost use Rattle.lift_program.specs.Stages.{IsImageFault, IsRefusedBySystem, IsTextRefused};
ghost use Rattle.lift_program.specs.Words.{AreMatchesOf, AskForRequest, AsksNothing};
ghost use Rattle.lift_program.specs.declared.fault.Fault.TheVariants.{Memory as Wanting};
ghost use Rattle.lift_program.specs.declared.fault.Role.TheVariants.{Building as OfBuilding};
ghost use Rattle.lift_program.specs.declared.fault.Role.TheVariants.{Image as OfImage, Output};

use crate::end::End;
use crate::fault::{Fault, Role};
use crate::grammar::grammar;
use crate::leftover::Leftover;
use crate::leftover::text::OpenedText;
use crate::opening::TextOpener;
use crate::output::Outflow;
use clap::ArgMatches;
use clap::error::ErrorKind as WordsFault;
use lift_base::text::Watched;
use lift_disk::FileFault;
use lift_serve::{Memory, ServeFault, ServingEnd};
use std::alloc::Global;
use std::convert::AsStr;
use std::io;
use std::io::{ErrorKind, Write};
use std::marker::Model;

/// Evidence that no memory was left. Only the calls below make one, each where it was refused: by
/// evidence of the crate below, by the grammar of the words, or by the system's error, which each makes
/// the call for or uses up. Nobody can copy it.
#[derive(Drop)]
pub struct NoMemory {
    made: (),
}

impl Model for NoMemory {
    ghost use Rattle.std.specs.Prelude.{◌≡◌};

    ghost Value = { Unit {0} };

    ghost view = { λ _. tt };

    ghost inverse = { λ _. record { made = tt } };
}

impl NoMemory {
    /// The evidence, where that is why the system refused a call.
    fn of_call(error: &io::Error) -> Option<NoMemory>
        ensures memory { error_kind error.now ≡ ErrorKind.OutOfMemory → result ≡ Some tt }
        ensures other { error_kind error.now ≢ ErrorKind.OutOfMemory → result ≡ None }
    {
        if error.kind() == ErrorKind::OutOfMemory {
            Some(NoMemory { made: () })
        } else {
            None
        }
    }
}

impl From<lift_building::NoMemory> for Fault {
    ghost from_gives = { λ _ fault. fault ≡ Wanting tt };

    fn from(_no_memory: lift_building::NoMemory) -> Fault {
        Fault::Memory(NoMemory { made: () })
    }
}

impl From<lift_replay::NoMemory> for Fault {
    ghost from_gives = { λ _ fault. fault ≡ Wanting tt };

    fn from(_no_memory: lift_replay::NoMemory) -> Fault {
        Fault::Memory(NoMemory { made: () })
    }
}

/// What it comes to that a group couldn't be prepared for want of memory.
pub(crate) fn unprepared(_memory: Memory) -> Fault
    ensures { result ≡ Fault.Memory tt }
{
    Fault::Memory(NoMemory { made: () })
}

/// What a serving that ended so was refused.
pub(crate) fn refused_in(end: &ServingEnd) -> Option<Fault>
    ensures { result ≡ served_fault false end.now.fault }
{
    match end.fault() {
        Some(ServeFault::Thread) => Some(Fault::Thread),
        Some(ServeFault::Memory) => Some(Fault::Memory(NoMemory { made: () })),
        None => None,
    }
}

/// What a refused call on a file in this role comes to.
fn fault_of_call(role: Role, error: &io::Error) -> Fault
    ensures memory { error_kind error.now ≡ ErrorKind.OutOfMemory → result ≡ Fault.Memory tt }
    ensures file { error_kind error.now ≢ ErrorKind.OutOfMemory → result ≡ Fault.File role }
{
    match NoMemory::of_call(error) {
        Some(no_memory) => Fault::Memory(no_memory),
        None => Fault::File(role),
    }
}

/// What is answered of a file that can't be an image.
fn image_fault<F: Drop, O: Drop>(cause: &FileFault<F, O>) -> Fault
    ensures file { IsFileFault OfImage result }
    ensures caused { IsImageFault cause.now result }
{
    match cause {
        FileFault::Unclear(error, _) => fault_of_call(Role::Image, error),
        FileFault::NotAFile(_) => Fault::File(Role::Image),
        FileFault::Unopened(error) => fault_of_call(Role::Image, error),
        FileFault::Failed(failed) => fault_of_call(Role::Image, &failed.error),
    }
}

/// Why an image was refused: the fault that is reported, and what that comes from, which is used up.
pub(crate) fn refused<F: Drop, O: Drop>(
    cause: FileFault<F, O>,
) -> (Fault, Leftover<FileFault<F, O>>)
    ensures fault { IsFileFault OfImage result.0 }
    ensures caused { IsImageFault cause result.0 }
    ensures same { result.1 ≡ cause }
{
    (image_fault(&cause), Leftover::new(cause))
}

/// The file of a building, of which nothing was read.
pub(crate) fn text_in<B: TextOpener>(opener: B, path: &str) -> Result<OpenedText<B::Text>, Fault>
    ensures opened { IfOk result (λ text. B.opens opener path.now (Ok text.reader)) }
    ensures uncalled { IfOk result IsUncalled }
    ensures refused { result ≡ Err (Fault.File OfBuilding) → IsTextRefused (B.opens opener path.now) }
    ensures fault { IfErr result (IsFileFault OfBuilding) }
    // Memory is the fault just where the system said so.
    ensures caused { IfErr result
        (IsRefusedBySystem OfBuilding (λ error. B.opens opener path.now (Err error))) }
{
    match opener.open_text(path) {
        Ok(text) => Ok(OpenedText::new(text)),
        Err(error) => Err(fault_of_call(Role::Building, &error)),
    }
}

/// Has the standard output pass on what was written.
pub(crate) fn pass_on<W: Outflow>(writer: &mut W) -> Result<(), Fault>
    ensures flushed { OnOk result (W.flushes writer.old true writer.new) }
    ensures failed { OnErr result (W.flushes writer.old false writer.new) }
    ensures bytes { Keeps (W.contents writer.old) (W.contents writer.new) }
    ensures fault { IfErr result (IsFileFault Output) }
    // Memory is the fault just where the system said so.
    ensures caused { IfErr result
        (IsRefusedBySystem Output (λ error. W.refuses writer.old error writer.new)) }
{
    match writer.flush_once() {
        Ok(()) => Ok(()),
        Err(error) => Err(fault_of_call(Role::Output, &error)),
    }
}

/// What the program's grammar finds in the words; none where it doesn't take them.
pub(crate) fn matches_of<'a, S: AsStr>(
    alloc: Global,
    words: &'a [S],
) -> Result<Option<ArgMatches<'a>>, NoMemory>
    ensures taken { IfOk result (λ found. IfSome found (AreMatchesOf (map S.text words.now))) }
    ensures other { IfOk result (λ found.
        IfNone found (AsksNothing (AskForRequest (map S.text words.now)))) }
{
    let Ok(command) = grammar(alloc) else {
        return Err(NoMemory { made: () });
    };
    match command.try_get_matches_from(words) {
        Ok(matches) => Ok(Some(matches)),
        Err(error) => {
            if error.kind() == WordsFault::OutOfMemory {
                Err(NoMemory { made: () })
            } else {
                Ok(None)
            }
        }
    }
}

/// Why the words weren't given: for want of memory, or since one of them is no text. Nothing that
/// opens a file or a socket was made yet.
pub fn no_words<E: Write + Drop>(
    error: io::Error,
    errors: &mut Watched<E>,
) -> End<(), (), (), (), ()>
    ensures memory { error_kind error ≡ ErrorKind.OutOfMemory → result ≡ End.NoWords tt tt }
    ensures other { error_kind error ≢ ErrorKind.OutOfMemory → result ≡ End.OtherWords tt }
    ensures line { TellsLine E.contents (line_of result) errors.old errors.new }
{
    let end = match NoMemory::of_call(&error) {
        Some(no_memory) => End::NoWords(no_memory, Leftover::new(())),
        None => End::OtherWords(Leftover::new(())),
    };
    end.tell(errors);
    end
}
