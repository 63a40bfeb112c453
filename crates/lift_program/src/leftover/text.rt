//! The text of a building's file, which is read once.

ghost use Rattle.std.specs.Prelude.{◌≡◌, ◌≤◌, ◌+◌, IfOk, IfErr, IfSome, OnOk};
ghost use Rattle.std.specs.Prelude.{Err, false, vec_len};
ghost use Rattle.lift_replay.specs.Reading.{TakesByEach, TakesUpTo};
ghost use Rattle.lift_program.specs.Ends.{IsFileFault, IsUncalled, uncalled};
ghost use Rattle.lift_program.specs.Stages.{GivesNoText, most_text};
ghost use Rattle.lift_program.specs.declared.fault.Role.TheVariants.{Building as OfBuilding};

use crate::fault::{Fault, Role};
use crate::leftover::Leftover;
use crate::opening::TextOpener;
use lift_base::text::Counted;
use lift_replay::{InputFault, MOST_BYTES, MOST_CALLS, read_all};
use std::alloc::Global;
use std::marker::Model;

/// A building's file that was opened. It can only be let go, or read as a whole by `bytes_of`, which takes
/// it: so nothing is read beside that, and nothing else is read as one. Contracts see its reader.
#[derive(Drop)]
pub(crate) struct OpenedText<R: Drop> {
    reader: Counted<R>,
}

impl<R: Drop> Model for OpenedText<R> {
    ghost use Rattle.lift_base.specs.Input.{InputState};

    ghost Value = { InputState R };

    ghost view = { λ t. t.reader };
}

impl<R: Drop> OpenedText<R> {
    /// Nothing of it was read.
    pub(crate) fn new(reader: R) -> Self
        ensures { result ≡ uncalled reader }
    {
        OpenedText {
            reader: Counted::new(reader),
        }
    }
}

/// What a building's file comes to that couldn't be read.
fn unread(fault: InputFault) -> Fault
    ensures fault { IsFileFault OfBuilding result }
    ensures unread { result ≡ Fault.File OfBuilding → fault ≡ InputFault.Read }
    ensures out_of_memory { result ≡ Fault.Memory tt → fault ≡ InputFault.Memory tt }
{
    match fault {
        InputFault::Read => Fault::File(Role::Building),
        InputFault::Memory(no_memory) => Fault::from(no_memory),
    }
}

/// The bytes of a building's file, as many as a script may have. Reading stops after one byte more,
/// and the file is refused then. Its reader comes back as it was left, which nobody reads any more.
pub(crate) fn bytes_of<B: TextOpener>(
    alloc: Global,
    text: OpenedText<B::Text>,
) -> (Leftover<Counted<B::Text>>, Result<Vec<u8>, Fault>)
    requires uncalled { IsUncalled text }
    ensures whole { IfOk result.1 (λ bytes.
        IfSome (B.Text.remaining text.reader) (λ all. bytes.items ≡ all)) }
    ensures bound { IfOk result.1 (λ bytes. vec_len bytes ≤ most_text) }
    ensures taken { TakesUpTo (most_text + 1) B.Text.remaining text.reader result.0.reader }
    // No call was made after the end, after a failed one, or once a byte too many had come.
    ensures each_call { TakesByEach most_text B.Text.remaining text result.0 }
    ensures few_calls { result.0.calls ≤ 2097152 }
    ensures fault { IfErr result.1 (IsFileFault OfBuilding) }
    // The file is refused where a call failed, which was the last, or where it held a byte too many;
    // it is out of memory only where no call failed.
    ensures no_text { result.1 ≡ Err (Fault.File OfBuilding)
        → GivesNoText B.Text.remaining B.reads text.reader result.0.reader }
    ensures out_of_memory { result.1 ≡ Err (Fault.Memory tt) → result.0.failed ≡ false }
    ensures unfailed { OnOk result.1 (result.0.failed ≡ false) }
{
    let mut reader = text.reader;
    match read_all(alloc, &mut reader, MOST_BYTES, MOST_CALLS) {
        Ok(bytes) => {
            if bytes.len() > MOST_BYTES {
                (Leftover::new(reader), Err(Fault::File(Role::Building)))
            } else {
                (Leftover::new(reader), Ok(bytes))
            }
        }
        Err(fault) => (Leftover::new(reader), Err(unread(fault))),
    }
}
