//! How the program ends.

ghost use Rattle.std.specs.Prelude.{◌≡◌, None, IfSome};
ghost use Rattle.lift_program.specs.Ends.{exit_status_of, line_at_end};
ghost use Rattle.lift_program.specs.Output.{IsWrittenOrFailed};

use crate::fault::Fault;
use crate::leftover::{Failure, Leftover};
use crate::output::tell;
use crate::refused::NoMemory;
use crate::serve::Serving;
use crate::unwritten::ShownImage;
use lift_base::text::Watched;
use lift_disk::{BufferedFile, SectorFile};
use lift_replay::Verdict;
use std::io::Write;

/// How the program ends, by the command, over the devices that it makes, shows and serves, the files of
/// images that are refused, and what opens an image, as it has left them. Where nothing was asked of an
/// image, what opens it is left as it was given.
#[derive(Drop)]
pub enum End<M, S, V, F: Drop, O: Drop> {
    /// A script was replayed, or why it wasn't to its end.
    Replayed(Result<Verdict, Fault>, Leftover<O>),
    /// An empty journal was made on this file, or why none was.
    Formatted(Result<Leftover<M>, Failure<M, F, O>>),
    /// The open calls of the journal on this file were written, or why they weren't.
    Shown(Result<Leftover<S>, Failure<S, F, O>>),
    /// The building was served, and the serving ended so; or why it wasn't.
    Served(Result<Serving<V>, Failure<V, F, O>>),
    /// The words are those of no command.
    OtherWords(Leftover<O>),
    /// There was no memory to read the words.
    NoWords(NoMemory, Leftover<O>),
}

/// How a command ends over files that this opens.
pub type EndBy<I, T> = End<SectorFile<T>, ShownImage<T>, BufferedFile<T>, T, I>;

impl<M, S, V, F: Drop, O: Drop> End<M, S, V, F, O> {
    /// The program's status: 0 where all was done, 1 for a bad script or a fault, 2 for other
    /// words.
    pub fn status(&self) -> u8
        ensures { result ≡ exit_status_of self.now }
    {
        match self {
            End::Replayed(Ok(Verdict::Good), _) => 0,
            End::Replayed(Ok(Verdict::Bad), _) => 1,
            End::Replayed(Err(_), _) => 1,
            End::Formatted(Ok(_)) => 0,
            End::Formatted(Err(_)) => 1,
            End::Shown(Ok(_)) => 0,
            End::Shown(Err(_)) => 1,
            End::Served(Ok(serving)) => match &serving.fault {
                None => 0,
                Some(_) => 1,
            },
            End::Served(Err(_)) => 1,
            End::OtherWords(_) => 2,
            End::NoWords(_, _) => 1,
        }
    }

    /// Writes the line of a fault, or of other words: but that a device failed while it was served
    /// was reported when it did. Where it can't be written, only the status says so.
    pub fn tell<E: Write + Drop>(&self, errors: &mut Watched<E>)
        ensures line { IfSome (line_at_end self.now)
            (IsWrittenOrFailed E.contents errors.old errors.new) }
        ensures quiet { line_at_end self.now ≡ None → errors.new ≡ errors.old }
    {
        match self {
            End::Replayed(Ok(_), _) => {}
            End::Replayed(Err(fault), _) => fault.tell(errors),
            End::Formatted(Ok(_)) => {}
            End::Formatted(Err(failure)) => failure.fault().tell(errors),
            End::Shown(Ok(_)) => {}
            End::Shown(Err(failure)) => failure.fault().tell(errors),
            End::Served(Ok(serving)) => match &serving.fault {
                None => {}
                Some(fault) => match fault {
                    Fault::Journal(_) => {}
                    other => other.tell(errors),
                },
            },
            End::Served(Err(failure)) => failure.fault().tell(errors),
            End::OtherWords(_) => tell(errors, b"liftd: usage\n"),
            End::NoWords(_, _) => tell(errors, b"liftd: memory\n"),
        }
    }
}
