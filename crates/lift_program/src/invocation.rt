//! What the program is given, and what its words come to before anything is served.

pub(crate) mod ready;

ghost use Rattle.std.specs.Prelude.{◌≡◌, [], None, map, IfOk, IfErr, OnOk};
ghost use Rattle.lift_program.specs.declared.words.Request.TheVariants.{Serve};
ghost use Rattle.lift_program.specs.Ends.{IsEndOf, IsInputLeft, IsOutputOf, IsScriptEnd};
ghost use Rattle.lift_program.specs.Ends.{line_at_once, uncalled};
ghost use Rattle.lift_program.specs.Output.{IsFlushed, WriterHasFailed};
ghost use Rattle.lift_program.specs.Words.{AskForRequest};

use crate::end::{End, EndBy};
use crate::format::format;
use crate::help::answer;
use crate::invocation::ready::ForServing;
use crate::leftover::Leftover;
use crate::opening::{FilesView, Listens, Openers, TextOpener};
use crate::output::Outflow;
use crate::replay::replay;
use crate::show::show;
use crate::words::{Request, request_of};
use lift_base::text::Counted;
use lift_disk::FileOpener;
use lift_policy::{Dispatching, Shipped};
use std::alloc::Global;
use std::convert::AsStr;
use std::io::{Read, Write};
use std::marker::PhantomData;

/// The words after the program's name, what opens the files and the socket that they ask for, and
/// the standard input. Nobody can take them apart: they can only be prepared, by a call that
/// returns. So whoever waits with them has opened and read nothing, and nothing but what the words
/// ask for can be opened by them. That a device fails is reported to an `E`.
#[derive(Drop)]
pub struct Invocation<'w, B, I, L, S, R, E> {
    openers: Openers<B, I, ForServing<L>>,
    words: &'w [S],
    reader: R,
    error: PhantomData<E>,
}

/// What the words ask to be served, and what opens it, of which nothing was asked yet. It can't be let
/// go: `made_ready` alone takes it. That a device fails is reported to an `E`.
pub(crate) struct ToServe<'w, B, I, L, E> {
    openers: Openers<B, I, ForServing<L>>,
    image: &'w str,
    building: &'w str,
    port: u16,
    sessions: u32,
    policy: Dispatching<Shipped>,
    error: PhantomData<E>,
}

impl<
    'w,
    B: TextOpener,
    I: FileOpener,
    L: Listens,
    S: AsStr,
    R: Read + Drop,
    E: Write + Drop,
> Invocation<'w, B, I, L, S, R, E> {
    /// These words, what opens by them, and this input.
    pub fn new(openers: Openers<B, I, L>, words: &'w [S], reader: R) -> Self
        ensures openers { result.openers ≡ openers }
        ensures words { result.words.now ≡ words.now }
        ensures reader { result.reader ≡ reader }
    {
        let Openers {
            building,
            image,
            socket,
        } = openers;
        Invocation {
            openers: Openers {
                building,
                image,
                socket: ForServing::new(socket),
            },
            words,
            reader,
            error: PhantomData,
        }
    }

    /// Does what the words ask for, and answers how it ended; but of what they ask to be served
    /// nothing is done. The input comes back as it was left, which nobody reads any more.
    #[inline(never)]
    pub(crate) fn prepare<W: Outflow>(
        self,
        alloc: Global,
        writer: &mut W,
    ) -> (
        Leftover<Counted<R>>,
        Result<ToServe<'w, B, I, L, E>, EndBy<I, I::Listed>>,
    )
        ensures to_serve { IfOk result.1 (λ asked. AskForRequest (map S.text self.entry.words.now)
            (Serve asked.image asked.building asked.port asked.sessions asked.policy)) }
        ensures openers { IfOk result.1 (λ asked. asked.openers ≡ self.entry.openers) }
        ensures unsaid { OnOk result.1 (writer.new ≡ writer.old) }
        // It ends as the words ask.
        ensures end { IfErr result.1 (IsEndOf
            (⟦<Openers<B, I, L> as FilesView>⟧.view self.entry.openers)
            (map S.text self.entry.words.now) (W.contents writer.old) (W.contents writer.new)) }
        // What was written is its report, passed on where all was done.
        ensures output { IfErr result.1 (λ end. IsOutputOf
            (IsFlushed W.gives W.flushes writer.old writer.new)
            (WriterHasFailed W.gives W.flushes writer.old writer.new)
            (R.remaining self.entry.reader) (map S.text self.entry.words.now) end
            (W.contents writer.old) (W.contents writer.new)) }
        // Only a replay reads: nothing was read of a group that is to be served.
        ensures unread { OnOk result.1 (result.0 ≡ uncalled self.entry.reader) }
        ensures left { IfErr result.1 (λ end.
            IsInputLeft R.remaining end (uncalled self.entry.reader) result.0) }
        // Nothing is reported at once but of what is served.
        ensures quiet { IfErr result.1 (λ end. line_at_once end ≡ None) }
        // Of every reader and writer: what was written of a script is the report of the bytes that came.
        ensures script { IfErr result.1 (λ end. IsScriptEnd W.sent W.contents W.gives W.flushes []
            result.0.came writer.old writer.new end) }
    {
        let Invocation {
            openers,
            words,
            reader,
            error: _,
        } = self;
        let mut input = Counted::new(reader);
        let request = match request_of(alloc, words) {
            Ok(Some(request)) => request,
            Ok(None) => {
                answer(words, writer);
                return (Leftover::new(input), Err(End::OtherWords(openers.unused())));
            }
            Err(no_memory) => {
                let end = End::NoWords(no_memory, openers.unused());
                return (Leftover::new(input), Err(end));
            }
        };
        match request {
            Request::Replay => {
                let outcome = replay(alloc, &mut input, writer);
                let end = End::Replayed(outcome, openers.unused());
                (Leftover::new(input), Err(end))
            }
            Request::Format {
                image,
                building,
                half,
            } => {
                let outcome = format(openers, alloc, image, building, half);
                (Leftover::new(input), Err(End::Formatted(outcome)))
            }
            Request::Show { image, building } => {
                let outcome = show(openers, alloc, image, building, writer);
                (Leftover::new(input), Err(End::Shown(outcome)))
            }
            Request::Serve {
                image,
                building,
                port,
                sessions,
                policy,
            } => {
                let asked = ToServe {
                    openers,
                    image,
                    building,
                    port,
                    sessions,
                    policy,
                    error: PhantomData,
                };
                (Leftover::new(input), Ok(asked))
            }
        }
    }
}
