//! What a serving takes, all of it had: it can only be served.

ghost use Rattle.std.specs.Prelude.{◌≡◌, Some, None, Err, IfOk, IfErr, OnOk, OnErr};
ghost use Rattle.std.specs.Io.KnownBytes.{Appends};
ghost use Rattle.lift_program.specs.Ends.{IsFileFault, IsReportOfFailure, MaySay, serving_text};
ghost use Rattle.lift_program.specs.Images.{local};
ghost use Rattle.lift_program.specs.Output.{IsFlushed, WasTaken, WriterHasFailed};
ghost use Rattle.lift_program.specs.Serving.{IsReadyOver};
ghost use Rattle.lift_program.specs.Showing.{WritesFront};
ghost use Rattle.lift_program.specs.Stages.{IsServingFailure, fault_in};
ghost use Rattle.lift_program.specs.declared.fault.Role.TheVariants.{Output};

pub(crate) mod keeping;

use crate::fault::Fault;
use crate::files::building_in;
use crate::invocation::ToServe;
use crate::leftover::{Failure, Leftover};
use crate::opening::{FilesView, Listens, Openers, TextOpener};
use crate::output::{Outflow, write_out};
use crate::refused::unprepared;
use arrayvec::ArrayString;
use itoa::Buffer;
use keeping::{ImageKey, keeper_in, left_by, left_unserved};
use lift_building::Building;
use lift_disk::{BufferedFile, FileOpener};
use lift_policy::Shipped;
use lift_serve::{Listening, ReadyGroup, Room, prepare};
use std::alloc::Global;
use std::io::Write;
use std::marker::Model;

/// What opens a serving's socket. Only what makes a serving ready asks it for one. Contracts see what
/// opens it.
#[derive(Drop)]
pub(crate) struct ForServing<L> {
    opener: L,
}

impl<L> Model for ForServing<L> {
    ghost Value = { L };

    ghost view = { λ s. s.opener };
}

impl<L> ForServing<L> {
    pub(crate) fn new(opener: L) -> Self
        ensures { result ≡ opener }
    {
        ForServing { opener }
    }
}

/// Says which port is served.
fn say<W: Outflow>(port: u16, writer: &mut W) -> Result<(), Fault>
    ensures said { OnOk result
        (Appends (W.contents writer.old) (W.contents writer.new) (serving_text port)) }
    ensures front { OnErr result
        (WritesFront (W.contents writer.old) (W.contents writer.new) (serving_text port)) }
    ensures fault { IfErr result (IsFileFault Output) }
    ensures flushed { OnOk result (IsFlushed W.gives W.flushes writer.old writer.new) }
    ensures out_of_memory { result ≡ Err (Fault.Memory tt)
        → WasTaken W.gives W.flushes writer.old writer.new }
    ensures failed { OnErr result (WriterHasFailed W.gives W.flushes writer.old writer.new) }
{
    let mut digits = Buffer::new();
    let mut line: ArrayString<64> = ArrayString::new();
    line.push_str("serving ");
    line.push_str(digits.format(port));
    line.push_str("\n");
    write_out(writer, line.as_str().as_bytes())
}

/// A socket that listens on this machine alone.
fn listen_here<L: Listens>(socket: ForServing<L>, port: u16) -> Result<Listening, Fault>
    ensures here { IfOk result (λ listening. L.gives socket local port (Some listening)) }
    ensures refused { OnErr result (L.gives socket local port None) }
    ensures fault { IfErr result (λ fault. fault ≡ Fault.Network) }
{
    match socket.opener.listen([127, 0, 0, 1], port) {
        Ok(listening) => Ok(listening),
        Err(_) => Err(Fault::Network),
    }
}

impl<'w, B: TextOpener, I: FileOpener, L: Listens, E: Write + Drop> ToServe<'w, B, I, L, E> {
    /// Has all that it takes to serve the building on a port of this machine, with the journal in the
    /// file of its image, until so many connections have ended, and answers the port with it. The building
    /// stands in `place`, and the desk in `room`. That the port is served is said after all that can be
    /// refused here. The group can't be let go: it is served, or this file alone has it `left_unserved`.
    #[inline(never)]
    pub(crate) fn made_ready<'d, 'b: 'd, W: Outflow>(
        self,
        alloc: Global,
        place: &'b mut Option<Building>,
        room: &'d mut Option<Room>,
        writer: &mut W,
    ) -> Result<
        (
            u16,
            ReadyGroup<'d, 'b, BufferedFile<I::Listed>, Shipped, ImageKey<E>>,
        ),
        Failure<BufferedFile<I::Listed>, I::Listed, I>,
    >
        // That the port is served was passed on, before it is.
        ensures said { OnOk result
            (Appends (W.contents writer.old) (W.contents writer.new) (serving_text self.entry.port)) }
        ensures flushed { OnOk result (IsFlushed W.gives W.flushes writer.old writer.new) }
        // The socket was asked for at 127.0.0.1, at this port.
        ensures ready { IfOk result (λ ready. IsReadyOver
            (⟦<Openers<B, I, L> as FilesView>⟧.view self.entry.openers) self.entry.image.now
            self.entry.building.now self.entry.port self.entry.policy self.entry.sessions
            ready.1.allocator ready.1.flusher ready.1.bound) }
        ensures port { IfOk result (λ ready. ready.0 ≡ self.entry.port) }
        // The port is the fault only where that was refused.
        ensures refused { IfErr result (λ failure. fault_in failure ≡ Fault.Network
            → L.gives self.entry.openers.socket local self.entry.port None) }
        // Nothing was written to an image that isn't served.
        ensures failure { IfErr result (IsServingFailure
            (⟦<Openers<B, I, L> as FilesView>⟧.view self.entry.openers) self.entry.image.now
            self.entry.building.now) }
        // Nothing was said of what can't be served, unless the output failed to say it.
        ensures report { IfErr result (λ failure. IsReportOfFailure
            (WriterHasFailed W.gives W.flushes writer.old writer.new) failure
            (W.contents writer.old) (W.contents writer.new)) }
        // Nothing is said until the socket was had.
        ensures front { OnErr result (MaySay
            (L.gives self.entry.openers.socket local self.entry.port) self.entry.port
            (W.contents writer.old) (W.contents writer.new)) }
    {
        let ToServe {
            openers,
            image,
            building,
            port,
            sessions,
            policy,
            error: _,
        } = self;
        let described = match building_in(openers.building, alloc, building) {
            Ok(building) => building,
            Err(fault) => return Err(Failure::NoBuilding(fault, Leftover::new(openers.image))),
        };
        let standing: &'b Building = place.insert(described);
        let keeper = match keeper_in(openers.image, image, standing) {
            Ok(keeper) => keeper,
            Err(failure) => return Err(failure),
        };
        let listening = match listen_here(openers.socket, port) {
            Ok(listening) => listening,
            Err(fault) => return Err(Failure::Opened(fault, left_by(keeper))),
        };
        let group = match prepare(alloc, room, listening, sessions, keeper, policy) {
            Ok(group) => group,
            Err((keeper, memory)) => {
                return Err(Failure::Opened(unprepared(memory), left_by(keeper)));
            }
        };
        if let Err(fault) = say(port, writer) {
            return Err(Failure::Opened(fault, left_unserved(group)));
        }
        Ok((port, group))
    }
}
