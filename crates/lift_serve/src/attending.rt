//! One connection, from its first line to its end.

ghost use Rattle.std.specs.Prelude.{◌≡◌, ℕ, List, IfOk, IfErr, length};
ghost use Rattle.lift_base.specs.Output.{sink_of};
ghost use Rattle.lift_kiosk.specs.Lines.{GivesLine, Buffers65, Source, source_of};
ghost use Rattle.lift_serve.specs.Connections.{Attends, CallsUpTo, EndsWithoutLine, IsSaid};
ghost use Rattle.lift_serve.specs.Connections.{Names, first_reads};

use crate::first_line::terminal_of;
use crate::pace::Pace;
use crate::prepared::connections::Ticket;
use crate::prepared::seating::{Lobby, NoSeat, SeatReturn};
use crate::present::PresentCars;
use lift_base::Terminal;
use lift_base::text::{Counted, Watched};
use lift_building::Building;
use lift_kiosk::{End, Line, NoLine, read_line};
use std::io::{Read, Write};
use std::marker::Model;
use std::sync::{Mutex, Wait};
use std::time::Clock;

/// The calls of the reader for a first line.
const FIRST_READS: u32 = 100_000_000;

/// What came of a connection.
#[derive(Drop)]
pub enum Outcome<'d> {
    /// No first line came, and nobody has used the ticket.
    NoLine(Ticket, NoLine),
    /// Its first line names no terminal of the building, and nobody has used the ticket.
    Bad(Ticket),
    /// Another session has the seat of the terminal that it names: it was taken out of the lobby.
    Busy(NoSeat<'d>),
    /// The lobby's desk hasn't the terminal that it names.
    Unseated(NoSeat<'d>),
    /// There was a session of the terminal that it names, which ended so, and whose seat is back in
    /// the lobby.
    Visited(SeatReturn<'d>, End),
}

/// Evidence that a connection was attended to, and what came of it. Only `attend` makes one.
#[derive(Drop)]
pub struct Attendance<'d> {
    outcome: Outcome<'d>,
}

impl<'d> Model for Attendance<'d> {
    ghost use Rattle.lift_serve.specs.declared.attending.Outcome.{Outcome};

    ghost Value = { Outcome };

    ghost view = { λ a. a.outcome };
}

impl<'d> Attendance<'d> {
    /// What came of the connection.
    pub fn outcome(self) -> Outcome<'d>
        ensures { result ≡ self.entry }
    {
        let Attendance { outcome } = self;
        outcome
    }
}

/// The first line.
fn read_first<I: Read + Drop>(reader: &mut Counted<I>) -> Result<Line, NoLine>
    ensures line { IfOk result (λ found.
        (line : List ℕ) × Buffers65 line found.bytes.items found.is_longer
        × GivesLine line (source_of I.remaining reader.old) (source_of I.remaining reader.new)) }
    ensures few { CallsUpTo first_reads (source_of I.remaining reader.old)
        (source_of I.remaining reader.new) }
    ensures none { IfErr result (λ reason.
        EndsWithoutLine first_reads reason (source_of I.remaining reader.old)
        (source_of I.remaining reader.new)) }
{
    let mut left = FIRST_READS;
    read_line(reader, &mut left)
}

/// Writes all of the bytes, or those before which the writer fails.
fn say<O: Write + Drop>(writer: &mut Watched<O>, bytes: &[u8])
    ensures { IsSaid bytes.now (sink_of O.contents writer.old) (sink_of O.contents writer.new) }
{
    match writer.put(bytes) {
        Ok(()) => {}
        Err(_) => {}
    }
}

/// What comes of a connection whose first line names this terminal.
fn outcome_of<'d, R: Wait + Clock, I: Read + Drop, O: Write + Drop>(
    rt: &R,
    lobby: &Mutex<Lobby<'d>>,
    ticket: Ticket,
    pace: &Pace<'_>,
    present: &PresentCars,
    terminal: Terminal,
    reader: &mut Counted<I>,
    writer: &mut Watched<O>,
) -> Outcome<'d>
    ensures { (cars kiosks : ℕ) (source : Source)
        → Names cars kiosks terminal source (source_of I.remaining reader.old)
        → Attends cars kiosks result source (source_of I.remaining reader.new)
        (sink_of O.contents writer.old) (sink_of O.contents writer.new) }
{
    let taken = lobby.lock(rt).take(ticket, terminal);
    let held = match taken {
        Ok(held) => held,
        Err(no_seat) => {
            if no_seat.is_out() {
                say(writer, b"BUSY\n");
                return Outcome::Busy(no_seat);
            }
            say(writer, b"BAD\n");
            return Outcome::Unseated(no_seat);
        }
    };
    let (held, end) = held.visit(rt, pace, present, reader, writer);
    Outcome::Visited(lobby.lock(rt).put_back(held), end)
}

/// Reads the first line, and serves the terminal that it names. Where the line names none of the
/// building, or one whose seat the lobby's desk hasn't, `BAD` is answered, and where its seat is in
/// use `BUSY`.
pub fn attend<'d, R: Wait + Clock, I: Read + Drop, O: Write + Drop>(
    rt: &R,
    lobby: &Mutex<Lobby<'d>>,
    ticket: Ticket,
    pace: &Pace<'_>,
    present: &PresentCars,
    building: &Building,
    reader: &mut Counted<I>,
    writer: &mut Watched<O>,
) -> Attendance<'d>
    ensures { Attends (length building.now.cars) (length building.now.kiosks) result
        (source_of I.remaining reader.old) (source_of I.remaining reader.new)
        (sink_of O.contents writer.old) (sink_of O.contents writer.new) }
{
    let outcome = match read_first(reader) {
        Ok(line) => match terminal_of(&line, building) {
            Some(terminal) => {
                outcome_of(rt, lobby, ticket, pace, present, terminal, reader, writer)
            }
            None => {
                say(writer, b"BAD\n");
                Outcome::Bad(ticket)
            }
        },
        Err(no_line) => Outcome::NoLine(ticket, no_line),
    };
    Attendance { outcome }
}
