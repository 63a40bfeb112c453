//! A terminal's place between its sessions.

ghost use Rattle.std.specs.Prelude.{◌≡◌};
ghost use Rattle.lift_base.specs.Output.{sink_of};
ghost use Rattle.lift_desk.specs.Seats.{IsSeatOf};
ghost use Rattle.lift_kiosk.specs.Lines.{source_of};
ghost use Rattle.lift_kiosk.specs.Session.{standing_of};
ghost use Rattle.lift_serve.specs.Visits.{IsNewSeat, IsVisit, Visits};

use crate::pace::{Pace, Pager};
use crate::present::PresentCars;
use crate::sleep::Sleep;
use lift_base::Terminal;
use lift_base::text::{Counted, Watched};
use lift_car::CarLines;
use lift_desk::{Desk, Seat};
use lift_kiosk::{DeskPort, End, Kiosk, LastLetter, Limits, Port, converse};
use std::io::{Read, Write};
use std::marker::Model;
use std::sync::Wait;
use std::time::Clock;

/// What a session of a connection may use at most.
const LIMITS: Limits = Limits {
    lines: 1_000_000,
    looks: 60_000,
    reads: 100_000_000,
};

/// A session of a terminal, in its dialect.
fn session_of<I: Read + Drop, O: Write + Drop, P: Port>(
    terminal: Terminal,
    reader: &mut Counted<I>,
    writer: &mut Watched<O>,
    port: &mut P,
    last: &mut LastLetter,
) -> End
    ensures visit { IsVisit terminal result
        (standing_of I.remaining O.contents P.view reader.old writer.old port.old last.old)
        (standing_of I.remaining O.contents P.view reader.new writer.new port.new last.new) }
    ensures stays { P.place port.new ≡ P.place port.old }
{
    if terminal.is_kiosk() {
        converse::<Kiosk, I, O, P>(reader, writer, port, last, &LIMITS)
    } else {
        converse::<CarLines, I, O, P>(reader, writer, port, last, &LIMITS)
    }
}

/// A terminal's seat and its own pager, with the last command that is known to be in, and the one
/// that the recovery found. One session at a time has it. What is known came from what was found by
/// sessions, each of which began where the one before ended.
#[derive(Drop)]
pub struct HeldSeat<'d> {
    desk: &'d Desk,
    pager: &'d Pager,
    seat: Seat,
    last: LastLetter,
    found: LastLetter,
}

impl<'d> Model for HeldSeat<'d> {
    ghost use Rattle.lift_serve.specs.HeldInside.{IsHeldSeat, seen};
    ghost use Rattle.lift_serve.specs.Visits.{HeldState};

    ghost Value = { HeldState };

    ghost view = { seen };

    ghost invariant = { IsHeldSeat };
}

impl<'d> HeldSeat<'d> {
    /// A new seat's, of which the recovery found this, with its terminal's pager.
    pub(super) fn new(desk: &'d Desk, pager: &'d Pager, seat: Seat, found: LastLetter) -> Self
        requires seated { IsSeatOf desk.now seat }
        requires new { IsNewSeat seat }
        requires paged { pager.now ≡ seat.terminal }
        ensures { result ≡ record { desk = desk.now; seat = seat; last = found; found = found } }
    {
        let known = found;
        HeldSeat {
            desk,
            pager,
            seat,
            last: known,
            found,
        }
    }

    /// The terminal that it is for.
    pub fn terminal(&self) -> Terminal
        ensures { result ≡ self.now.seat.terminal }
    {
        self.seat.terminal()
    }

    /// A session, from what the one before it left. Its car is absent once it has ended.
    pub fn visit<R: Wait + Clock, I: Read + Drop, O: Write + Drop>(
        self,
        rt: &R,
        pace: &Pace<'_>,
        present: &PresentCars,
        reader: &mut Counted<I>,
        writer: &mut Watched<O>,
    ) -> (HeldSeat<'d>, End)
        ensures { Visits self.entry result.1 result.0 (source_of I.remaining reader.old)
            (source_of I.remaining reader.new)
            (sink_of O.contents writer.old) (sink_of O.contents writer.new) }
    {
        let HeldSeat {
            desk,
            pager,
            seat,
            mut last,
            found,
        } = self;
        let terminal = seat.terminal();
        let sleep = Sleep::new(&seat, rt, pace, pager, present);
        let mut port = DeskPort::new(desk, seat, sleep);
        let end = session_of(terminal, reader, writer, &mut port, &mut last);
        present.leave(terminal);
        let seat = port.into_seat();
        (
            HeldSeat {
                desk,
                pager,
                seat,
                last,
                found,
            },
            end,
        )
    }
}
