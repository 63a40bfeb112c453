//! A port at the desk.

ghost use Rattle.std.specs.Prelude.{◌≡◌};
ghost use Rattle.lift_desk.specs.Seats.{IsSeatOf};
ghost use Rattle.lift_kiosk.specs.Desk.{asks_at};

use crate::port::Port;
use crate::rest::{Rest, Yield};
use lift_base::{Body, Number, ProofCount, Reply, Terminal};
use lift_desk::{AskRefusal, Desk, Seat};
use std::marker::Model;
use std::snapshot::Snapshot;

/// A terminal's seat at the desk as a port. How it rests, and who is told of what is asked and heard
/// there, its type names; how often it rested only proofs read. That it rests when it counts stands
/// in the two lines of its `rest`: a rest changes nothing that a clause could name.
#[derive(Drop)]
pub struct DeskPort<'d, W: Rest + Drop = Yield> {
    desk: &'d Desk,
    seat: Seat,
    way: W,
    rests: ProofCount,
}

impl<'d, W: Rest + Drop> Model for DeskPort<'d, W> {
    ghost use Rattle.lift_desk.specs.Seats.{IsSeatOf};
    ghost use Rattle.lift_kiosk.specs.Desk.{DeskPortState, asks_at};

    ghost Value = { DeskPortState };

    ghost view = { λ p. record { desk = p.desk.now; seat = p.seat; rests = p.rests.count } };

    ghost invariant = { λ p. IsSeatOf p.desk.now p.seat × W.was_notified p.way (asks_at p.seat) };
}

impl<'d, W: Rest + Drop> DeskPort<'d, W> {
    /// The port of a seat of this desk, which rests this way.
    pub fn new(desk: &'d Desk, seat: Seat, way: W) -> Self
        requires seated { IsSeatOf desk.now seat }
        requires notified { W.was_notified way (asks_at seat) }
        ensures { result ≡ record { desk = desk.now; seat = seat; rests = 0 } }
    {
        DeskPort {
            desk,
            seat,
            way,
            rests: ProofCount::new(),
        }
    }

    /// The terminal of its seat.
    pub fn terminal(&self) -> Terminal
        ensures { result ≡ self.now.seat.terminal }
    {
        self.seat.terminal()
    }

    /// The seat, for the next session.
    pub fn into_seat(self) -> Seat
        ensures seat { result ≡ self.entry.seat }
        ensures stays { IsSeatOf self.entry.desk result }
    {
        let DeskPort {
            desk: _,
            seat,
            way: _,
            rests: _,
        } = self;
        seat
    }
}

impl<'d, W: Rest + Drop> Port for DeskPort<'d, W> {
    ghost use Rattle.lift_kiosk.specs.Desk.{port_view, place_of};

    ghost view = { λ p. port_view p.seat.view p.rests };

    ghost place = { place_of };

    fn pending(&self) -> Option<Number> {
        self.seat.pending()
    }

    fn ask(&mut self, number: Number, body: Body) -> Result<(), AskRefusal> {
        self.desk.ask(&mut self.seat, number, body)?;
        self.way.asked(Snapshot::of(&self.seat));
        Ok(())
    }

    fn hear(&mut self) -> Option<Reply> {
        let reply = self.desk.hear(&mut self.seat)?;
        self.way.heard(&reply);
        Some(reply)
    }

    fn rest(&mut self) {
        self.way.rest();
        self.rests = ProofCount::next(&self.rests);
    }
}
