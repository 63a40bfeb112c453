//! A port whose clerk is played.
ghost use Rattle.std.specs.Prelude.{◌≡◌, ◌<◌, length, vec_len, IfOk};
ghost use Rattle.lift_desk.specs.Seats.{IsSeatOf, IsClerkOf, AreSeatsOf};

use lift_base::{Body, Floor, Number, Party, Reply, Terminal};
use lift_desk::{AskRefusal, ClerkSeat, Desk, DeskParts, Seat, ask_word, read_reply};
use lift_kiosk::{DeskPort, Port, Yield};
use std::alloc::{AllocError, Global};
use std::cell::Cell;

/// The reply of this place; Unknown after the last one.
fn reply_at(replies: &[u64], place: usize) -> Reply {
    let word = match replies.get(place) {
        Some(word) => *word,
        None => 0,
    };
    let read = read_reply(word);
    match &read {
        Some(reply) => *reply,
        None => Reply::Unknown,
    }
}

/// A terminal's port at a desk of its own. The clerk looks when the port rests, and answers with
/// the next of the replies; with Unknown after the last one.
#[derive(Drop)]
pub(crate) struct Served<'d> {
    desk: &'d Desk,
    port: DeskPort<'d>,
    clerk: ClerkSeat,
    /// As the desk's words of the first turn.
    replies: Vec<u64>,
    /// The clerk looks only after this many rests.
    pub idle: u32,
    /// What the clerk took, likewise.
    pub taken: Vec<u64>,
    /// How many asks were tried.
    asks: &'d Cell<u32>,
    ghost clerk_at: { IsClerkOf desk.now clerk },
    ghost some: { 0 < length desk.now },
}

impl<'d> Served<'d> {
    pub(crate) fn new(
        alloc: Global,
        desk: &'d Desk,
        seat: Seat,
        clerk: ClerkSeat,
        asks: &'d Cell<u32>,
    ) -> Self
        requires seat { IsSeatOf desk.now seat }
        requires clerk { IsClerkOf desk.now clerk }
    {
        let _count = desk.len();
        Served {
            desk,
            port: DeskPort::new(desk, seat, Yield),
            clerk,
            replies: Vec::new(alloc),
            idle: 0,
            taken: Vec::new(alloc),
            asks,
        }
    }

    /// The clerk's next reply, by its word. Whether there was memory for it.
    pub(crate) fn add_reply(&mut self, word: u64) -> bool
        ensures { self.new.port ≡ self.old.port }
    {
        self.replies.push(word).is_ok()
    }

    /// One turn of the clerk.
    pub(crate) fn turn(&mut self)
        ensures { self.new.port ≡ self.old.port }
    {
        let terminal = Terminal::default();
        if let Some(ask) = self.desk.look(&mut self.clerk, terminal) {
            let reply = reply_at(self.replies.as_slice(), self.taken.len());
            let _kept = self.taken.push(ask_word(1, ask.number, ask.body));
            self.desk.answer(&mut self.clerk, terminal, reply);
        }
    }
}

impl<'d> Port for Served<'d> {
    ghost use Rattle.lift_kiosk.specs.Desk.{port_view, place_of};

    ghost view = { λ s. port_view s.port.seat.view s.port.rests };

    ghost place = { λ s. place_of s.port };

    fn pending(&self) -> Option<Number> {
        self.port.pending()
    }

    fn ask(&mut self, number: Number, body: Body) -> Result<(), AskRefusal> {
        self.asks.set(self.asks.get().saturating_add(1));
        self.port.ask(number, body)
    }

    fn hear(&mut self) -> Option<Reply> {
        self.port.hear()
    }

    fn rest(&mut self) {
        self.port.rest();
        if self.idle > 0 {
            self.idle -= 1;
        } else {
            self.turn();
        }
    }
}

/// Asks and hears so often. Whether each ask was answered.
pub(crate) fn use_turns(port: &mut Served, times: u32) -> bool {
    for _ in 0..times {
        let body = Body::Call(Floor::default(), Party::default());
        let is_stored = port.ask(Number::default(), body).is_ok();
        port.turn();
        if port.hear().is_none() || !is_stored {
            return false;
        }
    }
    true
}

/// A desk of one terminal.
pub(crate) fn open(alloc: Global) -> Result<DeskParts, AllocError>
    ensures count { IfOk result (λ parts. (length parts.desk ≡ 1) × (vec_len parts.seats ≡ 1)) }
    ensures seats { IfOk result (λ parts. AreSeatsOf parts.desk parts.seats.items) }
    ensures clerk { IfOk result (λ parts. IsClerkOf parts.desk parts.clerk) }
{
    match Desk::open(alloc, 1) {
        Ok(parts) => Ok(parts),
        Err(_) => Err(AllocError),
    }
}

pub(crate) fn only_seat(_desk: &Desk, seats: &mut Vec<Seat>) -> Seat
    requires at { AreSeatsOf _desk.now seats.old.items }
    requires some { 0 < vec_len seats.old }
    ensures seat { IsSeatOf _desk.now result }
{
    seats.pop().unwrap()
}
