//! The connections that are open, and how many have ended. How many are to end is not kept with them:
//! who asks has it of the serving's one `ServingTerms`, so that what a lock holds can't be of another number.

ghost use Rattle.std.specs.Prelude.{◌≡◌, ◌≤◌, ℕ, ◌+◌, ◌%◌, ◌^◌, ◌∷◌, ◌++◌, [], None, Some};
ghost use Rattle.std.specs.Prelude.{IfOk, IfErr, IfSome, IfNone, IsErr, IsSome, IsTrue, OnErr, ◌↔◌};
ghost use Rattle.std.specs.Prelude.{not, ◌==◌, ◌≢◌, filter, true, false};
ghost use Rattle.std.specs.Result.{result_err};
ghost use Rattle.lift_serve.specs.Open.{AreOver, IsEndAt, ended_in, earlier_of, one_more, reported_after};

use super::shortages::{Shortage, push};
use super::terms::ServingTerms;
use crate::attending::Attendance;
use crate::over::Over;
use crate::serving::ServeFault;
use crate::socket::{Arrival, Connection, Peer};
use std::alloc::Global;
use std::marker::Model;
use std::net::Shutdown;
use std::sync::Arc;
use std::thread::JoinHandle;

/// So many connections may be open whose first line is still to come.
const MOST_WAITING: usize = 256;

/// Evidence that a connection was let in. It asks for one seat. Only `enter` makes one.
#[derive(Drop)]
pub struct Ticket {
    number: u64,
}

impl Model for Ticket {
    ghost use Rattle.std.specs.Prelude.{ℕ};

    ghost Value = { ℕ };

    ghost view = { λ t. t.number };
}

impl Ticket {
    /// The connection's number.
    pub fn number(&self) -> u64
        ensures { result ≡ self.now }
    {
        self.number
    }
}

/// Evidence that the end of a connection that was let in is to be counted. It can't be let go: a
/// thread whose work returns that one was counted takes it, or the count itself. Only `enter` makes
/// one.
pub(crate) struct DueEnd {
    number: u64,
}

impl DueEnd {
    /// The connection's number.
    pub(crate) fn number(&self) -> u64
        ensures { result ≡ self.now.number }
    {
        self.number
    }

    /// The work of this thread counts the end: it returns a `CountedEnd`.
    pub(crate) fn counted_by(self, thread: JoinHandle<CountedEnd>) {
        let DueEnd { number: _ } = self;
        let _runs_on = thread;
    }

    /// The end was counted.
    pub(crate) fn counted(self, left: CountedEnd)
        requires { left.number ≡ self.number }
    {
        let DueEnd { number: _ } = self;
        let _used = left;
    }
}

/// Evidence that the end of the connection of this number was counted. Only `leave` makes one.
#[derive(Drop)]
pub(crate) struct CountedEnd {
    number: u64,
}

/// Evidence that all connections were shut down. Only `close` makes one.
#[derive(Drop)]
pub(crate) struct AllShut {
    made: (),
}

/// How a serving ended: what it was refused, if anything was, and how the accepting was over. Only its
/// `Connections` make one, which end by it: so nobody hides what was refused it, or tells more.
#[derive(Drop)]
pub struct ServingEnd {
    fault: Option<ServeFault>,
    over: Over,
}

impl Model for ServingEnd {
    ghost use Rattle.lift_serve.specs.Open.{ServingEndState, ended_in};

    ghost Value = { ServingEndState };

    ghost view = { λ e. record { fault = e.fault; ended = ended_in e.over } };
}

impl ServingEnd {
    /// Its fault: that no thread could be had for the serving itself, and else the first that was
    /// refused to the rest.
    pub fn fault(&self) -> Option<ServeFault>
        ensures { result ≡ self.now.fault }
    {
        self.fault
    }
}

/// The connections that are open, how many have ended, and the first shortage. Contracts see the
/// numbers of those that are open, the next number, how many have ended, whether all were given up,
/// and the first shortage. They can't be let go: what comes of the serving tells it.
pub(crate) struct Connections {
    open: Vec<Arc<Peer>>,
    next: u64,
    ended: u32,
    given_up: bool,
    first: Option<ServeFault>,
}

impl Model for Connections {
    ghost use Rattle.std.specs.Prelude.{map};
    ghost use Rattle.std.specs.Arc.{arc_value};
    ghost use Rattle.lift_serve.specs.Open.{OpenState};
    ghost use Rattle.lift_serve.specs.declared.socket.Peer.{Peer};

    ghost Value = { OpenState };

    ghost view = { λ c. record {
      numbers = map (λ p. (arc_value {X = Peer} p).number) c.open.items;
      next = c.next;
      ended = c.ended;
      given_up = c.given_up;
      shortage = c.first;
    } };
}

impl Connections {
    /// None is open, none has ended, and nothing was refused. Only `ReadyGroup::begun` calls this: each
    /// serving has one.
    pub(super) fn new(alloc: Global) -> Self
        ensures { result ≡ record {
          numbers = [];
          next = 0;
          ended = 0;
          given_up = false;
          shortage = None;
        } }
    {
        Connections {
            open: Vec::new(alloc),
            next: 0,
            ended: 0,
            given_up: false,
            first: None,
        }
    }

    /// Whether all have ended that were to end, or all were given up.
    pub(crate) fn is_over(&self, bound: &ServingTerms) -> Option<Over>
        ensures over { IsSome result ↔ AreOver bound.now.sessions self.now }
        ensures ended { IfSome result (IsEndAt bound.now) }
    {
        if self.ended >= bound.sessions() {
            return Some(Over::last(self, bound));
        }
        if self.given_up {
            return Some(Over::given_up(self, bound));
        }
        None
    }

    /// Whether none is open.
    pub(crate) fn is_empty(&self) -> bool
        ensures { IsTrue result ↔ (self.now.numbers ≡ []) }
    {
        self.open.is_empty()
    }

    /// Somebody who came is let in: a connection is open from now on, by the number of its ticket. Where
    /// too many wait with their first line still to come, the one that has waited longest is closed.
    /// Nobody is where all have ended that were to end, or all were given up; and where there is no memory for it,
    /// that is noted, and the connection has ended.
    pub(crate) fn enter(
        &mut self,
        alloc: Global,
        bound: &ServingTerms,
        arrival: Arrival,
    ) -> Result<Option<(Connection, DueEnd)>, Over>
        ensures over { IsErr result ↔ AreOver bound.now.sessions self.old }
        ensures left_out { OnErr result (self.new ≡ self.old) }
        ensures ended { IfErr result (IsEndAt bound.now) }
        ensures let_in { IfOk result (λ entered. IfSome entered (λ came.
            (came.0.ticket ≡ self.old.next) × (came.1.number ≡ self.old.next)
            × (self.new ≡ record self.old {
              numbers = self.old.numbers ++ self.old.next ∷ [];
              next = (self.old.next + 1) % 2 ^ 64;
            }))) }
        ensures refused { IfOk result (λ entered. IfNone entered (self.new ≡ record self.old {
          ended = one_more bound.now.sessions self.old.ended;
          shortage = earlier_of self.old.shortage (Some ServeFault.Memory);
        })) }
    {
        if let Some(over) = self.is_over(bound) {
            arrival.close(&over);
            return Err(over);
        }
        match self.admit(alloc, arrival) {
            Ok(entered) => {
                self.make_room();
                Ok(Some(entered))
            }
            Err(shortage) => {
                self.note(Err(shortage));
                self.ended(bound);
                Ok(None)
            }
        }
    }

    /// Whoever came has a connection from now on.
    fn admit(&mut self, alloc: Global, arrival: Arrival) -> Result<(Connection, DueEnd), Shortage>
        ensures let_in { IfOk result (λ came. (came.0.ticket ≡ self.old.next)
            × (came.1.number ≡ self.old.next) × (self.new ≡ record self.old {
              numbers = self.old.numbers ++ self.old.next ∷ [];
              next = (self.old.next + 1) % 2 ^ 64;
            })) }
        ensures unchanged { OnErr result (self.new ≡ self.old) }
        ensures lack { IfErr result (λ shortage. shortage ≡ ServeFault.Memory) }
    {
        let number = self.next;
        let (connection, peer) = arrival.open(alloc, Ticket { number })?;
        push(&mut self.open, peer)?;
        self.next = number.wrapping_add(1);
        Ok((connection, DueEnd { number }))
    }

    /// The connection of this number has ended, which was attended to, or wasn't because of this shortage.
    pub(crate) fn leave(
        &mut self,
        bound: &ServingTerms,
        number: u64,
        attended: Result<Attendance<'_>, Shortage>,
    ) -> CountedEnd
        ensures left { self.new ≡ record self.old {
          numbers = filter (λ n.
              not (n == number)) self.old.numbers;
          ended = one_more bound.now.sessions self.old.ended;
          shortage = earlier_of self.old.shortage (result_err attended.entry);
        } }
        ensures number { result.number ≡ number }
    {
        self.open.retain(|open| open.number() != number);
        self.note(attended);
        self.ended(bound);
        CountedEnd { number }
    }

    /// Keeps the first shortage in mind.
    fn note(&mut self, attended: Result<Attendance<'_>, Shortage>)
        ensures { self.new ≡ record self.old {
          shortage = earlier_of self.old.shortage (result_err attended.entry);
        } }
    {
        match attended {
            Ok(_attended) => {}
            Err(shortage) => {
                let fault = shortage.noted();
                if self.first.is_none() {
                    self.first = Some(fault);
                }
            }
        }
    }

    /// One connection more has ended. After the last one that is to end no more are accepted, and
    /// nothing more is read from the others.
    fn ended(&mut self, bound: &ServingTerms)
        ensures { self.new ≡ record self.old { ended = one_more bound.now.sessions self.old.ended } }
    {
        if self.ended >= bound.sessions() {
            return;
        }
        self.ended += 1;
        if self.ended == bound.sessions() {
            self.turn_away(bound, &Over::last(self, bound));
        }
    }

    /// No more are to end: as after the last one that was to.
    pub(crate) fn give_up(&mut self, bound: &ServingTerms, over: &Over)
        requires { IsErr over.now }
        ensures { self.new ≡ record self.old { given_up = true } }
    {
        self.given_up = true;
        self.turn_away(bound, over);
    }

    /// No more are accepted, and nothing more is read from those that are open: who waits for a line
    /// finds the end, and the others look at this before each read.
    fn turn_away(&self, bound: &ServingTerms, over: &Over) {
        bound.end_reading(over);
        self.shut(Shutdown::Read);
        bound.listening().shut(over);
    }

    /// Shuts down all that are open, that way.
    fn shut(&self, how: Shutdown) {
        for open in self.open.iter() {
            open.shut(how);
        }
    }

    /// Closes all that are open, whatever they wait for: no more are accepted.
    pub(crate) fn close(&self, _over: &Over) -> AllShut {
        self.shut(Shutdown::Both);
        AllShut { made: () }
    }

    /// Closes whoever has waited longest of those whose first line is still to come. Whether there was
    /// one.
    pub(crate) fn send_one_away(&self) -> bool {
        for open in self.open.iter() {
            if open.send_away() {
                return true;
            }
        }
        false
    }

    /// So many have their first line still to come.
    fn waiting(&self) -> usize {
        let mut count = 0usize;
        for open in self.open.iter() {
            if open.is_awaited() {
                count = count.saturating_add(1);
            }
        }
        count
    }

    /// Where more wait with their first line still to come than may, one is closed.
    fn make_room(&self) {
        if self.waiting() > MOST_WAITING {
            let _closed = self.send_one_away();
        }
    }

    /// How the serving ended whose accepting was over so. Told is that all were given up, and else the
    /// first shortage.
    pub(crate) fn into_end(self, over: Over) -> ServingEnd
        ensures fault { result.fault ≡ reported_after over self.shortage }
        ensures ended { result.ended ≡ ended_in over }
    {
        let Connections {
            open: _,
            next: _,
            ended: _,
            given_up: _,
            first,
        } = self;
        let fault = if over.have_ended() {
            first
        } else {
            Some(ServeFault::Thread)
        };
        ServingEnd { fault, over }
    }
}
