//! The part that makes batches safe and answers.

ghost use Rattle.std.specs.Prelude.{◌≡◌, ◌<◌, ◌⊎◌, ◌↔◌, length, true, false};
ghost use Rattle.lift_desk.specs.Rule.{IsInOrder};
ghost use Rattle.lift_desk.specs.Seats.{IsClerkOf, IsSeatOf, OwesNothing, seat_with, clerk_with};
ghost use Rattle.lift_desk.specs.Seats.{view_at, with_looks_of};
ghost use Rattle.lift_desk.specs.Steps.{with_told_answers, with_told_asks, lists_of};
ghost use Rattle.lift_parts.specs.Batch.{BatchState};
ghost use Rattle.lift_parts.specs.Queued.{Queued};
ghost use Rattle.lift_parts.specs.Parts.{AreOfOne};
ghost use Rattle.lift_parts.specs.Flusher.{IsFlusher, AllAnsweredBy, IsBatchTurn};
ghost use Rattle.lift_parts.specs.Turns.{IsFlush};
ghost use Rattle.lift_parts.specs.History.{FlushKeeps};
ghost use Rattle.lift_relay.specs.Notified.{FailureNotified};

use crate::allocator::Allocator;
use crate::line::ReceiveEnd;
use crate::relay::Key;
use crate::settling::Settler;
use crate::witness::{Notifies, Witness};
use lift_clerk::Clerk;
use lift_desk::{ClerkSeat, Desk, Lender, Seat};
use lift_disk::Disk;
use lift_keeper::{KeeperFault, Writer};
use lift_parts::{FlushCounts, flushes_are_steps};
use lift_policy::Policy;
use lift_register::Register;
use std::marker::Model;
use std::sync::Wait;

/// Makes batches safe in the order in which they were sent, and answers them. Contracts see its
/// desk's tables, its seats there, its writer and its end of the line. Its own call, which may wait,
/// has the end of the line alone; the seats and the writer are its settler's. Only who has a `K` joins
/// it to a clerk.
#[derive(Drop)]
pub struct Flusher<'d, 'b, D: Disk, K = Key> {
    settler: Settler<'d, 'b, D, K>,
    end: ReceiveEnd,
}

impl<'d, 'b, D: Disk, K> Model for Flusher<'d, 'b, D, K> {
    ghost use Rattle.lift_parts.specs.Flusher.{FlusherState, IsFlusher};

    ghost Value = { FlusherState D };

    ghost use Rattle.lift_relay.specs.FlusherInside.{seen};

    ghost view = { seen };

    ghost invariant = { λ f. IsFlusher (seen f) };
}

impl<'d, 'b, D: Disk, K> Flusher<'d, 'b, D, K> {
    /// The part that makes safe of a clerk that was just split, at the end of a line.
    pub(crate) fn new(
        desk: &'d Desk,
        seat: ClerkSeat<Lender>,
        writer: Writer<'b, D>,
        end: ReceiveEnd,
    ) -> Self
        requires seated { IsClerkOf desk.now seat }
        requires of_building { end.building ≡ writer.plan }
        requires at_desk { end.desk ≡ desk.now }
        requires safe { writer.is_broken ≡ false → writer.register ≡ end.state.register }
        requires all_answered { AllAnsweredBy seat end.turns }
        ensures value { result ≡ record {
          desk = desk.now;
          seat = seat;
          writer = writer.entry;
          end = end;
        } }
        ensures flusher { IsFlusher result }
    {
        Flusher {
            settler: Settler::new(desk, seat, writer),
            end,
        }
    }

    /// How many batches were received.
    pub fn received(&self) -> u64
        ensures { result ≡ length self.now.end.received }
    {
        self.end.count()
    }

    /// Whether it took an ask that it has not answered, of any terminal. Between its turns there is
    /// none.
    pub fn owes(&self) -> bool
        ensures value { (result ≡ false) ↔ OwesNothing self.now.seat }
        ensures none { result ≡ false }
    {
        self.settler.owes()
    }

    /// Whether what is safe is this register, or a call of the device has failed since it was last
    /// opened.
    pub fn may_join(&self, register: &Register) -> bool
        ensures value { (result ≡ true)
            ↔ ((self.now.writer.is_broken ≡ true) ⊎ (register.now ≡ self.now.writer.register)) }
        // Where nothing has failed, what is safe is what was received.
        ensures safe { self.now.writer.is_broken ≡ false
            → self.now.writer.register ≡ self.now.end.state.register }
    {
        self.settler.may_join(register)
    }

    /// Whether a call of the device has failed since it was last opened.
    pub fn is_broken(&self) -> bool
        ensures { result ≡ self.now.writer.is_broken }
    {
        self.settler.is_broken()
    }

    /// Its writer, as it is, for the key. It receives and answers no more.
    #[inline(never)]
    pub fn into_writer(self, key: K) -> Writer<'b, D>
    where
        K: Drop,
        ensures { result ≡ self.entry.writer }
    {
        self.settler.into_writer(key)
    }

    /// Compares it with the other part, at the other end of its line. Both stay as they are.
    pub(crate) fn compare<P: Policy + Drop>(&mut self, allocator: &mut Allocator<'_, '_, P>)
        requires of_one { AreOfOne allocator.old self.old }
        ensures flusher { self.new ≡ self.old }
        ensures allocator { allocator.new ≡ allocator.old }
        ensures queued { Queued allocator.new.end self.new.end }
    {
        allocator.compare(&mut self.end)
    }

    /// Tells it and the other part, at the other end of its line, how much was sent and how much
    /// was received.
    pub(crate) fn tell<P: Policy + Drop>(&mut self, allocator: &mut Allocator<'_, '_, P>)
        requires of_one { AreOfOne allocator.old self.old }
        ensures flusher { self.new
            ≡ record self.old { end = record self.old.end { known = allocator.old.end.sent } } }
        ensures allocator { allocator.new ≡ record allocator.old { end = record allocator.old.end { gone = self.old.end.received } } }
        ensures queued { Queued allocator.new.end self.new.end }
    {
        allocator.tell(&mut self.end)
    }

    /// Tells it what a terminal has asked so far, and the terminal what was answered there so far. By
    /// the desk's rule what its seats took begins what the terminal asked, and what that heard begins
    /// what was answered there. It stores nothing.
    pub fn tell_terminal(&mut self, seat: &mut Seat)
        requires { IsSeatOf self.old.desk seat.old }
        ensures seat { seat.new ≡ seat_with seat.old
            (with_told_answers seat.old.view (view_at self.old.seat seat.old.terminal).answered) }
        ensures told { self.new ≡ record self.old {
          seat = clerk_with self.old.seat seat.old.terminal
              (with_told_asks (view_at self.old.seat seat.old.terminal) seat.old.view.asked);
        } }
        // What the two have stored fits together.
        ensures in_order { IsInOrder
            (lists_of seat.old.view (view_at self.old.seat seat.old.terminal)) }
        ensures seat_stays { IsSeatOf self.new.desk seat.new }
    {
        self.settler.tell_terminal(seat)
    }

    /// The clerk of both parts, for the key.
    pub(crate) fn join<P: Policy + Drop>(
        self,
        allocator: Allocator<'d, 'b, P>,
        key: K,
    ) -> Clerk<'d, 'b, D, P>
    where
        K: Drop,
        requires desk { self.desk ≡ allocator.desk }
        requires answered { OwesNothing self.seat }
        requires plan { self.writer.plan ≡ allocator.plan }
        requires equal { (self.writer.is_broken ≡ true)
            ⊎ (allocator.state.register ≡ self.writer.register) }
        ensures { result ≡ record {
          desk = self.entry.desk;
          seat = with_looks_of allocator.entry.seat self.entry.seat;
          keeper = record { state = allocator.entry.state; writer = self.entry.writer };
          policy = allocator.entry.policy;
        } }
    {
        allocator.join(self.settler, key)
    }

    /// One turn: receives one batch, makes it safe, then looks once more at each of its commands'
    /// terminals, finds just that command there, and answers it with the batch's reply. After a device
    /// fault it answers Unknown to that batch and all later ones. The witness is notified of that fault
    /// in the call that never waits, by which the batch is settled.
    ///
    /// `Journal(Disk)` where a call of the device failed, `Journal(Broken)` while it is broken,
    /// also where the line was empty.
    pub fn turn<R: Wait, V: Witness>(
        &mut self,
        rt: &R,
        witness: &mut V,
    ) -> Result<FlushCounts, KeeperFault>
    where
        K: Notifies<V>,
        // What it received, committed and answered, and the calls of the device that this took.
        ensures turn { IsFlush D.state self.old self.new result }
        // A batch that it was told of, it receives.
        ensures finds { length self.old.end.received < length self.old.end.known
            → (batch : BatchState) × IsBatchTurn self.old self.new batch result }
        // Where the device failed first, the witness was notified, once.
        ensures notified { FailureNotified V.is_notified
            self.old.writer.is_broken self.new.writer.is_broken witness.old witness.new }
        // Whatever had happened before, all that was given is kept at each moment, and what the turn
        // gives from its end on.
        ensures keeps { FlushKeeps D.state self.old self.new }
    {
        flushes_are_steps::<D>();
        let batch = match self.end.receive(rt) {
            Some(batch) => batch,
            None => return self.settler.rest(),
        };
        self.settler.settle(batch, witness)
    }
}
