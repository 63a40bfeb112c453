//! The part that takes asks and decides them.

ghost use Rattle.std.specs.Prelude.{◌≡◌, ◌↔◌, ◌⊎◌, ◌<◌, ◌+◌, [], ◌++◌, length, true, false};
ghost use Rattle.lift_desk.specs.Rule.{IsAhead};
ghost use Rattle.lift_desk.specs.Seats.{IsClerkOf, IsSeatOf, OwesNothing, clerk_with, view_at};
ghost use Rattle.lift_desk.specs.Seats.{with_looks_of};
ghost use Rattle.lift_desk.specs.Steps.{with_told_asks};
ghost use Rattle.lift_parts.specs.Batch.{turns_of};
ghost use Rattle.lift_parts.specs.Allocator.{IsAllocation, IsScanTurn, IsFullTurn, DecidesAlong};
ghost use Rattle.lift_parts.specs.Turns.{IsSameAllocator};
ghost use Rattle.lift_parts.specs.Queued.{Queued};

use crate::batch::Batch;
use crate::deciding::Scanner;
use crate::line::{ReceiveEnd, SendEnd};
use crate::settling::Settler;
use lift_base::MOST_BATCHES;
use lift_clerk::{Clerk, Counts};
use lift_decider::Decider;
use lift_desk::{Desk, Seat, TakeSeat};
use lift_disk::Disk;
use lift_policy::Policy;
use lift_register::Register;
use std::marker::Model;
use std::mem;
use std::sync::Wait;

/// Takes what terminals ask, decides it, and sends it on in batches, ahead of the answers. Its own
/// call, which may wait, has the end and a batch; what takes and decides is its scanner's. Contracts
/// see its desk's tables, its seats there, what it decides on, its end of the line, and a batch that
/// the line had no room for.
#[derive(Drop)]
pub struct Allocator<'d, 'b, P: Policy + Drop> {
    scanner: Scanner<'d, 'b, P>,
    end: SendEnd,
    hand: Option<Batch>,
}

impl<'d, 'b, P: Policy + Drop> Model for Allocator<'d, 'b, P> {
    ghost use Rattle.lift_parts.specs.Allocator.{AllocatorState, IsAllocator};

    ghost Value = { AllocatorState P };

    ghost use Rattle.lift_relay.specs.AllocatorInside.{seen};

    ghost view = { seen };

    ghost invariant = { λ a. IsAllocator (P.chooses a.scanner.policy) (seen a) };
}

impl<'d, 'b, P: Policy + Drop> Allocator<'d, 'b, P> {
    ghost use Rattle.lift_relay.specs.AllocatorInside.{SendsHand};

    /// The part that decides of a clerk that was just split, at the beginning of a line.
    pub(crate) fn new(
        desk: &'d Desk,
        seat: TakeSeat,
        decider: Decider<'b>,
        policy: P,
        end: SendEnd,
    ) -> Self
        requires seated { IsClerkOf desk.now seat }
        requires of_building { end.building ≡ decider.plan }
        requires at_desk { end.desk ≡ desk.now }
        requires all_sealed { decider.state.batch ≡ [] }
        requires first { end.sent ≡ [] }
        requires on { decider.state ≡ end.state }
        requires turns { turns_of seat ≡ end.turns }
        ensures { result ≡ record {
          desk = desk.now;
          seat = seat;
          plan = decider.entry.plan;
          state = decider.entry.state;
          start = decider.entry.state;
          policy = policy;
          end = end;
          hand = [];
        } }
    {
        Allocator {
            scanner: Scanner::new(desk, seat, decider, policy),
            end,
            hand: None,
        }
    }

    /// How many batches were sent.
    pub fn sent(&self) -> u64
        ensures { result ≡ length self.now.end.sent }
    {
        self.end.count()
    }

    /// Whether the line had no room for its last batch, which waits to be sent.
    pub fn has_batch_in_hand(&self) -> bool
        ensures { (result ≡ false) ↔ (self.now.hand ≡ []) }
    {
        self.hand.is_some()
    }

    /// What it shows of the calls: those of all entries that it accepted.
    pub fn register(&self) -> &Register
        ensures value { result.now ≡ self.now.state.register }
        // Whatever was sent, and then the batch in hand, is a run of the rules from the split on,
        // each batch on the state that those before it left.
        ensures decides { DecidesAlong self.now.plan (P.chooses self.now.policy) self.now.start
            (self.now.end.sent ++ self.now.hand) self.now.state }
        ensures sealed { self.now.state.batch ≡ [] }
        // With no batch in hand decisions read what is after all that was sent.
        ensures behind { self.now.hand ≡ [] → self.now.state ≡ self.now.end.state }
    {
        self.scanner.register()
    }

    /// Tells it what a terminal has asked so far: after its next turn the last of it, or a later
    /// ask, is taken. By the desk's rule what its seats took there was asked. It stores nothing.
    pub fn tell_terminal(&mut self, seat: &mut Seat)
        requires { IsSeatOf self.old.desk seat.old }
        ensures seat { seat.new ≡ seat.old }
        ensures told { self.new ≡ record self.old {
          seat = clerk_with self.old.seat seat.old.terminal
              (with_told_asks (view_at self.old.seat seat.old.terminal) seat.old.view.asked);
        } }
        // Each word that it took there was asked, in rising turns.
        ensures asked { IsAhead seat.old.view.asked
            (view_at self.old.seat seat.old.terminal).taken }
    {
        self.scanner.tell_terminal(seat)
    }

    /// Compares it with the other end of its line. Both stay as they are.
    pub(crate) fn compare(&mut self, receiver: &mut ReceiveEnd)
        requires line { receiver.old.line ≡ self.old.end.line }
        requires building { receiver.old.building ≡ self.old.plan }
        requires desk { receiver.old.desk ≡ self.old.desk }
        ensures allocator { self.new ≡ self.old }
        ensures receiver { receiver.new ≡ receiver.old }
        ensures queued { Queued self.new.end receiver.new }
    {
        self.end.compare(receiver)
    }

    /// Tells it how much was received, and the other end of its line how much was sent.
    pub(crate) fn tell(&mut self, receiver: &mut ReceiveEnd)
        requires line { receiver.old.line ≡ self.old.end.line }
        requires building { receiver.old.building ≡ self.old.plan }
        requires desk { receiver.old.desk ≡ self.old.desk }
        ensures allocator { self.new
            ≡ record self.old { end = record self.old.end { gone = receiver.old.received } } }
        ensures receiver { receiver.new ≡ record receiver.old { known = self.old.end.sent } }
        ensures queued { Queued self.new.end receiver.new }
    {
        self.end.tell(receiver)
    }

    /// The clerk of this part and of the half of the other that answers, for the key.
    pub(crate) fn join<D: Disk, K: Drop>(
        self,
        settler: Settler<'d, 'b, D, K>,
        key: K,
    ) -> Clerk<'d, 'b, D, P>
        requires desk { settler.desk ≡ self.desk }
        requires answered { OwesNothing settler.seat }
        requires plan { settler.writer.plan ≡ self.plan }
        requires equal { (settler.writer.is_broken ≡ true)
            ⊎ (self.state.register ≡ settler.writer.register) }
        ensures { result ≡ record {
          desk = settler.entry.desk;
          seat = with_looks_of self.entry.seat settler.entry.seat;
          keeper = record { state = self.entry.state; writer = settler.entry.writer };
          policy = self.entry.policy;
        } }
    {
        self.scanner.join(settler, key)
    }

    /// Tries once to send the batch that is in hand, if there is one. Whether none is left.
    pub(crate) fn send_hand<R: Wait>(&mut self, rt: &R) -> bool
        ensures sent { result ≡ true → SendsHand self.old self.new }
        ensures full { result ≡ false
            → IsFullTurn self.old self.new (record { taken = 0; accepted = 0 }) }
    {
        let _terminals = self.scanner.terminals();
        match self.hand.take() {
            Some(batch) => match self.end.send(rt, batch) {
                Ok(()) => true,
                Err(batch) => {
                    self.hand = Some(batch);
                    false
                }
            },
            None => true,
        }
    }

    /// One turn: sends the batch that is in hand, and takes nothing where the line has no room for
    /// it. Else it looks once at each terminal, in rising order, decides what was asked, and sends
    /// it as one batch, refusals and repeats too, if anything was taken; a batch that the line has
    /// no room for stays in hand.
    pub fn turn<R: Wait>(&mut self, rt: &R) -> Counts
        ensures turns { IsAllocation (P.chooses self.old.policy) self.old self.new result }
        // Where, as far as it was told, fewer than four batches wait in the line, it looks.
        ensures looks { length self.old.end.sent < length self.old.end.gone + MOST_BATCHES
            → IsScanTurn (P.chooses self.old.policy) self.old self.new result }
        // Where there is room for the batch in hand and one more, none is left in hand.
        ensures sends { length self.old.end.sent + length self.old.hand
            < length self.old.end.gone + MOST_BATCHES → self.new.hand ≡ [] }
        ensures same { IsSameAllocator self.old self.new }
    {
        self.send_and_scan(rt)
    }

    /// The turn itself, under one clause for both of its ends.
    fn send_and_scan<R: Wait>(&mut self, rt: &R) -> Counts
        ensures { IsAllocation (P.chooses self.old.policy) self.old self.new result }
    {
        if !self.send_hand(rt) {
            return Counts {
                taken: 0,
                accepted: 0,
            };
        }
        let (counts, batch) = self.scanner.scan(&self.end);
        let _none = mem::replace(&mut self.hand, batch);
        let _sent = self.send_hand(rt);
        counts
    }
}
