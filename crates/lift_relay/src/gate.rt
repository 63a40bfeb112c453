//! What says whether a run goes on, and an allocator that turns only where it said so.
//!
//! Only a turn asks the gate anew, once it told it what it did, and each call requires the answer that
//! allows it: so a thread that has an allocator can't have a turn after a no before all that was sent
//! was received, also where it never returns, except within a turn. The allocator turns in place, and
//! a turn copies nothing of it.

ghost use Rattle.std.specs.Prelude.{◌≡◌, ◌<◌, ◌≤◌, ℕ, [], length, true, false};
ghost use Rattle.lift_clerk.specs.declared.counts.Counts.{Counts};
ghost use Rattle.lift_parts.specs.Allocator.{IsAllocation, IsFullTurn};
ghost use Rattle.lift_parts.specs.Turns.{IsSending};

use crate::allocator::Allocator;
use crate::flusher::Flusher;
use crate::refused::{BothRun, NoThread};
use lift_disk::Disk;
use lift_policy::Policy;
use std::marker::Model;
use std::sync::Wait;
use std::thread;

/// Says whether both parts go on, and is told how far they are, so that their threads may wait here
/// in place of turning for nothing. What a run sends and receives after the last turn of both is
/// not told.
pub trait Gate {
    // What is known once it has said to go on.
    ghost opened: { Self → Type 0 } = { λ _. Unit {0} };

    // What is known once it has said not to go on.
    ghost closed: { Self → Type 0 } = { λ _. Unit {0} };

    // What is known once it was told that the allocator idles, or how many batches it has sent,
    ghost knows_allocator_idle: { Self → Type 0 } = { λ _. Unit {0} };

    ghost knows_sent: { Self → ℕ → Type 0 } = { λ _ _. Unit {0} };

    // and that the flusher idles, or how many it has received.
    ghost knows_flusher_idle: { Self → Type 0 } = { λ _. Unit {0} };

    ghost knows_flushed: { Self → ℕ → Type 0 } = { λ _ _. Unit {0} };

    // What is known once it was told that both parts have a thread.
    ghost knows_both_run: { Self → Type 0 } = { λ _. Unit {0} };

    /// It is asked between turns, by both threads.
    fn go_on(&self) -> bool
        ensures goes { result ≡ true → opened self.now }
        ensures closes { result ≡ false → closed self.now };

    /// Both parts have a thread. It is told once, before the flusher's first turn, and not at all where
    /// the allocator's thread was refused.
    fn both_run(&self, both: BothRun)
        ensures { knows_both_run self.now };

    /// The allocator's turn sent nothing, and has nothing in hand. The next one looks at what was
    /// asked before this returns.
    fn allocator_idles<R: Wait>(&self, rt: &R)
        ensures { knows_allocator_idle self.now };

    /// The allocator has sent this many batches, the last ones in its last turn. The next turn
    /// looks at what was asked before this returns.
    fn has_sent<R: Wait>(&self, rt: &R, count: u64)
        ensures { knows_sent self.now count };

    /// The flusher's turn received nothing.
    fn flusher_idles<R: Wait>(&self, rt: &R)
        ensures { knows_flusher_idle self.now };

    /// The flusher has received this many batches, the last one in its last turn, and all of their
    /// commands are answered.
    fn has_flushed<R: Wait>(&self, rt: &R, count: u64)
        ensures { knows_flushed self.now count };
}

/// An allocator that has not begun to turn.
#[derive(Drop)]
pub(crate) struct AskingAllocator<'d, 'b, P: Policy + Drop> {
    allocator: Allocator<'d, 'b, P>,
}

/// An allocator that has a turn where its gate has last said to go on. Once it has said not to, it may
/// send what it has in hand.
#[derive(Drop)]
pub(crate) struct GatedAllocator<'d, 'b, P: Policy + Drop> {
    allocator: Allocator<'d, 'b, P>,
    goes_on: bool,
}

impl<'d, 'b, P: Policy + Drop> Model for AskingAllocator<'d, 'b, P> {
    ghost use Rattle.lift_parts.specs.Allocator.{AllocatorState};

    ghost Value = { AllocatorState P };

    ghost view = { λ s. s.allocator };
}

impl<'d, 'b, P: Policy + Drop> AskingAllocator<'d, 'b, P> {
    pub(crate) fn new(allocator: Allocator<'d, 'b, P>) -> Self
        ensures { result ≡ allocator.entry }
    {
        AskingAllocator { allocator }
    }

    /// The allocator, to turn in place, with the gate's first answer.
    pub(crate) fn begin<G: Gate>(self, gate: &G) -> GatedAllocator<'d, 'b, P>
        ensures same { result.allocator ≡ self.entry }
        ensures goes { result.goes_on ≡ true → G.opened gate.now }
        ensures closes { result.goes_on ≡ false → G.closed gate.now }
    {
        GatedAllocator {
            allocator: self.allocator,
            goes_on: gate.go_on(),
        }
    }

    /// The allocator, where no thread could be made for it.
    pub(crate) fn back(self, _refused: NoThread) -> Allocator<'d, 'b, P>
        ensures { result ≡ self.entry }
    {
        self.allocator
    }
}

impl<'d, 'b, P: Policy + Drop> GatedAllocator<'d, 'b, P> {
    /// Whether the gate has last said to go on.
    pub(crate) fn goes_on(&self) -> bool
        ensures { result ≡ self.now.goes_on }
    {
        self.goes_on
    }

    /// One turn. Tells the gate what it did, and asks it again. Of a turn that sent nothing and has a
    /// batch in hand there is nothing to tell.
    pub(crate) fn turn<R: Wait, G: Gate>(&mut self, rt: &R, gate: &G)
        requires opened { self.old.goes_on ≡ true }
        ensures turns { (counts : Counts) × IsAllocation (P.chooses self.old.allocator.policy)
            self.old.allocator self.new.allocator counts }
        // How many batches were sent, where the turn sent any.
        ensures sent { length self.old.allocator.end.sent < length self.new.allocator.end.sent
            → G.knows_sent gate.now (length self.new.allocator.end.sent) }
        ensures idle { length self.new.allocator.end.sent ≤ length self.old.allocator.end.sent
            → self.new.allocator.hand ≡ [] → G.knows_allocator_idle gate.now }
        ensures goes { self.new.goes_on ≡ true → G.opened gate.now }
        ensures closes { self.new.goes_on ≡ false → G.closed gate.now }
    {
        let sent_before = self.allocator.sent();
        let _counts = self.allocator.turn(rt);
        let sent = self.allocator.sent();
        if sent > sent_before {
            gate.has_sent(rt, sent);
        } else if self.allocator.has_batch_in_hand() {
            thread::yield_now();
        } else {
            gate.allocator_idles(rt);
        }
        self.goes_on = gate.go_on();
    }

    /// Tries once to send the batch that is in hand, if there is one. Whether none is left.
    pub(crate) fn send_hand<R: Wait>(&mut self, rt: &R) -> bool
        requires closed { self.old.goes_on ≡ false }
        ensures sent { result ≡ true → (self.new.allocator.hand ≡ [])
            × IsSending self.old.allocator self.new.allocator }
        ensures full { result ≡ false → IsFullTurn self.old.allocator self.new.allocator
            (record { taken = 0; accepted = 0 }) }
        ensures closed { self.new.goes_on ≡ false }
    {
        self.allocator.send_hand(rt)
    }

    /// How many batches were sent.
    pub(crate) fn sent(&self) -> u64
        ensures { result ≡ length self.now.allocator.end.sent }
    {
        self.allocator.sent()
    }

    /// The allocator, once all that it sent was received.
    pub(crate) fn drained<D: Disk, K>(self, flusher: &Flusher<'_, '_, D, K>) -> Allocator<'d, 'b, P>
        requires closed { self.goes_on ≡ false }
        requires nothing_in_hand { self.allocator.hand ≡ [] }
        requires all_received { length self.allocator.end.sent
            ≡ length flusher.now.end.received }
        ensures { result ≡ self.entry.allocator }
    {
        self.allocator
    }
}
