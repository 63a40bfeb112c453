//! A queue of four batches with one end that sends and one that receives.
ghost use Rattle.std.specs.Prelude.{◌≡◌, ◌<◌, length, MatchResult, MatchOption, IfOk};
ghost use Rattle.lift_parts.specs.Line.{SendsOne, ReceivesOne, IsNextBatch, IsLine, FindsNoRoom};
ghost use Rattle.lift_parts.specs.Line.{FindsNone, most_batches};
ghost use Rattle.lift_parts.specs.Queued.{Queued};

use crate::basis::Basis;
use crate::batch::Batch;
use crate::side::Side;
use crossbeam_queue::protocol::{Join, Lesson, Outcome, Protocol, Split};
use crossbeam_queue::{Pass, RuledArrayQueue};
use lift_base::MOST_BATCHES;
use lift_building::Building;
use lift_desk::Desk;
use lift_memory::{Memory, passed_queue, two_owners};
use std::alloc::Global;
use std::collections::LinkedList;
use std::marker::Model;
use std::sync::Wait;

/// What an end knows: whether it sends or receives, what went through it, and from where the
/// batches go on. No value of it is made.
pub struct EndView {
    /// The line has begun: it was told its building, its desk and its first state.
    pub begun: bool,
    pub sends: bool,
    pub receives: bool,
    pub sent: LinkedList<Batch>,
    pub received: LinkedList<Batch>,
    /// What was received by the last push.
    pub gone: LinkedList<Batch>,
    /// What was sent by the last pop.
    pub known: LinkedList<Batch>,
    pub building: Building,
    pub desk: Desk,
    /// What decisions read after all that was sent, and after all that was received.
    pub ahead: Basis,
    pub behind: Basis,
    /// The turns of the terminals after all that was sent, and after all that was received.
    pub turns_ahead: LinkedList<u64>,
    pub next_turns: LinkedList<u64>,
}

// What holds of the line between the two parts: batches come in the order in which they were sent.
impl Protocol<Batch, EndView> for EndView {
    ghost use Rattle.lift_relay.specs.Rule.{IsLineSound, opening_view};

    ghost holds = { IsLineSound };

    ghost first = { opening_view };
}

// A batch without commands, which names the building, the desk and the first state, goes through.
impl Outcome<Batch, EndView> for EndView {
    ghost use Rattle.lift_relay.specs.Rule.{Opened};

    ghost then = { Opened };
}

// The first pass sends, and the new one receives. Before they part, the first learns what the queue
// holds.
impl Split<EndView> for EndView {
    ghost use Rattle.lift_relay.specs.Rule.{sending, receiving};

    ghost left = { sending };

    ghost right = { receiving };
}

impl Lesson<Batch, EndView> for EndView {
    ghost use Rattle.lift_relay.specs.Rule.{HoldsUnreceived};

    ghost fact = { HoldsUnreceived };
}

// The sending pass takes in the receiving one.
impl Join<EndView> for EndView {
    ghost use Rattle.lift_relay.specs.Rule.{with_both_passes, spent_pass};

    ghost both = { with_both_passes };

    ghost spent = { spent_pass };
}

type LineSide = Side<RuledArrayQueue<Batch, EndView, EndView>, Pass<Batch, EndView>>;

/// The allocator's end. Contracts see which line it is of, what was sent, and where that leads.
#[derive(Drop)]
pub struct SendEnd {
    side: LineSide,
    count: u64,
}

impl Model for SendEnd {
    ghost use Rattle.lift_parts.specs.Line.{SendState};

    ghost Value = { SendState };

    ghost use Rattle.lift_relay.specs.SendInside.{seen, IsSendEnd};

    ghost view = { seen };

    ghost invariant = { IsSendEnd };
}

// A batch joins at the back; where it does not, the sender learns what the queue holds.
impl Outcome<Batch, EndView> for SendEnd {
    ghost use Rattle.lift_relay.specs.Rule.{Sent};

    ghost then = { Sent };
}

impl Lesson<Batch, EndView> for SendEnd {
    ghost use Rattle.lift_relay.specs.Rule.{SentAllBut};

    ghost fact = { SentAllBut };
}

// It takes in the other end, and each learns where the other stands.
impl Join<EndView> for SendEnd {
    ghost use Rattle.lift_relay.specs.Rule.{told_both, spent_pass};

    ghost both = { told_both };

    ghost spent = { spent_pass };
}

/// The flusher's end. Contracts see which line it is of, what was received, and where that leads.
#[derive(Drop)]
pub struct ReceiveEnd {
    side: LineSide,
    count: u64,
}

impl Model for ReceiveEnd {
    ghost use Rattle.lift_parts.specs.Line.{ReceiveState};

    ghost Value = { ReceiveState };

    ghost use Rattle.lift_relay.specs.ReceiveInside.{seen, IsReceiveEnd};

    ghost view = { seen };

    ghost invariant = { IsReceiveEnd };
}

// A batch leaves at the front; where none does, the receiver learns what the queue holds.
impl Outcome<Batch, EndView> for ReceiveEnd {
    ghost use Rattle.lift_relay.specs.Rule.{Received};

    ghost then = { Received };
}

impl Lesson<Batch, EndView> for ReceiveEnd {
    ghost use Rattle.lift_relay.specs.Rule.{ReceivedBefore};

    ghost fact = { ReceivedBefore };
}

/// A line of four batches, which goes on from the state and the turns, for the building and the
/// desk, that this batch names. The batch itself isn't sent. An error comes where a growth was
/// refused; that none comes otherwise isn't proved (`passed_queue`).
pub fn new_line(alloc: Global, first: Batch) -> Result<(SendEnd, ReceiveEnd), Memory>
    ensures { IfOk result (λ ends. IsLine first ends.0 ends.1) }
{
    let (queue, mut pass) = passed_queue::<Batch, EndView, EndView, EndView, EndView>(
        alloc,
        MOST_BATCHES,
        first,
    )?;
    let other = queue.another::<EndView>(&mut pass);
    let (line, theirs) = two_owners(alloc, queue)?;
    Ok((
        SendEnd {
            side: Side::new(line, pass),
            count: 0,
        },
        ReceiveEnd {
            side: Side::new(theirs, other),
            count: 0,
        },
    ))
}

impl SendEnd {
    /// Tries once to send a batch that goes on from what was sent. It comes back only if the line
    /// was full at that try.
    pub fn send<R: Wait>(&mut self, rt: &R, batch: Batch) -> Result<(), Batch>
        requires few { length self.old.sent < most_batches }
        requires next { IsNextBatch self.old.building self.old.desk self.old.state self.old.turns
            batch }
        ensures { MatchResult result (λ _. SendsOne self.old batch self.new) (λ back.
            (back ≡ batch) × FindsNoRoom self.old self.new) }
    {
        self.side.push::<Batch, SendEnd, R>(rt, batch)?;
        self.count += 1;
        Ok(())
    }

    /// How many batches were sent.
    pub fn count(&self) -> u64
        ensures { result ≡ length self.now.sent }
    {
        self.count
    }

    /// Compares it with the other end of its line. Both stay as they are.
    pub fn compare(&mut self, receiver: &mut ReceiveEnd)
        requires line { receiver.old.line ≡ self.old.line }
        requires building { receiver.old.building ≡ self.old.building }
        requires desk { receiver.old.desk ≡ self.old.desk }
        ensures sender { self.new ≡ self.old }
        ensures receiver { receiver.new ≡ receiver.old }
        ensures queued { Queued self.new receiver.new }
    {
        self.side.meet::<EndView, EndView>(&mut receiver.side);
    }

    /// Tells each end of its line where the other stands.
    pub fn tell(&mut self, receiver: &mut ReceiveEnd)
        requires line { receiver.old.line ≡ self.old.line }
        requires building { receiver.old.building ≡ self.old.building }
        requires desk { receiver.old.desk ≡ self.old.desk }
        ensures sender { self.new ≡ record self.old { gone = receiver.old.received } }
        ensures receiver { receiver.new ≡ record receiver.old { known = self.old.sent } }
        ensures queued { Queued self.new receiver.new }
    {
        self.side.meet::<SendEnd, EndView>(&mut receiver.side);
    }
}

impl ReceiveEnd {
    /// Tries once to receive a batch, which goes on from what was received. There is none only if
    /// the line was empty at that try.
    pub fn receive<R: Wait>(&mut self, rt: &R) -> Option<Batch>
        ensures { MatchOption result (FindsNone self.old self.new) (λ batch.
            ReceivesOne self.old batch self.new) }
    {
        let batch = self.side.pop::<Batch, ReceiveEnd, R>(rt)?;
        self.count += 1;
        Some(batch)
    }

    /// How many batches were received.
    pub fn count(&self) -> u64
        ensures { result ≡ length self.now.received }
    {
        self.count
    }
}
