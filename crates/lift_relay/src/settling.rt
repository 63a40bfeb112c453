//! The half of a flusher that never waits.

ghost use Rattle.std.specs.Prelude.{◌≡◌, ℕ, List, [], ◌⊎◌, ◌↔◌, length, true, false, IfOk};
ghost use Rattle.lift_desk.specs.Rule.{IsInOrder};
ghost use Rattle.lift_desk.specs.Seats.{IsClerkOf, IsSeatOf, OwesNothing, view_at};
ghost use Rattle.lift_desk.specs.Seats.{seat_with, clerk_with, with_looks_of};
ghost use Rattle.lift_desk.specs.Steps.{with_told_answers, with_told_asks, lists_of};
ghost use Rattle.lift_keeper.specs.Prelude.{Commits, CommitCalls};
ghost use Rattle.lift_clerk.specs.TakenAndAnswered.{AreApart};
ghost use Rattle.lift_parts.specs.Batch.{commands_in};
ghost use Rattle.lift_parts.specs.Flusher.{AllAnsweredBy, LooksGive, answers_in, looked_for};
ghost use Rattle.lift_relay.specs.Notified.{FailureNotified};
ghost use Rattle.lift_relay.specs.Settler.{AreDue, SettlesBatch};

use crate::batch::Batch;
use crate::witness::{Notifies, Witness, tell_of};
use arrayvec::ArrayVec;
use lift_base::{MOST_ENTRIES, Terminal};
use lift_clerk::{AnsweringSeat, Clerk, DueAnswer};
use lift_decider::Decider;
use lift_desk::{ClerkSeat, Desk, Lender, Seat, TakeSeat};
use lift_disk::Disk;
use lift_keeper::{Keeper, KeeperFault, Writer};
use lift_parts::{FlushCounts, NotedCommand};
use lift_policy::Policy;
use lift_register::Register;
use std::marker::{Model, PhantomData};

/// Makes batches safe and answers them. No call of it waits: so what it ensures holds, and no answer
/// stands before its batch is safe, whatever a thread does that has it; and none but Unknown is stored
/// without the evidence of a commit. The seats and the writer are reached by its calls alone, and after
/// them by those of the clerk that it is joined to, for a `K`.
#[derive(Drop)]
pub struct Settler<'d, 'b, D: Disk, K> {
    desk: &'d Desk,
    seat: AnsweringSeat<Lender>,
    writer: Writer<'b, D>,
    key: PhantomData<K>,
}

impl<'d, 'b, D: Disk, K> Model for Settler<'d, 'b, D, K> {
    ghost use Rattle.lift_desk.specs.Seats.{IsClerkOf};
    ghost use Rattle.lift_relay.specs.Settler.{SettlerState};

    ghost Value = { SettlerState D };

    ghost use Rattle.lift_relay.specs.SettlerInside.{seen};

    ghost view = { seen };

    ghost invariant = { λ s. IsClerkOf s.desk.now s.seat };
}

/// Looks once at the terminal of each of these commands, and finds just that command there, as its
/// note says. Gives the answers that these terminals are owed: each command's reply.
fn look_again(
    desk: &Desk,
    seat: &mut AnsweringSeat<Lender>,
    commands: ArrayVec<NotedCommand, MOST_ENTRIES>,
) -> ArrayVec<DueAnswer, MOST_ENTRIES>
    requires seated { IsClerkOf desk.now seat.old }
    requires due { AreDue desk.now seat.old commands.items }
    requires apart { AreApart (commands_in commands.items) }
    ensures found { LooksGive seat.old commands.items }
    ensures looked { seat.new ≡ looked_for seat.old commands.items }
    ensures answers { result.items ≡ answers_in commands.items }
    ensures seated { IsClerkOf desk.now seat.new }
{
    let _few = commands.len();
    let mut answers = ArrayVec::new();
    for taken in commands {
        let NotedCommand {
            command,
            reply,
            note,
        } = taken;
        let terminal = command.terminal;
        let _found = seat.look_for(desk, terminal, note);
        answers.push(DueAnswer { terminal, reply });
    }
    answers
}

/// Whether an ask that these seats took is unanswered, at some terminal.
fn owes(desk: &Desk, seat: &AnsweringSeat<Lender>) -> bool
    requires { IsClerkOf desk.now seat.now }
    ensures { (result ≡ false) ↔ OwesNothing seat.now }
{
    for t in 0..desk.len() {
        let terminal = Terminal::new(t as u8).unwrap();
        if seat.owes(terminal) {
            return true;
        }
    }
    false
}

impl<'d, 'b, D: Disk, K> Settler<'d, 'b, D, K> {
    /// The seats that answer, and the writer.
    pub(crate) fn new(desk: &'d Desk, seat: ClerkSeat<Lender>, writer: Writer<'b, D>) -> Self
        requires seated { IsClerkOf desk.now seat }
        ensures { result ≡ record { desk = desk.now; seat = seat; writer = writer.entry } }
    {
        Settler {
            desk,
            seat: AnsweringSeat::new(seat),
            writer,
            key: PhantomData,
        }
    }

    /// Makes a batch safe, then looks once more at each of its commands' terminals, finds just that
    /// command there, and answers it with the batch's reply. After a device fault it answers Unknown to
    /// that batch and all later ones. The witness is notified of that fault here, once they are answered.
    ///
    /// `Journal(Disk)` where a call of the device failed, `Journal(Broken)` while it is broken.
    pub fn settle<V: Witness>(
        &mut self,
        batch: Batch,
        witness: &mut V,
    ) -> Result<FlushCounts, KeeperFault>
    where
        K: Notifies<V>,
        requires at_desk { batch.desk ≡ self.old.desk }
        requires next { self.old.writer.is_broken ≡ false
            → (batch.building ≡ self.old.writer.plan)
            × (batch.before.register ≡ self.old.writer.register) }
        requires all_answered { AllAnsweredBy self.old.seat batch.turns }
        ensures settles { SettlesBatch D.state self.old batch self.new result }
        ensures calls { CommitCalls
            D.state self.old.writer (length batch.entries) self.new.writer result }
        ensures notified { FailureNotified V.is_notified
            self.old.writer.is_broken self.new.writer.is_broken witness.old witness.new }
    {
        let was_broken = self.writer.is_broken();
        let committed = self.writer.commit(batch.entries());
        let answers = look_again(self.desk, &mut self.seat, batch.into_commands());
        match committed {
            Ok(safe) => {
                self.seat.answer_all(self.desk, &answers, Some(safe));
                Ok(FlushCounts {
                    batches: 1,
                    answers: answers.len(),
                })
            }
            Err(fault) => {
                self.seat.answer_all(self.desk, &answers, None);
                tell_of(witness, was_broken, self.writer.is_broken());
                Err(fault)
            }
        }
    }

    /// Tells it what a terminal has asked so far, and the terminal what was answered there so far. It
    /// stores nothing.
    pub fn tell_terminal(&mut self, seat: &mut Seat)
        requires { IsSeatOf self.old.desk seat.old }
        ensures seat { seat.new ≡ seat_with seat.old
            (with_told_answers seat.old.view (view_at self.old.seat seat.old.terminal).answered) }
        ensures told { self.new ≡ record self.old {
          seat = clerk_with self.old.seat seat.old.terminal
              (with_told_asks (view_at self.old.seat seat.old.terminal) seat.old.view.asked);
        } }
        // What the two have stored fits together.
        ensures in_order { IsInOrder
            (lists_of seat.old.view (view_at self.old.seat seat.old.terminal)) }
        ensures all_answered { (turns : List ℕ) → AllAnsweredBy self.old.seat turns
            → AllAnsweredBy self.new.seat turns }
        ensures seat_stays { IsSeatOf self.new.desk seat.new }
        ensures seated { IsClerkOf self.new.desk self.new.seat }
    {
        self.seat.tell(self.desk, seat)
    }

    /// What is answered where there is no batch: `Journal(Broken)` while it is broken.
    pub fn rest(&mut self) -> Result<FlushCounts, KeeperFault>
        ensures commits { Commits D.state self.old.writer [] self.new.writer result }
        ensures calls { CommitCalls D.state self.old.writer 0 self.new.writer result }
        ensures counts { IfOk result (λ counts. counts ≡ record { batches = 0; answers = 0 }) }
        ensures same { self.new ≡ self.old }
    {
        let _safe = self.writer.commit(&ArrayVec::new())?;
        Ok(FlushCounts {
            batches: 0,
            answers: 0,
        })
    }

    /// Whether it took an ask that it has not answered, of any terminal.
    pub fn owes(&self) -> bool
        ensures { (result ≡ false) ↔ OwesNothing self.now.seat }
    {
        owes(self.desk, &self.seat)
    }

    /// Whether what is safe is this register, or a call of the device has failed since it was last
    /// opened.
    pub fn may_join(&self, register: &Register) -> bool
        ensures { (result ≡ true)
            ↔ ((self.now.writer.is_broken ≡ true) ⊎ (register.now ≡ self.now.writer.register)) }
    {
        self.writer.is_broken() || register.is_same(self.writer.register())
    }

    /// Whether a call of the device has failed since it was last opened.
    pub(crate) fn is_broken(&self) -> bool
        ensures { result ≡ self.now.writer.is_broken }
    {
        self.writer.is_broken()
    }

    /// Its writer, as it is, for the key. It settles and answers no more.
    pub(crate) fn into_writer(self, _key: K) -> Writer<'b, D>
    where
        K: Drop,
        ensures { result ≡ self.entry.writer }
    {
        self.writer
    }

    /// The clerk of this half, of the seats ahead of it, and of what decides, for the key.
    pub(crate) fn join<P: Policy + Drop>(
        self,
        ahead: TakeSeat,
        decider: Decider<'b>,
        policy: P,
        _key: K,
    ) -> Clerk<'d, 'b, D, P>
    where
        K: Drop,
        requires seated { IsClerkOf self.desk ahead }
        requires answered { OwesNothing self.seat }
        requires plan { decider.plan ≡ self.writer.plan }
        requires sealed { decider.state.batch ≡ [] }
        requires equal { (self.writer.is_broken ≡ true)
            ⊎ (decider.state.register ≡ self.writer.register) }
        ensures { result ≡ record {
          desk = self.entry.desk;
          seat = with_looks_of ahead self.entry.seat;
          keeper = record { state = decider.entry.state; writer = self.entry.writer };
          policy = policy;
        } }
    {
        let seat = self.desk.join(ahead, self.seat.into_seat());
        Clerk::new(self.desk, seat, Keeper::whole(decider, self.writer), policy)
    }
}
