//! The clerk: its seats at the desk, its keeper, and its turns.

ghost use Rattle.std.specs.Prelude.{◌≡◌, ◌⊎◌, [], true, Err, IfOk, OnOk, OnErr};
ghost use Rattle.lift_desk.specs.Rule.{IsInOrder};
ghost use Rattle.lift_desk.specs.Seats.{IsClerkOf, IsSeatOf, OwesNothing, seat_with, view_at};
ghost use Rattle.lift_desk.specs.Steps.{with_told_answers, lists_of};
ghost use Rattle.lift_decider.specs.Decider.{starting};
ghost use Rattle.lift_keeper.specs.Prelude.{CommitsTo, CommitCalls, Recovers, ReopeningCalls};
ghost use Rattle.lift_clerk.specs.Clerk.{IsClerk, IsToldAt};
ghost use Rattle.lift_clerk.specs.Turn.{IsTurn, IsFailedTurn, IsBrokenTurn, batch_size};

use crate::answering::{AnsweringSeat, DueAnswer};
use crate::counts::Counts;
use crate::scan::{ClerkParts, scan_desk};
use arrayvec::ArrayVec;
use lift_base::MOST_ENTRIES;
use lift_desk::{ClerkSeat, Desk, Seat};
use lift_disk::{Arm, Disk};
use lift_journal::JournalFault;
use lift_keeper::{Keeper, KeeperFault};
use lift_policy::Policy;
use std::marker::Model;

/// Takes what terminals ask at a desk, decides it, makes it safe, and then answers. Contracts see
/// its desk's tables, its seats there, its keeper and its policy.
#[derive(Drop)]
pub struct Clerk<'d, 'b, D: Disk, P: Policy + Drop> {
    desk: &'d Desk,
    parts: ClerkParts<'b, D, P>,
    /// Room for the answers of a turn, so that none is made for each.
    answers: ArrayVec<DueAnswer, MOST_ENTRIES>,
}

impl<'d, 'b, D: Disk, P: Policy + Drop> Model for Clerk<'d, 'b, D, P> {
    ghost use Rattle.lift_clerk.specs.Clerk.{ClerkState, IsClerk};

    ghost Value = { ClerkState D P };

    ghost view = { λ c. record {
      desk = c.desk.now;
      seat = c.parts.seat;
      keeper = c.parts.keeper;
      policy = c.parts.policy;
    } };

    ghost invariant = { λ c.
        IsClerk c.desk.now c.parts.seat c.parts.keeper.state.batch c.parts.keeper.writer.is_broken };
}

impl<'d, 'b, D: Disk, P: Policy + Drop> Clerk<'d, 'b, D, P> {
    /// A clerk at a desk, whose seats have answered all that they took.
    pub fn new(desk: &'d Desk, seat: ClerkSeat, keeper: Keeper<'b, D>, policy: P) -> Self
        requires seated { IsClerkOf desk.now seat }
        requires answered { OwesNothing seat }
        requires empty_batch { (keeper.state.batch ≡ []) ⊎ (keeper.writer.is_broken ≡ true) }
        ensures { result ≡ record {
          desk = desk.now;
          seat = seat;
          keeper = keeper.entry;
          policy = policy;
        } }
    {
        let parts = ClerkParts {
            seat: AnsweringSeat::new(seat),
            keeper,
            policy,
        };
        Clerk {
            desk,
            parts,
            answers: ArrayVec::new(),
        }
    }

    /// The desk that it scans.
    pub fn desk(&self) -> &'d Desk
        ensures { result.now ≡ self.now.desk }
    {
        self.desk
    }

    /// Its keeper, to be read.
    pub fn keeper(&self) -> &Keeper<'b, D>
        ensures value { result.now ≡ self.now.keeper }
        ensures empty_batch { (result.now.state.batch ≡ []) ⊎ (result.now.writer.is_broken ≡ true) }
    {
        &self.parts.keeper
    }

    /// Tells it what a terminal has asked so far, and the terminal what was answered there so far.
    /// After a later turn that ask is taken, and after a later `hear` that answer is heard. It
    /// stores nothing.
    pub fn tell(&mut self, seat: &mut Seat)
        requires { IsSeatOf self.old.desk seat.old }
        ensures seat { seat.new ≡ seat_with seat.old
            (with_told_answers seat.old.view (view_at self.old.seat seat.old.terminal).answered) }
        ensures told { IsToldAt self.old self.new seat.old.terminal seat.old.view.asked }
        // What the two have stored fits together.
        ensures in_order { IsInOrder
            (lists_of seat.old.view (view_at self.old.seat seat.old.terminal)) }
        ensures seat_stays { IsSeatOf self.new.desk seat.new }
    {
        self.parts.seat.tell(self.desk, seat)
    }

    /// One turn: looks once at each terminal, takes at most one command of each, decides these in
    /// rising order of terminals, each on the state that the earlier ones left, makes all that was
    /// accepted safe as one batch, and only then stores the answers, refusals too. Where the batch
    /// fails, and while the keeper is broken, each command taken is answered Unknown.
    ///
    /// `Journal(Disk)` where a call of the device failed, `Journal(Broken)` while the keeper is
    /// broken, also where nothing was taken.
    pub fn turn(&mut self) -> Result<Counts, KeeperFault>
        // Ok: its commands were decided by the rules and made safe, and each has its reply.
        ensures turns { IfOk result (λ counts.
            IsTurn (P.chooses self.old.policy) self.old self.new counts) }
        // The device failed: their batch is in doubt, and each is answered Unknown.
        ensures fails { result ≡ Err (KeeperFault.Journal JournalFault.Disk)
            → IsFailedTurn (P.chooses self.old.policy) self.old self.new }
        // Broken before: each command is answered Unknown, and the keeper is as it was.
        ensures rests { self.old.keeper.writer.is_broken ≡ true → IsBrokenTurn self.old self.new }
        // It commits what its scan accepted, which leads to the register that it shows.
        ensures commits { CommitsTo D.state self.old.keeper.writer
            (batch_size result self.new.keeper) self.new.keeper.state.register
            self.new.keeper.writer result }
        ensures calls { CommitCalls D.state self.old.keeper.writer
            (batch_size result self.new.keeper) self.new.keeper.writer result }
        ensures same { (self.new.desk ≡ self.old.desk) × (self.new.policy ≡ self.old.policy) }
        ensures seated { IsClerkOf self.new.desk self.new.seat }
        ensures answered { OwesNothing self.new.seat }
    {
        scan_desk(self.desk, &mut self.parts, &mut self.answers);
        let counts = Counts {
            taken: self.answers.len(),
            accepted: self.parts.keeper.pending(),
        };
        let _shown = self.parts.keeper.register();
        match self.parts.keeper.commit() {
            Ok(safe) => {
                self.parts
                    .seat
                    .answer_all(self.desk, &self.answers, Some(safe));
                Ok(counts)
            }
            Err(fault) => {
                self.parts.seat.answer_all(self.desk, &self.answers, None);
                Err(fault)
            }
        }
    }

    /// Opens the keeper again, also after a fault: no car has reported where it is, and the batch
    /// is empty. It writes nothing, and gives the register that was safe, or that with the batch in
    /// doubt. A refusal leaves it as it was, and a failed call broken. No word of the desk is
    /// touched.
    pub fn reopen(&mut self) -> Result<(), KeeperFault>
        ensures same { (self.new.desk ≡ self.old.desk) × (self.new.seat ≡ self.old.seat)
            × (self.new.policy ≡ self.old.policy) }
        ensures recovers { Recovers
            D.state self.old.keeper.writer self.new.keeper.writer result }
        ensures calls { ReopeningCalls
            D.state self.old.keeper.writer self.new.keeper.writer result }
        ensures state { OnOk result (self.new.keeper.state
            ≡ starting self.new.keeper.writer.register) }
        ensures unmoved { OnErr result (self.new.keeper.state ≡ self.old.keeper.state) }
    {
        self.parts.keeper.reopen()
    }

    /// Its seats, its keeper and its policy, as they are.
    pub fn into_parts(self) -> (ClerkSeat, Keeper<'b, D>, P)
        ensures seat { result.0 ≡ self.entry.seat }
        ensures keeper { result.1 ≡ self.entry.keeper }
        ensures policy { result.2 ≡ self.entry.policy }
        ensures seated { IsClerkOf self.entry.desk result.0 }
        ensures answered { OwesNothing result.0 }
        ensures empty_batch { (result.1.state.batch ≡ []) ⊎ (result.1.writer.is_broken ≡ true) }
    {
        (
            self.parts.seat.into_seat(),
            self.parts.keeper,
            self.parts.policy,
        )
    }
}

impl<'d, 'b, D: Arm, P: Policy + Drop> Clerk<'d, 'b, D, P> {
    ghost use Rattle.lift_disk.specs.Disk.{IsUnchanged, IsArmedWith};

    /// Tells the device again which calls to fail. It changes no image.
    pub fn arm(&mut self, calls: u32)
        ensures unchanged { IsUnchanged (D.state self.old.keeper.writer.device)
            (D.state self.new.keeper.writer.device) }
        ensures armed { IsArmedWith (D.fails_by calls (D.state self.old.keeper.writer.device).calls)
            (D.state self.new.keeper.writer.device) }
        ensures rest { self.new ≡ record self.old {
          keeper = record self.old.keeper { writer = record self.old.keeper.writer { device = self.new.keeper.writer.device } };
        } }
    {
        self.parts.keeper.arm(calls);
    }

    /// Whether a growth inside the device was refused, now or earlier.
    pub fn short(&self) -> bool
        ensures { result ≡ (D.state self.now.keeper.writer.device).is_short }
    {
        self.parts.keeper.short()
    }
}
