//! The half of an allocator that never waits.

ghost use Rattle.std.specs.Prelude.{◌≡◌, ◌≤◌, ◌⊎◌, [], length, true};
ghost use Rattle.lift_desk.specs.Rule.{IsAhead};
ghost use Rattle.lift_desk.specs.Seats.{IsClerkOf, IsSeatOf, OwesNothing, clerk_with, view_at};
ghost use Rattle.lift_desk.specs.Seats.{with_looks_of};
ghost use Rattle.lift_desk.specs.Steps.{with_told_asks};
ghost use Rattle.lift_parts.specs.Batch.{turns_of};
ghost use Rattle.lift_parts.specs.Scan.{turns_in};
ghost use Rattle.lift_relay.specs.Scanner.{HasScanned};

use crate::basis::Basis;
use crate::batch::Batch;
use crate::line::SendEnd;
use crate::scan::AheadParts;
use crate::settling::Settler;
use lift_base::MOST_TERMINALS;
use lift_clerk::{Clerk, Counts};
use lift_decider::Decider;
use lift_desk::{Desk, Seat, TakeSeat};
use lift_disk::Disk;
use lift_policy::Policy;
use lift_register::Register;
use std::marker::Model;
use std::snapshot::Snapshot;

/// Takes what terminals ask and decides it, a batch at a time. No call of it waits: so each of its
/// batches is what one scan took and decided, and no scan comes before all of them were sent, whatever
/// a thread does that has it. Its seats are reached by its calls alone.
#[derive(Drop)]
pub struct Scanner<'d, 'b, P: Policy + Drop> {
    desk: &'d Desk,
    parts: AheadParts<'b, P>,
    /// The decider when the clerk was split.
    start: Snapshot<Decider<'b>>,
}

impl<'d, 'b, P: Policy + Drop> Model for Scanner<'d, 'b, P> {
    ghost use Rattle.lift_relay.specs.Scanner.{ScannerState};

    ghost Value = { ScannerState P };

    ghost use Rattle.lift_relay.specs.ScannerInside.{seen, IsScanner};

    ghost view = { seen };

    ghost invariant = { IsScanner };
}

impl<'d, 'b, P: Policy + Drop> Scanner<'d, 'b, P> {
    /// The seats that take, and what they decide on.
    pub(crate) fn new(desk: &'d Desk, seat: TakeSeat, decider: Decider<'b>, policy: P) -> Self
        requires seated { IsClerkOf desk.now seat }
        requires all_sealed { decider.state.batch ≡ [] }
        ensures { result ≡ record {
          desk = desk.now;
          seat = seat;
          plan = decider.entry.plan;
          state = decider.entry.state;
          start = decider.entry.state;
          policy = policy;
        } }
    {
        let start = Snapshot::of(&decider);
        let parts = AheadParts {
            seat,
            decider,
            policy,
        };
        Scanner { desk, parts, start }
    }

    /// Looks once at each terminal, in rising order, and decides what was asked, refusals and repeats
    /// too: one batch, if anything was taken. What it took before was sent at this end of the line.
    pub fn scan(&mut self, end: &SendEnd) -> (Counts, Option<Batch>)
        requires all_sent { turns_of self.old.seat ≡ end.now.turns }
        ensures { HasScanned (P.chooses self.old.policy) self.old self.new result.0 result.1 }
    {
        let before = Basis::of_decider(&self.parts.decider);
        let seats = Snapshot::of(&self.parts.seat);
        let commands = self.parts.scan(self.desk);
        let entries = self.parts.decider.seal();
        let after = Basis::of_decider(&self.parts.decider);
        let counts = Counts {
            taken: commands.len(),
            accepted: entries.len(),
        };
        let batch = Batch::new(
            commands,
            entries,
            self.parts.decider.building(),
            before,
            after,
            self.desk,
            seats,
        );
        if counts.taken == 0 {
            return (counts, None);
        }
        (counts, Some(batch))
    }

    /// Tells it what a terminal has asked so far. It takes nothing, and stores nothing.
    pub fn tell_terminal(&mut self, seat: &mut Seat)
        requires { IsSeatOf self.old.desk seat.old }
        ensures seat { seat.new ≡ seat.old }
        ensures told { self.new ≡ record self.old {
          seat = clerk_with self.old.seat seat.old.terminal
              (with_told_asks (view_at self.old.seat seat.old.terminal) seat.old.view.asked);
        } }
        // Each word that it took there was asked, in rising turns.
        ensures asked { IsAhead seat.old.view.asked
            (view_at self.old.seat seat.old.terminal).taken }
        ensures turns { turns_of self.new.seat ≡ turns_of self.old.seat }
        ensures uses { turns_in self.new.seat ≡ turns_in self.old.seat }
        ensures seated { IsClerkOf self.new.desk self.new.seat }
    {
        self.desk.tell_ahead(seat, &mut self.parts.seat)
    }

    /// What it shows of the calls: those of all entries that it accepted.
    pub fn register(&self) -> &Register
        ensures { result.now ≡ self.now.state.register }
    {
        self.parts.decider.register()
    }

    /// How many terminals it looks at.
    pub fn terminals(&self) -> usize
        ensures count { result ≡ length self.now.desk }
        ensures in_range { result ≤ MOST_TERMINALS }
    {
        self.desk.len()
    }

    /// The clerk of what it is made of and of the half that answers, for the key.
    pub(crate) fn join<D: Disk, K: Drop>(
        self,
        settler: Settler<'d, 'b, D, K>,
        key: K,
    ) -> Clerk<'d, 'b, D, P>
        requires desk { settler.desk ≡ self.desk }
        requires answered { OwesNothing settler.seat }
        requires plan { settler.writer.plan ≡ self.plan }
        requires equal { (settler.writer.is_broken ≡ true)
            ⊎ (self.state.register ≡ settler.writer.register) }
        ensures { result ≡ record {
          desk = settler.entry.desk;
          seat = with_looks_of self.entry.seat settler.entry.seat;
          keeper = record { state = self.entry.state; writer = settler.entry.writer };
          policy = self.entry.policy;
        } }
    {
        settler.join(self.parts.seat, self.parts.decider, self.parts.policy, key)
    }
}
