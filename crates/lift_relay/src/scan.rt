//! One scan of the desk's terminals, ahead of the answers.

ghost use Rattle.std.specs.Prelude.{◌≡◌, ◌≤◌, ◌+◌, [], length};
ghost use Rattle.lift_desk.specs.Seats.{IsClerkOf};
ghost use Rattle.lift_register.specs.Prelude.{register_of, FitFrom};
ghost use Rattle.lift_clerk.specs.TakenAndAnswered.{AreApart};
ghost use Rattle.lift_parts.specs.Batch.{AreBelow, commands_in};
ghost use Rattle.lift_parts.specs.Scan.{turns_in};
ghost use Rattle.lift_relay.specs.Scanner.{TakesAhead};

use arrayvec::ArrayVec;
use lift_base::{MOST_ENTRIES, Terminal};
use lift_clerk::{DeskScan, scan_desk};
use lift_decider::Decider;
use lift_desk::{Desk, TakeSeat};
use lift_parts::NotedCommand;
use lift_policy::{Command, Policy, decisions_preserve};

/// What an allocator scans with: its seats, what it decides on, and the policy that names cars.
#[derive(Drop)]
pub struct AheadParts<'b, P: Policy + Drop> {
    pub seat: TakeSeat,
    pub decider: Decider<'b>,
    pub policy: P,
}

impl<'b, P: Policy + Drop> DeskScan<NotedCommand> for AheadParts<'b, P> {
    ghost has_scanned = { λ desk old new taken n. (new.policy ≡ old.policy)
        × TakesAhead (P.chooses old.policy) desk old.seat new.seat old.decider new.decider taken
        n };

    // (each turn looks at each terminal)
    #[inline(always)]
    fn visit(&mut self, desk: &Desk, terminal: Terminal) -> Option<NotedCommand> {
        decisions_preserve(&self.policy);
        let ask = desk.take(&mut self.seat, terminal)?;
        let note = desk.note(&mut self.seat, terminal);
        let reply = self
            .decider
            .decide(terminal, ask.number, &ask.body, &self.policy);
        let command = Command {
            terminal,
            number: ask.number,
            body: ask.body,
        };
        Some(NotedCommand {
            command,
            reply,
            note,
        })
    }
}

impl<'b, P: Policy + Drop> AheadParts<'b, P> {
    /// Looks once at each terminal, in rising order, and decides what is asked there, each on the
    /// state that the earlier ones left.
    pub fn scan(&mut self, desk: &Desk) -> ArrayVec<NotedCommand, MOST_ENTRIES>
        requires seated { IsClerkOf desk.now self.old.seat }
        requires empty_batch { self.old.decider.state.batch ≡ [] }
        ensures takes { TakesAhead (P.chooses self.old.policy) desk.now self.old.seat self.new.seat
            self.old.decider self.new.decider result.items (length desk.now) }
        // What was accepted fits what was shown before, and its commands are of the desk's terminals.
        ensures fits { FitFrom self.old.decider.plan self.old.decider.state.register
            self.new.decider.state.batch }
        ensures shows { self.new.decider.state.register
            ≡ register_of self.old.decider.state.register self.new.decider.state.batch }
        // Each command takes a turn of its terminal.
        ensures uses { turns_in self.old.seat + length result.items ≤ turns_in self.new.seat }
        ensures below { AreBelow (length desk.now) (commands_in result.items) }
        ensures apart { AreApart (commands_in result.items) }
        ensures policy { self.new.policy ≡ self.old.policy }
    {
        decisions_preserve(&self.policy);
        let _shown = self.decider.register();
        let mut taken = ArrayVec::new();
        scan_desk(desk, self, &mut taken);
        taken
    }
}
