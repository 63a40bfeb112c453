//! A terminal's seat at its table.
ghost use Rattle.std.specs.Prelude.{◌≡◌, ℕ, ◌<◌, ◌^◌, ◌↔◌, length, [], true, false, OnOk};
ghost use Rattle.std.specs.Prelude.{OnErr, IfSome, IsSome, Some, Err};
ghost use Rattle.atomic_table.specs.Seated.{TableId};
ghost use Rattle.lift_base.specs.declared.command.Reply.{Reply};
ghost use Rattle.lift_desk.specs.Words.{turn_of, last_of, number_of, ask_word, IsReply};
ghost use Rattle.lift_desk.specs.Steps.{with_hearing, with_look, with_told_answers};
ghost use Rattle.lift_desk.specs.Steps.{with_told_asks, lists_of};
ghost use mathlib.Core.List.{IsPrefix};
ghost use Rattle.lift_desk.specs.Seats.{TerminalSeat, seat_with, Waits, HearsOf, IsToldAnswer};
ghost use Rattle.lift_desk.specs.Seats.{StoresAsk};
ghost use Rattle.lift_desk.specs.Rule.{clerk_part, terminal_view, no_asks, IsInOrder, IsAhead};

use crate::looker::{ANSWER, ASK, DeskTable, Looker};
use crate::view::{
    AheadComparison, AnswerLoad, AskStore, Comparison, DeskRule, LastAnswerLoad, Seats,
    UntoldAheadSeat, UntoldSeats, View,
};
use crate::words::{ask_word, read_reply, turn_of};
use lift_base::{Body, Number, Reply, Terminal};
use std::marker::Model;

/// The last turn that a word can hold.
const LAST_TURN: u32 = 1_048_575;

/// Why an ask was not stored.
#[derive(Clone, Copy, PartialEq, Eq)]
pub enum AskRefusal {
    /// The last ask has not been heard.
    Waiting,
    /// All turns were used.
    Spent,
}

/// A terminal's seat at the desk. Contracts see its table, its terminal, and what it asked, heard
/// and read.
#[derive(Drop)]
pub struct Seat {
    pub(crate) terminal: Terminal,
    turn: u32,
    number: Number,
    waits: bool,
    looker: Looker,
}

impl Model for Seat {
    ghost use Rattle.lift_desk.specs.Seats.{TerminalSeat};

    ghost Value = { TerminalSeat };

    ghost use Rattle.lift_desk.specs.SeatInside.{seen, IsSeated};

    ghost view = { seen };

    ghost invariant = { IsSeated };
}

impl Seat {
    pub(crate) fn new(terminal: Terminal, looker: Looker) -> Seat
        requires { (looker.seated ≡ true) × (looker.view ≡ terminal_view) }
        ensures { result ≡ record { table = looker.table; terminal = terminal; view = no_asks } }
    {
        Seat {
            terminal,
            turn: 0,
            number: Number::default(),
            waits: false,
            looker,
        }
    }

    /// The terminal that it is for.
    pub fn terminal(&self) -> Terminal
        ensures { result ≡ self.now.terminal }
    {
        self.terminal
    }

    /// The number of the ask whose answer was not heard yet; none where each was heard.
    pub fn pending(&self) -> Option<Number>
        ensures some { IsSome result ↔ Waits self.now.view }
        ensures number { IfSome result (λ number.
            number ≡ number_of (last_of self.now.view.asked)) }
    {
        if self.waits { Some(self.number) } else { None }
    }

    pub(crate) fn ask(
        &mut self,
        table: &DeskTable,
        number: Number,
        body: Body,
    ) -> Result<(), AskRefusal>
        requires { (self.old.table ≡ table.now.shared.table_id)
            × (table.now.shared.table_id.words ≡ 2) }
        ensures waiting { (result ≡ Err AskRefusal.Waiting) ↔ Waits self.old.view }
        ensures spent { (result ≡ Err AskRefusal.Spent)
            ↔ (¬ (Waits self.old.view) × (length self.old.view.asked ≡ LAST_TURN)) }
        ensures ok { OnOk result (StoresAsk self.old number body self.new) }
        ensures err { OnErr result (self.new ≡ self.old) }
    {
        if self.waits {
            return Err(AskRefusal::Waiting);
        }
        if self.turn >= LAST_TURN {
            return Err(AskRefusal::Spent);
        }
        let turn = self.turn + 1;
        let word = ask_word(turn, number, body);
        self.looker.store::<AskStore>(table, ASK, word);
        self.turn = turn;
        self.number = number;
        self.waits = true;
        Ok(())
    }

    // (beside the desk's own, so that the reply stays in registers)
    #[inline(always)]
    pub(crate) fn hear(&mut self, table: &DeskTable) -> Option<Reply>
        requires { (self.old.table ≡ table.now.shared.table_id)
            × (table.now.shared.table_id.words ≡ 2) }
        ensures looked { (word : ℕ)
            × (self.new ≡ seat_with self.old (with_hearing self.old.view word))
            × HearsOf self.old.view word result }
        ensures rests { IsSome result → ¬ (Waits self.new.view) }
        ensures in_range { IfSome result IsReply }
        ensures last_word { self.new.view.last ≡ last_of self.new.view.heard }
        ensures known { IsPrefix self.old.view.told self.new.view.heard }
        ensures finds { (reply : Reply) → IsToldAnswer self.old.view reply → result ≡ Some reply }
    {
        let word = self.looker.load::<AnswerLoad>(table, ANSWER);
        if !self.waits || turn_of(word) != self.turn {
            return None;
        }
        self.waits = false;
        read_reply(word)
    }

    // Takes the clerk's rights, compares all words with them, and gives them back. Each of the two
    // is told what the other has stored.
    pub(crate) fn share(&mut self, table: &DeskTable, clerk: Looker) -> Looker
        requires table { (self.old.table ≡ table.now.shared.table_id)
            × (table.now.shared.table_id.words ≡ 2) }
        requires clerk { (clerk.table ≡ self.old.table) × (clerk.seated ≡ true)
            × (clerk.view.answers ≡ true) × (clerk.view.looks_ahead ≡ false) }
        requires no_answers_read { clerk.view.terminal.looks ≡ 0 }
        ensures told { self.new ≡ seat_with self.old
            (with_told_answers self.old.view clerk.view.clerk.answered) }
        ensures clerk { result ≡ record clerk { view = clerk_part clerk.view self.old.view.asked } }
        ensures in_order { IsInOrder (lists_of self.old.view clerk.view.clerk) }
    {
        self.looker.join::<Seats>(table, clerk);
        self.looker.load::<Comparison>(table, ASK);
        self.looker.split::<Seats>(table)
    }

    // One look, by a seat that has the clerk's rights for it and gives them back. Nobody is told
    // anything.
    pub(crate) fn meet(&mut self, table: &DeskTable, clerk: Looker) -> (u64, Looker)
        requires table { (self.old.table ≡ table.now.shared.table_id)
            × (table.now.shared.table_id.words ≡ 2) }
        requires clerk { (clerk.table ≡ self.old.table) × (clerk.seated ≡ true)
            × (clerk.view.answers ≡ true) × (clerk.view.looks_ahead ≡ false) }
        requires no_answers_read { clerk.view.terminal.looks ≡ 0 }
        ensures looked { self.new ≡ seat_with self.old (with_look self.old.view result.0) }
        ensures last { result.0 ≡ last_of clerk.view.clerk.answered }
        ensures heard { IsPrefix self.old.view.heard clerk.view.clerk.answered }
        ensures clerk { result.1 ≡ record clerk {
          view = clerk_part clerk.view clerk.view.clerk.told;
        } }
    {
        self.looker.join::<Seats>(table, clerk);
        let word = self.looker.load::<LastAnswerLoad>(table, ANSWER);
        (word, self.looker.split::<UntoldSeats>(table))
    }

    // Takes the rights of a seat ahead, compares what it took with what was asked, and gives them
    // back. That seat is told what was asked.
    pub(crate) fn share_ahead(&mut self, table: &DeskTable, ahead: Looker) -> Looker
        requires table { (self.old.table ≡ table.now.shared.table_id)
            × (table.now.shared.table_id.words ≡ 2) }
        requires ahead { (ahead.table ≡ self.old.table) × (ahead.seated ≡ true) }
        requires rights { (ahead.view.looks_ahead ≡ true) × (ahead.view.answers ≡ false) }
        requires no_answers_read { ahead.view.terminal.looks ≡ 0 }
        ensures same { self.new ≡ self.old }
        ensures ahead { (result.table ≡ self.old.table) × (result.seated ≡ true) }
        ensures rights { (result.view.looks_ahead ≡ true) × (result.view.answers ≡ false) }
        ensures no_answers_read { result.view.terminal.looks ≡ 0 }
        ensures view { result.view.clerk ≡ with_told_asks ahead.view.clerk self.old.view.asked }
        ensures asked { IsAhead self.old.view.asked ahead.view.clerk.taken }
    {
        self.looker.join::<Seats>(table, ahead);
        self.looker.load::<AheadComparison>(table, ASK);
        self.looker.split::<UntoldAheadSeat>(table)
    }
}
