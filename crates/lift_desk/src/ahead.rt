//! A seat that looks ahead of the clerk at one table: it takes asks and answers none.
ghost use Rattle.std.specs.Prelude.{◌≡◌, ℕ, ◌<◌, ◌≤◌, ◌^◌, IfSome, IsSome, Some, length, true};
ghost use Rattle.std.specs.Prelude.{false, []};
ghost use Rattle.lift_desk.specs.declared.words.Ask.{Ask};
ghost use Rattle.lift_desk.specs.Words.{turn_of, last_of, ask_word};
ghost use Rattle.lift_desk.specs.Rule.{IsAhead};
ghost use Rattle.lift_desk.specs.Steps.{with_taking, with_told_asks};
ghost use Rattle.lift_desk.specs.Spelled.{IsAsk};
ghost use Rattle.lift_desk.specs.Seats.{placed_at, place_of, TakesAheadOf, IsToldAhead};

use crate::looker::{ASK, DeskTable, Looker};
use crate::note::Note;
use crate::seat::Seat;
use crate::view::{AskLoadAhead, Notes};
use crate::words::{Ask, read_ask, turn_of};
use std::marker::Model;
use std::mem;

/// A seat ahead of the clerk's at a terminal's table, or a stand-in for it.
#[derive(Drop)]
pub struct AheadPlace {
    looker: Looker,
    turn: u32,
}

impl Model for AheadPlace {
    ghost use Rattle.lift_desk.specs.Seats.{ClerkPlace, place_of};

    ghost Value = { ClerkPlace };

    ghost view = { λ p. place_of p.looker };

    ghost use Rattle.lift_desk.specs.AheadInside.{IsAheadPlace};

    ghost invariant = { IsAheadPlace };
}

impl Default for AheadPlace {
    ghost is_default = { λ p. p.seated ≡ false };

    fn default() -> Self {
        AheadPlace {
            looker: Looker::blank(),
            turn: 0,
        }
    }
}

impl AheadPlace {
    pub(crate) fn new(looker: Looker, turn: u32) -> AheadPlace
        requires seated { looker.seated ≡ true }
        requires ahead { (looker.view.looks_ahead ≡ true) × (looker.view.answers ≡ false) }
        requires turn { turn ≡ turn_of (last_of looker.view.clerk.taken) }
        requires no_answers_read { looker.view.terminal.looks ≡ 0 }
        ensures { result ≡ place_of looker }
    {
        AheadPlace { looker, turn }
    }

    pub(crate) fn take(&mut self, table: &DeskTable) -> Option<Ask>
        requires table { (self.old.table ≡ table.now.shared.table_id)
            × (table.now.shared.table_id.words ≡ 2) }
        requires seated { self.old.seated ≡ true }
        ensures looked { (word : ℕ)
            × (self.new ≡ placed_at self.old.table (with_taking self.old.view word))
            × TakesAheadOf self.old.view word result }
        ensures in_range { IfSome result IsAsk }
        ensures last { IfSome result (λ ask.
            last_of self.new.view.taken
            ≡ ask_word (turn_of (last_of self.new.view.taken)) ask.number ask.body) }
        ensures turn { IsSome result → turn_of (last_of self.new.view.taken) < 2 ^ 20 }
        ensures last_word { self.new.view.last ≡ last_of self.new.view.taken }
        ensures known { length self.old.view.told ≤ turn_of (last_of self.new.view.taken) }
        ensures finds { (ask : Ask) → IsToldAhead self.old.view ask
            → IsSome result × (turn_of (last_of self.new.view.taken) ≡ length self.old.view.told
            → result ≡ Some ask) }
    {
        let word = self.looker.load::<AskLoadAhead>(table, ASK);
        let turn = turn_of(word);
        if turn <= self.turn {
            return None;
        }
        let ask = read_ask(word)?;
        self.turn = turn;
        Some(ask)
    }

    // Learns what the terminal asked.
    pub(crate) fn learn(&mut self, table: &DeskTable, seat: &mut Seat)
        requires table { (self.old.table ≡ table.now.shared.table_id)
            × (table.now.shared.table_id.words ≡ 2) }
        requires seated { (self.old.seated ≡ true) × (seat.old.table ≡ self.old.table) }
        ensures place { self.new
            ≡ placed_at self.old.table (with_told_asks self.old.view seat.old.view.asked) }
        ensures seat { seat.new ≡ seat.old }
        ensures asked { IsAhead seat.old.view.asked self.old.view.taken }
    {
        let looker = mem::replace(&mut self.looker, Looker::blank());
        self.looker = seat.share_ahead(table, looker);
    }

    // A note of the last ask that was taken.
    pub(crate) fn note(&mut self, table: &DeskTable) -> Note
        requires table { (self.old.table ≡ table.now.shared.table_id)
            × (table.now.shared.table_id.words ≡ 2) }
        requires seated { self.old.seated ≡ true }
        ensures same { self.new ≡ self.old }
        ensures note { result ≡ record {
          seated = true;
          table = self.old.table;
          word = last_of self.old.view.taken;
        } }
    {
        Note::new(self.looker.split::<Notes>(table))
    }

    pub(crate) fn into_looker(self) -> Looker
        ensures same { place_of result ≡ self }
        ensures ahead { self.seated ≡ true → result.view.looks_ahead ≡ true }
        ensures no_answers_read { result.view.terminal.looks ≡ 0 }
    {
        let AheadPlace { looker, turn: _ } = self;
        looker
    }
}
