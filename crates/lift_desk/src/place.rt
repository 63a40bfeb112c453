//! The clerk's seat at one table.
ghost use Rattle.std.specs.Prelude.{◌≡◌, ℕ, ◌<◌, ◌^◌, ◌↔◌, IsTrue, IfSome, Some, suc};
ghost use Rattle.std.specs.Prelude.{length, true, false, [], ◌∷◌, ◌++◌};
ghost use mathlib.Core.List.{IsPrefix};
ghost use Rattle.lift_desk.specs.Words.{turn_of, last_of, number_of, reply_word};
ghost use Rattle.lift_desk.specs.declared.words.Ask.{Ask};
ghost use Rattle.lift_desk.specs.Rule.{clerk_view, no_answers, taken_only, with_note};
ghost use Rattle.lift_desk.specs.Rule.{with_more_looks, IsInOrder};
ghost use Rattle.lift_desk.specs.Steps.{with_answer, with_look, with_taking, with_told_answers};
ghost use Rattle.lift_desk.specs.Steps.{with_told_asks, lists_of};
ghost use Rattle.lift_desk.specs.Seats.{ClerkPlace, placed_at, Owes, TakesOf};
ghost use Rattle.lift_desk.specs.Seats.{Says, seat_with, LookTells};

use crate::ahead::AheadPlace;
use crate::lending::{Lender, Lending, Whole};
use crate::looker::{ANSWER, ASK, DeskTable, Looker};
use crate::note::Note;
use crate::seat::Seat;
use crate::view::{AheadSeats, AnswerStore, AskLoad, Notes};
use crate::words::{Ask, read_ask, reply_word, turn_of};
use lift_base::{Number, Reply};
use std::marker::{Model, PhantomData};
use std::mem;

/// The clerk's seat at a terminal's table, or a stand-in for it. By its type it has lent the right to
/// look ahead of it or not.
#[derive(Drop)]
pub struct Place<L: Lending> {
    looker: Looker,
    turn: u32,
    number: Number,
    owes: bool,
    answered: u64,
    lending: PhantomData<L>,
}

impl<L: Lending> Model for Place<L> {
    ghost use Rattle.lift_desk.specs.Seats.{ClerkPlace, place_of};

    ghost Value = { ClerkPlace };

    ghost view = { λ p. place_of p.looker };

    ghost use Rattle.lift_desk.specs.PlaceInside.{IsPlaced};

    ghost invariant = { λ p. IsPlaced L.lends p };
}

impl<L: Lending> Default for Place<L> {
    ghost is_default = { λ p. p.seated ≡ false };

    fn default() -> Self {
        Place {
            looker: Looker::blank(),
            turn: 0,
            number: Number::default(),
            owes: false,
            answered: 0,
            lending: PhantomData,
        }
    }
}

// The seat reads a note, if there is one.
fn read_note(table: &DeskTable, looker: &mut Looker, note: Option<Note>)
    requires table { (looker.old.table ≡ table.now.shared.table_id)
        × (table.now.shared.table_id.words ≡ 2) }
    requires seated { looker.old.seated ≡ true }
    requires note { IfSome note (λ n. (n.seated ≡ true) × (n.table ≡ looker.old.table)) }
    ensures { (word : ℕ)
        × (looker.new ≡ record looker.old { view = with_note looker.old.view word })
        × IfSome note (λ n. word ≡ n.word) }
{
    match note {
        Some(note) => looker.join::<Notes>(table, note.into_looker()),
        None => {}
    }
}

impl Place<Whole> {
    pub(crate) fn new(looker: Looker) -> Self
        requires { (looker.seated ≡ true) × (looker.view ≡ clerk_view) }
        ensures { result ≡ placed_at looker.table no_answers }
    {
        Place {
            looker,
            turn: 0,
            number: Number::default(),
            owes: false,
            answered: 0,
            lending: PhantomData,
        }
    }

    // A seat ahead of this one, which begins with what this one took.
    pub(crate) fn split(self, table: &DeskTable) -> (AheadPlace, Place<Lender>)
        requires table { (self.table ≡ table.now.shared.table_id)
            × (table.now.shared.table_id.words ≡ 2) }
        requires seated { self.seated ≡ true }
        ensures ahead { result.0 ≡ placed_at self.table (taken_only self.view) }
        ensures same { result.1 ≡ self }
    {
        let Place {
            mut looker,
            turn,
            number,
            owes,
            answered,
            lending: _,
        } = self;
        let ahead = AheadPlace::new(looker.split::<AheadSeats>(table), turn);
        let place = Place {
            looker,
            turn,
            number,
            owes,
            answered,
            lending: PhantomData,
        };
        (ahead, place)
    }
}

impl Place<Lender> {
    // Takes back the seat ahead of this one, and counts what that one has looked.
    pub(crate) fn join(self, table: &DeskTable, ahead: AheadPlace) -> Place<Whole>
        requires table { (self.table ≡ table.now.shared.table_id)
            × (table.now.shared.table_id.words ≡ 2) }
        requires seated { (self.seated ≡ true) × (ahead.seated ≡ true)
            × (ahead.table ≡ self.table) }
        ensures { result ≡ record self { view = with_more_looks self.view ahead.view.looks } }
    {
        let Place {
            mut looker,
            turn,
            number,
            owes,
            answered,
            lending: _,
        } = self;
        looker.join::<AheadSeats>(table, ahead.into_looker());
        Place {
            looker,
            turn,
            number,
            owes,
            answered,
            lending: PhantomData,
        }
    }
}

impl<L: Lending> Place<L> {
    // Reads the note of an ask that was taken ahead, if there is one, and then looks once.
    #[inline(always)]
    pub(crate) fn look(&mut self, table: &DeskTable, note: Option<Note>) -> Option<Ask>
        requires table { (self.old.table ≡ table.now.shared.table_id)
            × (table.now.shared.table_id.words ≡ 2) }
        requires seated { self.old.seated ≡ true }
        requires note { IfSome note (λ n. (n.seated ≡ true) × (n.table ≡ self.old.table)) }
        ensures looked { (word : ℕ)
            × (self.new ≡ placed_at self.old.table (with_taking self.old.view word))
            × TakesOf self.old.view word result }
        ensures tells { LookTells self.old.view self.new.view result }
        ensures noted { IfSome note (λ n. (ask : Ask) → Says self.old.view n.word ask
            → (result ≡ Some ask) × (self.new.view.taken ≡ self.old.view.taken ++ n.word ∷ [])) }
    {
        read_note(table, &mut self.looker, note);
        let word = self.looker.load::<AskLoad>(table, ASK);
        let turn = turn_of(word);
        if turn <= self.turn {
            return None;
        }
        let ask = read_ask(word)?;
        self.turn = turn;
        self.number = ask.number;
        self.owes = true;
        Some(ask)
    }

    pub(crate) fn answer(&mut self, table: &DeskTable, reply: Reply)
        requires table { (self.old.table ≡ table.now.shared.table_id)
            × (table.now.shared.table_id.words ≡ 2) }
        requires seated { self.old.seated ≡ true }
        requires owes { Owes self.old.view }
        ensures answered { let view = self.old.view in self.new ≡ placed_at self.old.table
            (with_answer view (reply_word (length view.taken)
            (number_of (last_of view.taken)) reply)) }
        ensures rests { ¬ (Owes self.new.view) }
    {
        let word = reply_word(self.turn, self.number, reply);
        self.looker.store::<AnswerStore>(table, ANSWER, word);
        self.owes = false;
        self.answered = word;
    }

    // Tells this seat what the terminal asked, and the terminal what was answered.
    pub(crate) fn tell(&mut self, table: &DeskTable, seat: &mut Seat)
        requires table { (self.old.table ≡ table.now.shared.table_id)
            × (table.now.shared.table_id.words ≡ 2) }
        requires seated { (self.old.seated ≡ true) × (seat.old.table ≡ self.old.table) }
        ensures place { self.new
            ≡ placed_at self.old.table (with_told_asks self.old.view seat.old.view.asked) }
        ensures seat { seat.new ≡ seat_with seat.old
            (with_told_answers seat.old.view self.old.view.answered) }
        ensures in_order { IsInOrder (lists_of seat.old.view self.old.view) }
    {
        let looker = mem::replace(&mut self.looker, Looker::blank());
        self.looker = seat.share(table, looker);
    }

    // Whether the last ask that was taken is not answered.
    pub(crate) fn owes(&self) -> bool
        ensures { IsTrue result ↔ Owes self.now.view }
    {
        self.owes
    }

    // Whether the terminal's answer word, which it looks at once, is the last word that was
    // answered.
    pub(crate) fn meet(&mut self, table: &DeskTable, seat: &mut Seat) -> bool
        requires table { (self.old.table ≡ table.now.shared.table_id)
            × (table.now.shared.table_id.words ≡ 2) }
        requires seated { (self.old.seated ≡ true) × (seat.old.table ≡ self.old.table) }
        ensures looked { seat.new
            ≡ seat_with seat.old (with_look seat.old.view (last_of self.old.view.answered)) }
        ensures meets { IsTrue result }
        ensures same { self.new ≡ self.old }
        ensures heard { IsPrefix seat.old.view.heard self.old.view.answered }
    {
        let looker = mem::replace(&mut self.looker, Looker::blank());
        let (word, looker) = seat.meet(table, looker);
        self.looker = looker;
        word == self.answered
    }
}
