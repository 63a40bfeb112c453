//! The desk: a table for each terminal, with the terminal's seat and the clerk's.
ghost use Rattle.std.specs.Prelude.{◌≡◌, ℕ, ◌<◌, ◌≤◌, ◌^◌, ◌↔◌, IsTrue, IsSome, length, OnOk};
ghost use Rattle.std.specs.Prelude.{OnErr, IfOk, IfSome, Some, Err, [], ◌∷◌, ◌++◌, slice_get};
ghost use Rattle.std.specs.Prelude.{vec_len};
ghost use Rattle.lift_base.specs.declared.command.Reply.{Reply};
ghost use Rattle.lift_desk.specs.declared.words.Ask.{Ask};
ghost use Rattle.lift_desk.specs.Rule.{terminal_view, clerk_view, IsInOrder, IsAhead};
ghost use mathlib.Core.List.{IsPrefix};
ghost use Rattle.lift_desk.specs.Words.{turn_of, last_of, number_of, ask_word, reply_word, IsReply};
ghost use Rattle.lift_desk.specs.Steps.{with_answer, with_hearing, with_look};
ghost use Rattle.lift_desk.specs.Steps.{with_told_answers, with_told_asks, lists_of};
ghost use Rattle.lift_desk.specs.Looker.{sits_at};
ghost use Rattle.lift_desk.specs.Spelled.{IsAsk};
ghost use Rattle.lift_desk.specs.Seats.{IsSeatOf, IsClerkOf, seat_with, clerk_with, view_at, Waits};
ghost use Rattle.lift_desk.specs.Seats.{Owes, OwesNothing, HearsOf, TakesOf, IsToldAnswer};
ghost use Rattle.lift_desk.specs.Seats.{IsToldAhead, IsNoteOf, Says, seats_from};
ghost use Rattle.lift_desk.specs.Seats.{clerk_of, ahead_from, TakesAheadOf, AreSeatsOf, StoresAsk};
ghost use Rattle.lift_desk.specs.Seats.{LooksOnce, LookTells, with_looks_of};

use crate::ahead::AheadPlace;
use crate::lending::{Lender, Lending, Whole};
use crate::looker::{DeskTable, Looker};
use crate::note::Note;
use crate::place::Place;
use crate::seat::{AskRefusal, Seat};
use crate::view::Seats;
use crate::words::Ask;
use arrayvec::ArrayVec;
use lift_base::{Body, MOST_TERMINALS, Number, Reply, Terminal};
use lift_memory::{Memory, with_room};
use std::alloc::Global;
use std::marker::Model;

/// The words that 1 to 63 terminals share with the clerk: for each its last ask, and the last
/// answer to it. Terminals are numbered from 0. Contracts see which table each terminal has.
#[derive(Drop)]
pub struct Desk {
    tables: Vec<DeskTable>,
}

impl Model for Desk {
    ghost use Rattle.std.specs.Prelude.{List};
    ghost use Rattle.atomic_table.specs.Seated.{TableId};

    ghost Value = { List TableId };

    ghost use Rattle.lift_desk.specs.DeskInside.{seen, IsDesk};

    ghost view = { seen };

    ghost invariant = { IsDesk };
}

/// The clerk's seats, one for each terminal. Contracts see what was taken and answered at each. At
/// each terminal's table the clerk has the right to look ahead, or a seat of a `TakeSeat` has it until
/// it is joined in again: by the table's rule no two have it, and this type says which it is.
#[derive(Drop)]
pub struct ClerkSeat<L: Lending = Whole> {
    places: ArrayVec<Place<L>, MOST_TERMINALS>,
}

impl<L: Lending> Model for ClerkSeat<L> {
    ghost use Rattle.std.specs.Prelude.{List};
    ghost use Rattle.lift_desk.specs.Seats.{ClerkPlace, AllSeated};

    ghost Value = { List ClerkPlace };

    ghost view = { λ s. s.places.items };

    ghost invariant = { λ s. AllSeated s.places.items };
}

impl<L: Lending> ClerkSeat<L> {
    /// Whether the clerk took an ask of the terminal that it has not answered.
    pub fn owes(&self, terminal: Terminal) -> bool
        requires { terminal < length self.now }
        ensures { IsTrue result ↔ Owes (view_at self.now terminal) }
    {
        self.places[usize::from(terminal.get())].owes()
    }
}

/// A new desk, with a seat for each terminal, in order, and the clerk's seats.
#[derive(Drop)]
pub struct DeskParts {
    pub desk: Desk,
    pub seats: Vec<Seat>,
    pub clerk: ClerkSeat,
}

// A new table, with the terminal's seat and the clerk's.
fn new_table(alloc: Global) -> Result<(DeskTable, Looker, Looker), Memory>
    ensures words { IfOk result (λ made. made.0.shared.table_id.words ≡ 2) }
    ensures seats { IfOk result (λ made.
        (made.1 ≡ sits_at made.0.shared.table_id terminal_view)
        × (made.2 ≡ sits_at made.0.shared.table_id clerk_view)) }
{
    let (table, mut first) = Looker::open(alloc)?;
    let second = first.split::<Seats>(&table);
    Ok((table, first, second))
}

/// Seats ahead of the clerk's, one for each terminal. They take asks and answer none.
/// Contracts see what was taken at each.
#[derive(Drop)]
pub struct TakeSeat {
    places: ArrayVec<AheadPlace, MOST_TERMINALS>,
}

impl Model for TakeSeat {
    ghost use Rattle.std.specs.Prelude.{List};
    ghost use Rattle.lift_desk.specs.Seats.{ClerkPlace, AllSeated};

    ghost Value = { List ClerkPlace };

    ghost view = { λ s. s.places.items };

    ghost invariant = { λ s. AllSeated s.places.items };
}

impl Desk {
    /// A desk of so many terminals, with all its seats. An error comes only where a growth was
    /// refused.
    pub fn open(alloc: Global, terminals: usize) -> Result<DeskParts, Memory>
        requires { (1 ≤ terminals) × (terminals ≤ MOST_TERMINALS) }
        ensures count { IfOk result (λ parts. (length parts.desk ≡ terminals)
            × (vec_len parts.seats ≡ terminals)) }
        ensures seats { IfOk result (λ parts. parts.seats.items ≡ seats_from 0 parts.desk) }
        ensures clerk { IfOk result (λ parts. parts.clerk ≡ clerk_of parts.desk) }
        ensures seats_at { IfOk result (λ parts. AreSeatsOf parts.desk parts.seats.items) }
        ensures clerk_at { IfOk result (λ parts. IsClerkOf parts.desk parts.clerk) }
        ensures owes { IfOk result (λ parts. OwesNothing parts.clerk) }
    {
        let mut tables = with_room(alloc, terminals)?;
        let mut seats = with_room(alloc, terminals)?;
        let mut places: ArrayVec<Place<Whole>, MOST_TERMINALS> = ArrayVec::new();
        for t in 0..terminals {
            let terminal = Terminal::new(t as u8).unwrap();
            let (table, first, second) = new_table(alloc)?;
            tables.push_reserved(table);
            seats.push_reserved(Seat::new(terminal, first));
            places.push(Place::new(second));
        }
        Ok(DeskParts {
            desk: Desk { tables },
            seats,
            clerk: ClerkSeat { places },
        })
    }

    /// How many terminals it has, 1 to 63.
    pub fn len(&self) -> usize
        ensures count { result ≡ length self.now }
        ensures in_range { (1 ≤ result) × (result ≤ MOST_TERMINALS) }
    {
        self.tables.len()
    }

    /// Stores an ask with the terminal's next turn. It is refused while the last ask has not been
    /// heard, and then where turn 1,048,575 was used; a refusal stores nothing.
    pub fn ask(&self, seat: &mut Seat, number: Number, body: Body) -> Result<(), AskRefusal>
        requires { IsSeatOf self.now seat.old }
        ensures waiting { (result ≡ Err AskRefusal.Waiting) ↔ Waits seat.old.view }
        ensures spent { (result ≡ Err AskRefusal.Spent)
            ↔ (¬ (Waits seat.old.view) × (length seat.old.view.asked ≡ 1048575)) }
        ensures ok { OnOk result (StoresAsk seat.old number body seat.new) }
        ensures err { OnErr result (seat.new ≡ seat.old) }
        ensures stays { IsSeatOf self.now seat.new }
    {
        let table = &self.tables[usize::from(seat.terminal.get())];
        seat.ask(table, number, body)
    }

    /// Looks once for the answer to the last ask, and gives it once. It looks also where no answer
    /// is awaited.
    #[inline(always)]
    pub fn hear(&self, seat: &mut Seat) -> Option<Reply>
        requires { IsSeatOf self.now seat.old }
        ensures looked { (word : ℕ)
            × (seat.new ≡ seat_with seat.old (with_hearing seat.old.view word))
            × HearsOf seat.old.view word result }
        ensures rests { IsSome result → ¬ (Waits seat.new.view) }
        // The word loaded is the last that is heard then, 0 for none. By the desk's rule it is the
        // last that was answered: so all of these are heard then.
        ensures last_word { seat.new.view.last ≡ last_of seat.new.view.heard }
        // All answers that the terminal was told of are heard then.
        ensures known { IsPrefix seat.old.view.told seat.new.view.heard }
        ensures finds { (reply : Reply) → IsToldAnswer seat.old.view reply → result ≡ Some reply }
        ensures in_range { IfSome result IsReply }
        ensures stays { IsSeatOf self.now seat.new }
    {
        let table = &self.tables[usize::from(seat.terminal.get())];
        seat.hear(table)
    }

    /// Looks once for an ask of the terminal that is new to the clerk.
    // (each turn looks at each terminal)
    #[inline(always)]
    pub fn look<L: Lending>(&self, clerk: &mut ClerkSeat<L>, terminal: Terminal) -> Option<Ask>
        requires clerk { IsClerkOf self.now clerk.old }
        requires terminal { terminal < length self.now }
        ensures looked { LooksOnce TakesOf clerk.old terminal clerk.new result }
        ensures tells { LookTells (view_at clerk.old terminal) (view_at clerk.new terminal) result }
        ensures stays { IsClerkOf self.now clerk.new }
    {
        let at = usize::from(terminal.get());
        let table = &self.tables[at];
        let place = &mut clerk.places[at];
        place.look(table, None)
    }

    /// Looks once for an ask of the terminal that is new to the clerk, by a seat that reads a note
    /// first: an ask that a seat ahead took is found, where it is new to the clerk too.
    pub fn look_for<L: Lending>(
        &self,
        clerk: &mut ClerkSeat<L>,
        terminal: Terminal,
        note: Note,
    ) -> Option<Ask>
        requires clerk { IsClerkOf self.now clerk.old }
        requires terminal { terminal < length self.now }
        requires note { IsNoteOf self.now terminal note }
        ensures looked { LooksOnce TakesOf clerk.old terminal clerk.new result }
        ensures tells { LookTells (view_at clerk.old terminal) (view_at clerk.new terminal) result }
        // The ask that was noted, and no other, where none as late was taken here.
        ensures noted { (ask : Ask) → Says (view_at clerk.old terminal) note.word ask
            → (result ≡ Some ask) × ((view_at clerk.new terminal).taken
            ≡ (view_at clerk.old terminal).taken ++ note.word ∷ []) }
        ensures stays { IsClerkOf self.now clerk.new }
    {
        let at = usize::from(terminal.get());
        let table = &self.tables[at];
        let place = &mut clerk.places[at];
        place.look(table, Some(note))
    }

    /// Stores the answer to the last ask that the clerk took of the terminal.
    pub fn answer<L: Lending>(&self, clerk: &mut ClerkSeat<L>, terminal: Terminal, reply: Reply)
        requires clerk { IsClerkOf self.now clerk.old }
        requires terminal { terminal < length self.now }
        requires owes { Owes (view_at clerk.old terminal) }
        ensures answered { let view = view_at clerk.old terminal in
            clerk.new ≡ clerk_with clerk.old terminal
            (with_answer view (reply_word (length view.taken)
            (number_of (last_of view.taken)) reply)) }
        ensures rests { ¬ (Owes (view_at clerk.new terminal)) }
        ensures in_range { IsReply reply }
        ensures stays { IsClerkOf self.now clerk.new }
    {
        let at = usize::from(terminal.get());
        let table = &self.tables[at];
        let place = &mut clerk.places[at];
        place.answer(table, reply)
    }

    /// Tells the clerk what the terminal has asked so far, and the terminal what the clerk has
    /// answered so far: after a later look that ask is taken, and after a later `hear` that
    /// answer is heard. It stores nothing, and gives nothing of what it loads.
    pub fn tell<L: Lending>(&self, seat: &mut Seat, clerk: &mut ClerkSeat<L>)
        requires seat { IsSeatOf self.now seat.old }
        requires clerk { IsClerkOf self.now clerk.old }
        ensures seat { seat.new ≡ seat_with seat.old
            (with_told_answers seat.old.view (view_at clerk.old seat.old.terminal).answered) }
        ensures clerk { clerk.new
            ≡ clerk_with clerk.old seat.old.terminal
            (with_told_asks (view_at clerk.old seat.old.terminal) seat.old.view.asked) }
        // What the two have stored fits together.
        ensures in_order { IsInOrder
            (lists_of seat.old.view (view_at clerk.old seat.old.terminal)) }
        ensures seat_stays { IsSeatOf self.now seat.new }
        ensures stays { IsClerkOf self.now clerk.new }
    {
        let at = usize::from(seat.terminal.get());
        let table = &self.tables[at];
        let place = &mut clerk.places[at];
        place.tell(table, seat)
    }

    /// Looks once at the terminal's answer word, and says whether it is the last word that the
    /// clerk stored there, 0 for none. It always is, since nobody else stores there.
    pub fn meet<L: Lending>(&self, seat: &mut Seat, clerk: &mut ClerkSeat<L>) -> bool
        requires seat { IsSeatOf self.now seat.old }
        requires clerk { IsClerkOf self.now clerk.old }
        ensures looked { seat.new ≡ seat_with seat.old
            (with_look seat.old.view (last_of (view_at clerk.old seat.old.terminal).answered)) }
        ensures meets { IsTrue result }
        ensures stays { IsSeatOf self.now seat.new }
        ensures clerk { clerk.new ≡ clerk.old }
        ensures heard { IsPrefix seat.old.view.heard
            (view_at clerk.old seat.old.terminal).answered }
    {
        let at = usize::from(seat.terminal.get());
        let table = &self.tables[at];
        let place = &mut clerk.places[at];
        place.meet(table, seat)
    }

    /// Cuts off seats that take asks ahead of the answers. They begin with what the clerk took and
    /// was told of, and the clerk keeps the right to answer. Only a clerk that has lent nothing can
    /// be split: so at most one seat of each terminal looks ahead.
    pub fn split(&self, clerk: ClerkSeat) -> (TakeSeat, ClerkSeat<Lender>)
        requires { IsClerkOf self.now clerk }
        ensures ahead { result.0 ≡ ahead_from clerk }
        ensures clerk { result.1 ≡ clerk }
        ensures stays { IsClerkOf self.now result.0 }
    {
        let ClerkSeat { places } = clerk;
        let mut ahead: ArrayVec<AheadPlace, MOST_TERMINALS> = ArrayVec::new();
        let mut behind: ArrayVec<Place<Lender>, MOST_TERMINALS> = ArrayVec::new();
        for place in places {
            let table = &self.tables[behind.len()];
            let (first, second) = place.split(table);
            ahead.push(first);
            behind.push(second);
        }
        (TakeSeat { places: ahead }, ClerkSeat { places: behind })
    }

    /// Looks once for an ask of the terminal that is new to these seats.
    pub fn take(&self, ahead: &mut TakeSeat, terminal: Terminal) -> Option<Ask>
        requires ahead { IsClerkOf self.now ahead.old }
        requires terminal { terminal < length self.now }
        ensures looked { LooksOnce TakesAheadOf ahead.old terminal ahead.new result }
        // The word loaded is the last that is taken then, 0 for none. By the desk's rule it is the
        // last that was asked.
        ensures last_word { (view_at ahead.new terminal).last
            ≡ last_of (view_at ahead.new terminal).taken }
        // The last ask that the seats were told of, or a later one, is taken then.
        ensures known { length (view_at ahead.old terminal).told
            ≤ turn_of (last_of (view_at ahead.new terminal).taken) }
        ensures finds { (ask : Ask) → IsToldAhead (view_at ahead.old terminal) ask
            → IsSome result × (turn_of (last_of (view_at ahead.new terminal).taken)
            ≡ length (view_at ahead.old terminal).told → result ≡ Some ask) }
        ensures in_range { IfSome result IsAsk }
        // The last ask that the seats took is the one that the call gives.
        ensures last { IfSome result (λ ask. last_of (view_at ahead.new terminal).taken
            ≡ ask_word (turn_of (last_of (view_at ahead.new terminal).taken)) ask.number ask.body) }
        ensures turn { IsSome result
            → turn_of (last_of (view_at ahead.new terminal).taken) < 2 ^ 20 }
        ensures stays { IsClerkOf self.now ahead.new }
    {
        let at = usize::from(terminal.get());
        let table = &self.tables[at];
        let place = &mut ahead.places[at];
        place.take(table)
    }

    /// Tells these seats what the terminal has asked so far: after a later look the last of it, or
    /// a later ask, is taken. What they took until then was asked. It stores nothing, and gives
    /// nothing of what it loads.
    pub fn tell_ahead(&self, seat: &mut Seat, ahead: &mut TakeSeat)
        requires seat { IsSeatOf self.now seat.old }
        requires ahead { IsClerkOf self.now ahead.old }
        ensures seat { seat.new ≡ seat.old }
        ensures ahead { ahead.new
            ≡ clerk_with ahead.old seat.old.terminal
            (with_told_asks (view_at ahead.old seat.old.terminal) seat.old.view.asked) }
        // Each word that these seats took was asked, in rising turns.
        ensures asked { IsAhead seat.old.view.asked
            (view_at ahead.old seat.old.terminal).taken }
        ensures stays { IsClerkOf self.now ahead.new }
    {
        let at = usize::from(seat.terminal.get());
        let table = &self.tables[at];
        let place = &mut ahead.places[at];
        place.learn(table, seat)
    }

    /// A note of the last ask that these seats took of the terminal, for the clerk's look there.
    pub fn note(&self, ahead: &mut TakeSeat, terminal: Terminal) -> Note
        requires ahead { IsClerkOf self.now ahead.old }
        requires terminal { terminal < length self.now }
        ensures of { IsNoteOf self.now terminal result }
        ensures word { result.word ≡ last_of (view_at ahead.old terminal).taken }
        ensures same { ahead.new ≡ ahead.old }
    {
        let at = usize::from(terminal.get());
        let table = &self.tables[at];
        let place = &mut ahead.places[at];
        place.note(table)
    }

    /// Gives the seats ahead back to the clerk, of each terminal the one that looks ahead there: only
    /// with it the clerk has back what it lent. It counts their looks from then on, and is else as it was.
    pub fn join(&self, ahead: TakeSeat, clerk: ClerkSeat<Lender>) -> ClerkSeat
        requires ahead { IsClerkOf self.now ahead }
        requires clerk { IsClerkOf self.now clerk }
        ensures joined { result ≡ with_looks_of ahead clerk }
        ensures stays { IsClerkOf self.now result }
    {
        let TakeSeat { places: seats } = ahead;
        let ClerkSeat { places } = clerk;
        let mut seats = seats.into_iter();
        let mut whole: ArrayVec<Place<Whole>, MOST_TERMINALS> = ArrayVec::new();
        for place in places {
            let table = &self.tables[whole.len()];
            let seat = seats.next().unwrap();
            whole.push(place.join(table, seat));
        }
        ClerkSeat { places: whole }
    }
}
