//! What terminals are answered, and the evidence that it may be.

ghost use Rattle.std.specs.Prelude.{◌≡◌, ◌<◌, ◌↔◌, ◌∷◌, ◌++◌, All, IsTrue, Some, [], is_some};
ghost use Rattle.std.specs.Prelude.{length};
ghost use Rattle.lift_desk.specs.Rule.{IsInOrder};
ghost use Rattle.lift_desk.specs.Seats.{IsClerkOf, IsNoteOf, IsSeatOf, LookTells, LooksOnce, Owes};
ghost use Rattle.lift_desk.specs.Seats.{OwesNothing, Says, TakesOf, clerk_with, seat_with, view_at};
ghost use Rattle.lift_desk.specs.Steps.{with_told_answers, with_told_asks, lists_of};
ghost use Rattle.lift_desk.specs.Words.{IsReply};
ghost use Rattle.lift_desk.specs.declared.words.Ask.{Ask};
ghost use Rattle.lift_clerk.specs.Answering.{AreOwed, terminals_in, with_answers};
ghost use Rattle.lift_clerk.specs.Answering.{stored_reply, stored_replies};

use arrayvec::ArrayVec;
use lift_base::{MOST_ENTRIES, Reply, Terminal};
use lift_desk::{Ask, ClerkSeat, Desk, Lending, Note, Seat, Whole};
use lift_keeper::Safe;
use std::marker::Model;

/// What a terminal is to be answered where its batch is safe.
#[derive(Clone, Copy, Default)]
pub struct DueAnswer {
    pub terminal: Terminal,
    pub reply: Reply,
}

impl DueAnswer {
    /// The reply as it is stored: Unknown where its batch isn't known to be safe.
    fn stored(self, is_safe: bool) -> Reply
        ensures { result ≡ stored_reply is_safe self.reply }
    {
        if is_safe { self.reply } else { Reply::Unknown }
    }
}

/// Stores an answer for each of these terminals, to the last ask that was taken there: all the
/// replies where the batch is safe, else Unknown for each.
fn store_all<L: Lending>(
    desk: &Desk,
    seat: &mut ClerkSeat<L>,
    answers: &ArrayVec<DueAnswer, MOST_ENTRIES>,
    is_safe: bool,
)
    requires seated { IsClerkOf desk.now seat.old }
    requires owed { AreOwed desk.now seat.old (terminals_in answers.now.items) }
    ensures stored { seat.new ≡ with_answers is_safe seat.old answers.now.items }
    ensures in_range { All IsReply (stored_replies is_safe answers.now.items) }
    ensures seated { IsClerkOf desk.now seat.new }
{
    for place in 0..answers.len() {
        let answer = answers[place];
        desk.answer(seat, answer.terminal, answer.stored(is_safe));
    }
}

/// The clerk's seats, for whoever answers by them. No reply but Unknown is stored there without a `Safe`,
/// the evidence of a commit: so none stands before a commit has succeeded, also where a call never
/// returns. Contracts see the seats.
#[derive(Drop)]
pub struct AnsweringSeat<L: Lending = Whole> {
    seat: ClerkSeat<L>,
}

impl<L: Lending> Model for AnsweringSeat<L> {
    ghost use Rattle.std.specs.Prelude.{List};
    ghost use Rattle.lift_desk.specs.Seats.{ClerkPlace};

    ghost Value = { List ClerkPlace };

    ghost view = { λ s. s.seat };
}

impl<L: Lending> AnsweringSeat<L> {
    /// These seats.
    pub fn new(seat: ClerkSeat<L>) -> Self
        ensures { result ≡ seat }
    {
        AnsweringSeat { seat }
    }

    /// Looks once for an ask of the terminal that is new to the clerk.
    // (each turn looks at each terminal)
    #[inline(always)]
    pub fn look(&mut self, desk: &Desk, terminal: Terminal) -> Option<Ask>
        requires clerk { IsClerkOf desk.now self.old }
        requires terminal { terminal < length desk.now }
        ensures looked { LooksOnce TakesOf self.old terminal self.new result }
        ensures tells { LookTells (view_at self.old terminal) (view_at self.new terminal) result }
        ensures stays { IsClerkOf desk.now self.new }
    {
        desk.look(&mut self.seat, terminal)
    }

    /// The same, by a seat that reads a note first: an ask that a seat ahead took is found, where it is
    /// new to the clerk too.
    pub fn look_for(&mut self, desk: &Desk, terminal: Terminal, note: Note) -> Option<Ask>
        requires clerk { IsClerkOf desk.now self.old }
        requires terminal { terminal < length desk.now }
        requires note { IsNoteOf desk.now terminal note }
        ensures looked { LooksOnce TakesOf self.old terminal self.new result }
        ensures tells { LookTells (view_at self.old terminal) (view_at self.new terminal) result }
        // The ask that was noted, and no other, where none as late was taken here.
        ensures noted { (ask : Ask) → Says (view_at self.old terminal) note.word ask
            → (result ≡ Some ask) × ((view_at self.new terminal).taken
            ≡ (view_at self.old terminal).taken ++ note.word ∷ []) }
        ensures stays { IsClerkOf desk.now self.new }
    {
        desk.look_for(&mut self.seat, terminal, note)
    }

    /// Stores an answer for each of these terminals, to the last ask that was taken there: all the
    /// replies, which takes the evidence that their batch is safe, or Unknown for each.
    pub fn answer_all(
        &mut self,
        desk: &Desk,
        answers: &ArrayVec<DueAnswer, MOST_ENTRIES>,
        safe: Option<Safe>,
    )
        requires seated { IsClerkOf desk.now self.old }
        requires owed { AreOwed desk.now self.old (terminals_in answers.now.items) }
        ensures stored { self.new ≡ with_answers (is_some safe) self.old answers.now.items }
        ensures in_range { All IsReply (stored_replies (is_some safe) answers.now.items) }
        ensures seated { IsClerkOf desk.now self.new }
    {
        store_all(desk, &mut self.seat, answers, safe.is_some());
    }

    /// Whether the clerk took an ask of the terminal that it has not answered.
    pub fn owes(&self, terminal: Terminal) -> bool
        requires { terminal < length self.now }
        ensures { IsTrue result ↔ Owes (view_at self.now terminal) }
    {
        self.seat.owes(terminal)
    }

    /// Tells the clerk what the terminal has asked so far, and the terminal what the clerk has answered
    /// so far. It stores nothing, and gives nothing of what it loads.
    pub fn tell(&mut self, desk: &Desk, seat: &mut Seat)
        requires seat { IsSeatOf desk.now seat.old }
        requires clerk { IsClerkOf desk.now self.old }
        ensures seat { seat.new ≡ seat_with seat.old
            (with_told_answers seat.old.view (view_at self.old seat.old.terminal).answered) }
        ensures clerk { self.new
            ≡ clerk_with self.old seat.old.terminal
            (with_told_asks (view_at self.old seat.old.terminal) seat.old.view.asked) }
        // What the two have stored fits together.
        ensures in_order { IsInOrder
            (lists_of seat.old.view (view_at self.old seat.old.terminal)) }
        ensures seat_stays { IsSeatOf desk.now seat.new }
        ensures stays { IsClerkOf desk.now self.new }
    {
        desk.tell(seat, &mut self.seat)
    }

    /// The seats, which owe no answer.
    pub fn into_seat(self) -> ClerkSeat<L>
        requires answered { OwesNothing self }
        ensures { result ≡ self }
    {
        self.seat
    }
}
