//! The terminals' seats at a desk: what they ask, and what they hear.

ghost use Rattle.std.specs.Prelude.{◌≡◌, ◌<◌, ◌++◌, ◌↔◌, List, ℕ, length, slice_set, string_bytes};
ghost use Rattle.std.specs.Prelude.{OnOk, OnErr, IsTrue};
ghost use Rattle.lift_desk.specs.Rule.{IsInOrder};
ghost use Rattle.lift_desk.specs.Seats.{AreSeatsOf, IsClerkOf, TerminalSeat, Waits, seats_from};
ghost use Rattle.lift_desk.specs.Seats.{view_at};
ghost use Rattle.lift_desk.specs.Spelled.{IsAsk};
ghost use Rattle.lift_desk.specs.Steps.{lists_of};
ghost use Rattle.lift_clerk.specs.Clerk.{IsToldAt};
ghost use Rattle.lift_replay.specs.Terminals.{AreTerminalsOf, AllHear, AreTold, Hears};
ghost use Rattle.lift_replay.specs.Terminals.{having_asked, seat_at, told_seat, waiting_count};

use crate::refused::NoMemory;
use crate::report::push_heard;
use lift_base::{Body, Number, Terminal};
use lift_clerk::Clerk;
use lift_desk::{AskRefusal, Desk, Seat};
use lift_disk::FuseDisk;
use lift_policy::Etd;

/// The seats of a desk's terminals, in order.
#[derive(Drop)]
pub struct Terminals<'d> {
    desk: &'d Desk,
    seats: Vec<Seat>,
    ghost own: { AreTerminalsOf desk.now seats.items },
}

impl<'d> Terminals<'d> {
    /// The terminals of a new desk: nobody has asked.
    pub fn new(desk: &'d Desk, seats: Vec<Seat>) -> Self
        requires seated { AreSeatsOf desk.now seats.items }
        requires new { seats.items ≡ seats_from 0 desk.now }
        ensures desk { result.desk.now ≡ desk.now }
        ensures seats { result.seats.items ≡ seats_from 0 desk.now }
    {
        Terminals { desk, seats }
    }

    /// The terminal asks, unless its last ask has not been heard or all its turns were used.
    pub fn ask(&mut self, terminal: Terminal, number: Number, body: Body) -> Result<(), AskRefusal>
        requires { terminal < length self.old.seats.items }
        ensures waiting { (result ≡ Err AskRefusal.Waiting)
            ↔ Waits (seat_at self.old.seats.items terminal).view }
        ensures spent { (result ≡ Err AskRefusal.Spent)
            ↔ (¬ (Waits (seat_at self.old.seats.items terminal).view)
            × (length (seat_at self.old.seats.items terminal).view.asked ≡ 1048575)) }
        ensures asked { OnOk result (self.new.seats.items
            ≡ slice_set self.old.seats.items terminal
            (having_asked (seat_at self.old.seats.items terminal) number body)) }
        ensures in_range { OnOk result (IsAsk (record { number = number; body = body })) }
        ensures kept { OnErr result (self.new.seats.items ≡ self.old.seats.items) }
        ensures desk { self.new.desk ≡ self.old.desk }
        ensures count { length self.new.seats.items ≡ length self.old.seats.items }
    {
        let seat = &mut self.seats[usize::from(terminal.get())];
        self.desk.ask(seat, number, body)
    }

    /// Tells the clerk what a terminal has asked so far, and the terminal what was answered there
    /// so far.
    #[inline(always)]
    pub fn tell(&mut self, clerk: &mut Clerk<'_, '_, FuseDisk, Etd>, index: usize)
        requires desk { clerk.old.desk ≡ self.old.desk.now }
        requires inside { index < length self.old.seats.items }
        ensures seats { self.new.seats.items
            ≡ slice_set self.old.seats.items index
            (told_seat (seat_at self.old.seats.items index) (view_at clerk.old.seat index)) }
        ensures told { IsToldAt clerk.old clerk.new index
            (seat_at self.old.seats.items index).view.asked }
        ensures in_order { IsInOrder
            (lists_of (seat_at self.old.seats.items index).view (view_at clerk.old.seat index)) }
        ensures desk { self.new.desk ≡ self.old.desk }
    {
        clerk.tell(&mut self.seats[index]);
    }

    /// A terminal that waits looks for its answer, and the report shows what it hears.
    #[inline(always)]
    fn push_heard_at(&mut self, report: &mut String, index: usize) -> Result<(), NoMemory>
        requires { index < length self.old.seats.items }
        ensures hears { OnOk result ((line : List ℕ)
            × Hears (seat_at self.old.seats.items index) (seat_at self.new.seats.items index) line
            × (string_bytes report.new ≡ string_bytes report.old ++ line)) }
        ensures others { self.new.seats.items
            ≡ slice_set self.old.seats.items index (seat_at self.new.seats.items index) }
        ensures desk { self.new.desk ≡ self.old.desk }
    {
        let seat = &mut self.seats[index];
        let Some(number) = seat.pending() else {
            return Ok(());
        };
        let Some(reply) = self.desk.hear(seat) else {
            return Ok(());
        };
        push_heard(report, seat.terminal(), number, reply)
    }

    /// Whether the terminal's last ask has not been heard.
    #[inline(always)]
    fn waits_at(&self, index: usize) -> bool
        requires { index < length self.now.seats.items }
        ensures { IsTrue result ↔ Waits (seat_at self.now.seats.items index).view }
    {
        self.seats[index].pending().is_some()
    }

    /// How many terminals wait for an answer.
    fn count_waiting(&self) -> usize
        ensures { result ≡ waiting_count self.now.seats.items }
    {
        let mut waiting = 0;
        for seat in &self.seats {
            if seat.pending().is_some() {
                waiting += 1;
            }
        }
        waiting
    }

    /// After a turn, which took so many asks where that is known, the clerk is told what each terminal
    /// has asked so far, and each terminal what was answered there so far. By rising terminal those
    /// that wait look for it, and the report shows what each hears. Where it took as many as
    /// terminals wait, it took just theirs: the others have nothing to hear, and are told nothing.
    pub fn push_all_told(
        &mut self,
        report: &mut String,
        clerk: &mut Clerk<'_, '_, FuseDisk, Etd>,
        taken: Option<usize>,
    ) -> Result<(), NoMemory>
        requires desk { clerk.old.desk ≡ self.old.desk.now }
        requires places { length clerk.old.seat ≡ length self.old.seats.items }
        ensures hears { OnOk result ((told : List TerminalSeat) × (lines : List ℕ)
            × AreTold taken self.old.seats.items told clerk.old.seat clerk.new.seat
            × AllHear told self.new.seats.items lines
            × (string_bytes report.new ≡ string_bytes report.old ++ lines)) }
        ensures rest { clerk.new ≡ record clerk.old { seat = clerk.new.seat } }
        ensures desk { self.new.desk ≡ self.old.desk }
    {
        let waiting_alone = taken == Some(self.count_waiting());
        for terminal in 0..self.desk.len() {
            if waiting_alone && !self.waits_at(terminal) {
                continue;
            }
            self.tell(clerk, terminal);
            self.push_heard_at(report, terminal)?;
        }
        Ok(())
    }

    /// All terminals that wait for an answer look for it, by rising terminal, and the report shows
    /// what each hears.
    pub fn push_all_heard(&mut self, report: &mut String) -> Result<(), NoMemory>
        ensures hears { OnOk result ((lines : List ℕ)
            × AllHear self.old.seats.items self.new.seats.items lines
            × (string_bytes report.new ≡ string_bytes report.old ++ lines)) }
        ensures desk { self.new.desk ≡ self.old.desk }
        ensures count { length self.new.seats.items ≡ length self.old.seats.items }
    {
        for index in 0..self.desk.len() {
            self.push_heard_at(report, index)?;
        }
        Ok(())
    }
}
