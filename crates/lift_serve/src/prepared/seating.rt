//! The seats of a desk before their first sessions.

ghost use Rattle.std.specs.Prelude.{◌≡◌, ◌≤◌, ◌++◌, ◌∷◌, [], Some, IfOk, length};
ghost use Rattle.lift_desk.specs.Seats.{AreSeatsOf, IsSeatOf, seats_from};
ghost use Rattle.lift_register.specs.Register.{last_of as last_in};
ghost use Rattle.lift_serve.specs.Lobby.{AreInOrder, found_seats, found_at};
ghost use Rattle.lift_serve.specs.Visits.{IsNewSeat, known_of, letter_in as letter_of};

mod held;
mod lobby;

use crate::pace::Pager;
use arrayvec::ArrayVec;
pub use held::HeldSeat;
use lift_base::{Content, Letter, MOST_TERMINALS, Number, Terminal};
use lift_desk::{Desk, Seat};
use lift_kiosk::LastLetter;
use lift_memory::{Memory, with_room};
use lift_register::Register;
pub use lobby::{Lobby, NoSeat, SeatReturn};
use std::alloc::Global;

/// The letter that a kiosk's last call got.
fn letter_in(content: &Content) -> Option<Letter>
    ensures { result ≡ letter_of content.now }
{
    match content {
        Content::Letter { car, .. } => Some(*car),
        Content::Stopped { .. } => None,
    }
}

/// What a register knows of a terminal's last command.
fn last_of(register: &Register, terminal: Terminal) -> LastLetter
    ensures { result ≡ known_of (last_in register.now terminal) }
{
    match register.last(terminal) {
        Some(last) => LastLetter {
            number: last.number,
            letter: letter_in(&last.content),
        },
        None => LastLetter {
            number: Number::default(),
            letter: None,
        },
    }
}

/// A pager for each terminal that there can be.
#[tactic(auto, using(std::proofs::lemmas::Option::gets))]
pub(super) fn new_pagers(alloc: Global) -> Result<Vec<Pager>, Memory>
    ensures count { IfOk result (λ pagers. length pagers.items ≡ MOST_TERMINALS) }
    ensures in_order { IfOk result (λ pagers. AreInOrder pagers.items) }
{
    let mut pagers = with_room(alloc, MOST_TERMINALS)?;
    for index in 0..MOST_TERMINALS {
        let pager = Pager::new(Terminal::new(index as u8).unwrap());
        pagers.push_reserved(pager);
    }
    Ok(pagers)
}

/// A new seat's place, with what a register knows of its terminal.
#[tactic(auto, using(std::proofs::lemmas::Option::gets))]
fn held_of<'d>(desk: &'d Desk, pagers: &'d [Pager], seat: Seat, register: &Register) -> HeldSeat<'d>
    requires pagers { MOST_TERMINALS ≤ length pagers.now }
    requires in_order { AreInOrder pagers.now }
    requires new { IsNewSeat seat }
    requires seated { IsSeatOf desk.now seat }
    ensures { result ≡ found_at register.now desk.now seat }
{
    let terminal = seat.terminal();
    let pager = &pagers[usize::from(terminal.get())];
    let found = last_of(register, terminal);
    HeldSeat::new(desk, pager, seat, found)
}

/// The place of the next terminal.
fn add<'d>(places: &mut ArrayVec<Option<HeldSeat<'d>>, MOST_TERMINALS>, held: HeldSeat<'d>)
    requires next { held.seat.terminal ≡ length places.old.items }
    ensures { places.new.items ≡ places.old.items ++ Some held.entry ∷ [] }
{
    let _terminal = held.terminal().get();
    places.push(Some(held));
}

/// The lobby with all seats of a desk, each at its place, and what a register knows of their
/// terminals.
#[tactic(auto, using(crate::proofs::Places::next_is_new, crate::proofs::Places::next_place))]
pub(super) fn lobby_at<'d>(
    desk: &'d Desk,
    pagers: &'d [Pager],
    seats: Vec<Seat>,
    register: &Register,
) -> Lobby<'d>
    requires pagers { MOST_TERMINALS ≤ length pagers.now }
    requires in_order { AreInOrder pagers.now }
    requires seats { AreSeatsOf desk.now seats.items }
    requires all { seats.items ≡ seats_from 0 desk.now }
    ensures desk { result.desk ≡ desk.now }
    ensures all { result.places ≡ found_seats register.now desk.now seats.items }
{
    let mut places = ArrayVec::new();
    for seat in seats {
        add(&mut places, held_of(desk, pagers, seat, register));
    }
    Lobby::new(desk, places)
}
