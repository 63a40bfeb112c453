//! Where the terminals' seats wait for their next sessions.

ghost use Rattle.std.specs.Prelude.{◌≡◌, ◌≤◌, IfOk, IfErr, IfSome, IfNone, None, Some, true, false};
ghost use Rattle.std.specs.Prelude.{length, slice_get, slice_set};
ghost use Rattle.lift_serve.specs.Lobby.{IsLobbyOf};

use super::held::HeldSeat;
use crate::prepared::connections::Ticket;
use arrayvec::ArrayVec;
use lift_base::{MOST_TERMINALS, Terminal};
use lift_desk::Desk;
use std::marker::Model;
use std::snapshot::Snapshot;

/// The seats of a desk that no session has, each at its terminal's place: there is one for each
/// terminal of the desk. Who has no desk can make none.
#[derive(Drop)]
pub struct Lobby<'d> {
    desk: &'d Desk,
    places: ArrayVec<Option<HeldSeat<'d>>, MOST_TERMINALS>,
}

impl<'d> Model for Lobby<'d> {
    ghost use Rattle.lift_serve.specs.Lobby.{IsLobbyOf, LobbyState};

    ghost Value = { LobbyState };

    ghost view = { λ l. record { desk = l.desk.now; places = l.places.items } };

    ghost invariant = { λ l. IsLobbyOf l.desk.now l.places.items };
}

/// Evidence that a lobby was asked for a terminal's seat, which was taken out, or which its desk
/// hasn't. Only `take` makes one.
#[derive(Drop)]
pub struct NoSeat<'d> {
    desk: &'d Desk,
    terminal: Terminal,
    is_out: bool,
}

impl<'d> Model for NoSeat<'d> {
    ghost use Rattle.lift_serve.specs.Lobby.{NoSeatState};

    ghost Value = { NoSeatState };

    ghost view = { λ n. record { desk = n.desk.now; terminal = n.terminal; is_out = n.is_out } };
}

impl<'d> NoSeat<'d> {
    /// Whether a session has the seat; else the desk hasn't the terminal.
    pub fn is_out(&self) -> bool
        ensures { result ≡ self.now.is_out }
    {
        self.is_out
    }
}

/// Evidence that this place of a terminal, with its seat and what is known of it, was put back into
/// a lobby. Only `put_back` makes one.
#[derive(Drop)]
pub struct SeatReturn<'d> {
    held: Snapshot<HeldSeat<'d>>,
}

impl<'d> Model for SeatReturn<'d> {
    ghost use Rattle.lift_serve.specs.Visits.{HeldState};

    ghost Value = { HeldState };

    ghost view = { λ r. r.held.value };
}

impl<'d> Lobby<'d> {
    /// Of a desk, with these places of its terminals.
    pub(super) fn new(
        desk: &'d Desk,
        places: ArrayVec<Option<HeldSeat<'d>>, MOST_TERMINALS>,
    ) -> Self
        requires { IsLobbyOf desk.now places.items }
        ensures { result ≡ record { desk = desk.now; places = places.entry.items } }
    {
        Lobby { desk, places }
    }

    /// What is at a terminal's place, which is vacant then; none where the desk hasn't the
    /// terminal.
    #[tactic(auto, using(std::proofs::lemmas::Option::gets))]
    fn vacate(&mut self, terminal: Terminal) -> Option<Option<HeldSeat<'d>>>
        ensures found { result ≡ slice_get self.old.places terminal }
        ensures vacant { IfSome result (λ _.
            self.new ≡ record self.old { places = slice_set self.old.places terminal None }) }
        ensures none { IfNone result (self.new ≡ self.old) }
    {
        match self.places.get_mut(usize::from(terminal.get())) {
            Some(place) => Some(place.take()),
            None => None,
        }
    }

    /// The seat of a terminal, and its place, which is vacant then. It is refused only where the
    /// seat was taken out before, or where the desk hasn't the terminal. Each connection may ask
    /// once, by its ticket: so whoever is told that the seat is out didn't take it.
    #[tactic(auto, using(std::proofs::lemmas::Option::gets, crate::proofs::Places::is_at_its_place, crate::proofs::Places::nothing_taken))]
    pub fn take(&mut self, ticket: Ticket, terminal: Terminal) -> Result<HeldSeat<'d>, NoSeat<'d>>
        ensures own { IfOk result (λ taken. taken.seat.terminal ≡ terminal) }
        ensures there { IfOk result (λ taken. slice_get self.old.places terminal ≡ Some (Some taken)) }
        ensures taken { IfOk result (λ taken.
            self.new ≡ record self.old { places = slice_set self.old.places terminal None }) }
        ensures asked { IfErr result (λ no_seat. (no_seat.desk ≡ self.old.desk)
            × (no_seat.terminal ≡ terminal)) }
        ensures out { IfErr result (λ no_seat. no_seat.is_out ≡ true
            → slice_get self.old.places terminal ≡ Some None) }
        ensures unknown { IfErr result (λ no_seat. no_seat.is_out ≡ false
            → length no_seat.desk ≤ no_seat.terminal) }
        ensures unchanged { IfErr result (λ _. self.new ≡ self.old) }
    {
        let _used = ticket;
        let desk = self.desk;
        match self.vacate(terminal) {
            Some(Some(held)) => Ok(held),
            Some(None) => Err(NoSeat {
                desk,
                terminal,
                is_out: true,
            }),
            None => Err(NoSeat {
                desk,
                terminal,
                is_out: false,
            }),
        }
    }

    /// Its next session may have the seat that was taken out.
    #[tactic(auto, using(crate::proofs::Places::own_place, lift_desk::specs::lemmas::Places::refill_set))]
    pub fn put_back(&mut self, held: HeldSeat<'d>) -> SeatReturn<'d>
        ensures put { self.new ≡ record self.old {
          places = slice_set self.old.places
              held.entry.seat.terminal (Some held.entry);
        } }
        ensures returned { result ≡ held.entry }
    {
        let terminal = held.terminal();
        let at = usize::from(terminal.get());
        let returned = SeatReturn {
            held: Snapshot::of(&held),
        };
        if at < self.places.len() {
            self.places[at] = Some(held);
        }
        returned
    }
}
