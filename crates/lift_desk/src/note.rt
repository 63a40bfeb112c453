//! A note of an ask that was taken ahead of the clerk.
ghost use Rattle.std.specs.Prelude.{◌≡◌, false};
ghost use Rattle.lift_desk.specs.Seats.{note_of};

use crate::looker::Looker;
use std::marker::Model;

/// Says of one ask that a seat ahead took it, or stands in for such a note. It has no rights at the
/// desk and no bytes, and may go to another thread. Contracts see its table and the ask's word.
#[derive(Drop)]
pub struct Note {
    looker: Looker,
}

impl Model for Note {
    ghost use Rattle.std.specs.Prelude.{◌≡◌};
    ghost use Rattle.lift_desk.specs.Seats.{NoteState, note_of};

    ghost Value = { NoteState };

    ghost view = { λ n. note_of n.looker };

    // It has counted no look.
    ghost invariant = { λ n.
        (n.looker.view.clerk.looks ≡ 0) × (n.looker.view.terminal.looks ≡ 0) };
}

impl Default for Note {
    ghost is_default = { λ n. n.seated ≡ false };

    fn default() -> Self {
        Note {
            looker: Looker::blank(),
        }
    }
}

impl Note {
    pub(crate) fn new(looker: Looker) -> Note
        requires { (looker.view.clerk.looks ≡ 0) × (looker.view.terminal.looks ≡ 0) }
        ensures { result ≡ note_of looker }
    {
        Note { looker }
    }

    pub(crate) fn into_looker(self) -> Looker
        ensures same { note_of result ≡ self }
        ensures uncounted { (result.view.clerk.looks ≡ 0) × (result.view.terminal.looks ≡ 0) }
    {
        let Note { looker } = self;
        looker
    }
}
