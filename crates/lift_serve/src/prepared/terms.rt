//! What a serving is bound to.

ghost use Rattle.std.specs.Prelude.{◌≡◌};

use crate::over::Over;
use crate::socket::Listening;
use std::marker::Model;
use std::sync::atomic::{AtomicBool, Ordering};

/// What a serving is bound to: its socket, how many connections are to end there, and whether they
/// are still read. Each serving has one, which nobody copies or makes another of. So whoever asks
/// whether it is over, or counts an end, does so by that socket and that number.
#[derive(Drop)]
pub struct ServingTerms {
    listening: Listening,
    sessions: u32,
    /// Nothing more is read.
    is_over: AtomicBool,
}

impl Model for ServingTerms {
    ghost use Rattle.lift_serve.specs.Open.{EndedState};

    ghost Value = { EndedState };

    ghost view = { λ b. record { listener = b.listening; sessions = b.sessions } };
}

impl ServingTerms {
    /// At this socket until so many connections have ended, which are read still.
    pub(super) fn new(listening: Listening, sessions: u32) -> Self
        ensures { result ≡ record { listener = listening; sessions = sessions } }
    {
        ServingTerms {
            listening,
            sessions,
            is_over: AtomicBool::new(false),
        }
    }

    /// Its socket.
    pub(crate) fn listening(&self) -> &Listening {
        &self.listening
    }

    /// How many connections are to end.
    pub(crate) fn sessions(&self) -> u32
        ensures { result ≡ self.now.sessions }
    {
        self.sessions
    }

    /// Whether connections are read no more.
    pub(crate) fn is_over(&self) -> bool {
        self.is_over.load(Ordering::SeqCst)
    }

    /// Nothing more is read.
    pub(crate) fn end_reading(&self, _over: &Over) {
        self.is_over.store(true, Ordering::SeqCst);
    }
}
