//! What can happen.
use lift_base::{Body, Letter, Number, Reply, Terminal};

/// What a power cut, or a fault, leaves of the batch in flight.
#[derive(Clone, Copy, PartialEq, Eq)]
pub enum Kept {
    /// The batch is gone.
    Safe,
    /// The batch is in.
    WithBatch,
}

/// What may happen next.
#[derive(Clone, Copy)]
pub enum Event {
    /// A terminal asks.
    Ask(Terminal, Number, Body),
    /// The ask of a terminal is looked at and decided. A new call is given this car, any other
    /// command none.
    Take(Terminal, Option<Letter>),
    /// What was taken becomes a batch, the last of the queue.
    Seal,
    /// The first batch of the queue becomes the one in flight.
    Pull,
    /// One device call of a checkpoint, before the batch in flight is written. Either half that may
    /// be picked reads as the register of what is safe, so nothing changes that a recovery could
    /// see.
    Fold,
    /// One write of a body sector of the batch, or of the gate after it.
    Body,
    FirstSync,
    /// The write of the batch's gate, also one that fails.
    Gate,
    SecondSync,
    /// One reply is stored.
    Answer(Terminal),
    /// A terminal hears its next reply.
    Hear(Terminal),
    /// A device call fails, of a batch or of a reopening.
    Fault,
    /// The power fails.
    Cut(Kept),
    /// A whole recovery, after a power cut, after a fault, or while running and no batch is on its
    /// way. What was taken and not sealed is dropped, and answered Unknown.
    Reopen(Kept),
}

/// How far the batch in flight is.
#[derive(Clone, Copy, PartialEq, Eq)]
pub enum Phase {
    /// There is none.
    Idle,
    /// This many of its body sectors and of the gate after it are written.
    Writing(u8),
    /// These are synced.
    Synced,
    /// Its gate is written.
    GateWritten,
}

/// Whether the clerk can work.
#[derive(Clone, Copy, PartialEq, Eq)]
pub enum Power {
    /// It can.
    Running,
    /// A device call failed since the last opening.
    Broken,
    /// The power was cut, and its recovery hasn't ended.
    Off(Kept),
}

/// A command that was taken, with its reply.
#[derive(Clone, Copy)]
pub struct Taken {
    pub terminal: Terminal,
    pub number: Number,
    pub body: Body,
    pub reply: Reply,
}

/// A reply that was stored.
#[derive(Clone, Copy)]
pub struct Answer {
    pub terminal: Terminal,
    pub number: Number,
    pub reply: Reply,
}

impl Power {
    ghost use Rattle.std.specs.Prelude.{◌≡◌};
    ghost use Rattle.lift_world.specs.World.{is_running, is_broken, is_off};

    /// Whether the clerk can work.
    pub fn is_running(&self) -> bool
        ensures { result ≡ is_running self.now }
    {
        matches!(self, Power::Running)
    }

    /// Whether a device call failed since the last opening.
    pub fn is_broken(&self) -> bool
        ensures { result ≡ is_broken self.now }
    {
        matches!(self, Power::Broken)
    }

    /// Whether the power was cut, and no recovery has ended since.
    pub fn is_off(&self) -> bool
        ensures { result ≡ is_off self.now }
    {
        matches!(self, Power::Off(_))
    }
}

impl Taken {
    ghost use Rattle.std.specs.Prelude.{◌≡◌};
    ghost use Rattle.lift_world.specs.Next.{unknown_to, answer_of};

    /// The command answered Unknown.
    pub fn unknown(&self) -> Taken
        ensures { result ≡ unknown_to self.now }
    {
        Taken {
            reply: Reply::Unknown,
            ..*self
        }
    }

    /// Its reply, as it is stored.
    pub fn answer(&self) -> Answer
        ensures { result ≡ answer_of self.now }
    {
        Answer {
            terminal: self.terminal,
            number: self.number,
            reply: self.reply,
        }
    }
}
