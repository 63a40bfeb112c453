//! Commands.
use lift_base::{Body, Number, Terminal};

/// What a terminal asks.
#[derive(Clone, Copy, PartialEq, Eq)]
pub struct Command {
    /// Who asks.
    pub terminal: Terminal,
    /// 0 for a position, else the number at the terminal, from 1.
    pub number: Number,
    /// What is asked.
    pub body: Body,
}
