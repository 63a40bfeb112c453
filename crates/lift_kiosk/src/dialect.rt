//! What a kind of terminal says in its sessions.

ghost use Rattle.std.specs.Prelude.{◌≡◌, ℕ, List, IfSome, IfNone};
ghost use Rattle.lift_base.specs.declared.command.Reply.{Reply as ReplyValue};
ghost use Rattle.lift_kiosk.specs.Lines.{IsShortLine};
ghost use Rattle.lift_kiosk.specs.declared.terms.LastLetter.{LastLetter as LastValue};
ghost use Rattle.lift_kiosk.specs.declared.dialect.Wanted.{Wanted as WantedValue};

use crate::terms::LastLetter;
use lift_base::{Number, Reply};
use lift_desk::Ask;

/// What a line asks for.
#[derive(Clone, Copy)]
pub enum Wanted {
    Ask(Ask),
    /// A command for a floor that no building has.
    NoFloor,
}

/// The lines of a kind of terminal, and which answers become its last command.
pub trait Dialect {
    // The line, without its end, asks for this.
    ghost wants: { List ℕ → WantedValue → Type 0 };

    // The last command, after an ask of this number was answered so.
    ghost keeps: { LastValue → ℕ → ReplyValue → LastValue };

    /// What a line asks for; none where it is malformed.
    fn read(line: &[u8]) -> Option<Wanted>
        ensures some { IfSome result (λ wanted. wants line.now wanted) }
        ensures none { IfNone result ((wanted : WantedValue) → wants line.now wanted → ⊥) };

    /// The last command, after this answer.
    fn keep(last: &LastLetter, number: Number, reply: &Reply) -> LastLetter
        ensures { result ≡ keeps last.now number reply.now };

    ghost short: { (line : List ℕ) (wanted : WantedValue) → wants line wanted → IsShortLine line };
}
