//! What a line of a script does to the terminals at a desk.
ghost use Rattle.std.specs.Prelude.{◌≡◌, ◌<◌, ◌+◌, length};

use crate::scripts::trouble::Trouble;
use lift_base::{Body, Number, Terminal};
use lift_building::Building;
use lift_clerk::Counts;
use lift_desk::AskRefusal;
use lift_keeper::KeeperFault;
use lift_policy::Command;
use lift_replay::report::{push_fault, push_spent, push_turn, push_waiting};
use lift_replay::{ScriptAsk, ScriptLine, Terminals, parse};

/// (what a caller of `Terminals::ask` has to know of all its clauses makes its proof dear)
fn ask(
    terminals: &mut Terminals<'_>,
    terminal: Terminal,
    number: Number,
    body: Body,
) -> Result<(), AskRefusal>
    requires { terminal < length terminals.old.seats.items }
    ensures { length terminals.new.seats.items ≡ length terminals.old.seats.items }
{
    terminals.ask(terminal, number, body)
}

fn parsed(text: &str) -> Option<ScriptLine> {
    parse(text)
}

fn is_known(line: &ScriptLine, building: &Building) -> bool {
    line.is_known(building)
}

/// The terminals of a building, at one desk.
#[derive(Drop)]
pub(crate) struct Station<'d, 'b> {
    building: &'b Building,
    terminals: Terminals<'d>,
    ghost count: { length terminals.seats.items ≡ 16 + length building.now.kiosks },
}

impl<'d, 'b> Station<'d, 'b> {
    /// The building's terminals at a desk.
    pub(crate) fn new(building: &'b Building, terminals: Terminals<'d>) -> Self
        requires { length terminals.seats.items ≡ 16 + length building.now.kiosks }
    {
        Station {
            building,
            terminals,
        }
    }

    /// What a line asks for, where it is well formed and all that it names is there.
    pub(crate) fn line(&self, text: &str) -> Option<ScriptLine> {
        let line = parsed(text)?;
        if is_known(&line, self.building) {
            Some(line)
        } else {
            None
        }
    }

    /// A terminal of the building asks.
    fn ask_at(&mut self, terminal: Terminal, number: Number, body: Body) -> Result<(), AskRefusal>
        requires { terminal < 16 + length self.old.building.now.kiosks }
    {
        ask(&mut self.terminals, terminal, number, body)
    }

    /// A terminal asks what a line says, or the report says why it can't.
    pub(crate) fn ask(&mut self, report: &mut String, ask: &ScriptAsk) -> Result<(), Trouble> {
        if !ask.is_known(self.building) {
            return Err(Trouble::Lacking);
        }
        let Command {
            terminal,
            number,
            body,
        } = ask.command(self.building);
        match self.ask_at(terminal, number, body) {
            Ok(()) => {}
            Err(AskRefusal::Waiting) => push_waiting(report, terminal, number)?,
            Err(AskRefusal::Spent) => push_spent(report, terminal, number)?,
        }
        Ok(())
    }

    /// What a turn came to, and what each terminal hears after it.
    pub(crate) fn push_turned(
        &mut self,
        report: &mut String,
        turned: Result<Counts, KeeperFault>,
    ) -> Result<(), Trouble> {
        match turned {
            Ok(counts) => push_turn(report, counts.taken, counts.accepted)?,
            Err(fault) => push_fault(report, "turn", fault.number())?,
        }
        self.terminals.push_all_heard(report)?;
        Ok(())
    }
}
