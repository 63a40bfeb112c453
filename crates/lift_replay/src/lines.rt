//! What each line of a script does, and what it reports.

ghost use Rattle.std.specs.Prelude.{◌≡◌, ◌<◌, ◌+◌, ◌++◌, ℕ, List, length, string_bytes};
ghost use Rattle.std.specs.Prelude.{OnOk, IfOk, IfSome};
ghost use Rattle.lift_replay.specs.Grammar.{IsKnown};
ghost use Rattle.lift_desk.specs.Seats.{IsClerkOf};
ghost use Rattle.lift_replay.specs.DeviceAction.{DoesToDevice};
ghost use Rattle.lift_replay.specs.Lines.{Tells, LineTells, end_of};
ghost use Rattle.lift_replay.specs.Told.{Asks, KeeperStays, PlaceStays, TurnTells, OutcomeTells};
ghost use Rattle.lift_replay.specs.declared.line.ScriptLine.TheVariants.{Device};
ghost use Rattle.lift_replay.specs.declared.device_action.DeviceAction.{DeviceAction};

use crate::line::ScriptLine;
use crate::parsing::parse;
use crate::refused::NoMemory;
use crate::report::{push_bad, push_fault, push_spent, push_turn, push_waiting};
use crate::station::Station;
use lift_base::{Body, Number, Terminal};
use lift_clerk::Clerk;
use lift_desk::AskRefusal;
use lift_disk::{FuseDisk, Outcome};
use lift_policy::{Command, Etd};

/// Whether all lines were carried out, or one of them, or the text before them, was malformed.
#[derive(Clone, Copy, PartialEq, Eq)]
pub enum Verdict {
    Good,
    Bad,
}

/// What ends the lines that are carried out at one desk.
#[derive(Clone, Copy, PartialEq, Eq)]
pub enum End {
    /// The end of the run.
    Run(Verdict),
    /// A power cut.
    Cut(Outcome),
}

/// A terminal asks, or the report says why it can't.
fn push_ask(
    report: &mut String,
    station: &mut Station,
    terminal: Terminal,
    number: Number,
    body: Body,
) -> Result<(), NoMemory>
    requires { terminal < length station.old.terminals.seats.items }
    ensures asks { OnOk result ((added : List ℕ)
        × Asks station.old.terminals.seats.items station.new.terminals.seats.items
        station.old.clerk.seat station.new.clerk.seat terminal number body added
        × (string_bytes report.new ≡ string_bytes report.old ++ added)) }
    ensures building { station.new.building ≡ station.old.building }
    ensures clerk { KeeperStays station.old.clerk station.new.clerk }
{
    match station.terminals.ask(terminal, number, body) {
        Ok(()) => {
            let index = usize::from(terminal.get());
            station.terminals.tell(&mut station.clerk, index);
            Ok(())
        }
        Err(AskRefusal::Waiting) => push_waiting(report, terminal, number),
        Err(AskRefusal::Spent) => push_spent(report, terminal, number),
    }
}

/// One turn, and what it took and added, or its fault. The answer is how many asks it took, none after
/// a fault.
fn push_taken(
    report: &mut String,
    clerk: &mut Clerk<'_, '_, FuseDisk, Etd>,
) -> Result<Option<usize>, NoMemory>
    ensures tells { IfOk result (λ taken. (added : List ℕ)
        × TurnTells clerk.old clerk.new taken added
        × (string_bytes report.new ≡ string_bytes report.old ++ added)) }
    ensures desk { clerk.new.desk ≡ clerk.old.desk }
    ensures plan { clerk.new.keeper.writer.plan ≡ clerk.old.keeper.writer.plan }
    ensures place { PlaceStays clerk.old clerk.new }
    ensures seated { IsClerkOf clerk.new.desk clerk.new.seat }
{
    match clerk.turn() {
        Ok(counts) => {
            push_turn(report, counts.taken, counts.accepted)?;
            Ok(Some(counts.taken))
        }
        Err(fault) => {
            push_fault(report, "turn", fault.number())?;
            Ok(None)
        }
    }
}

/// One turn, and then what each terminal hears.
fn push_turn_of(report: &mut String, station: &mut Station) -> Result<(), NoMemory>
    ensures outcome { OnOk result ((added : List ℕ)
        × OutcomeTells station.old.clerk station.new.clerk station.old.terminals.seats.items
        station.new.terminals.seats.items added
        × (string_bytes report.new ≡ string_bytes report.old ++ added)) }
    ensures building { station.new.building ≡ station.old.building }
{
    let taken = push_taken(report, &mut station.clerk)?;
    station
        .terminals
        .push_all_told(report, &mut station.clerk, taken)
}

/// Carries out a line. The answer is what ends the lines at this desk, if it does.
// (inlined, so that a line needn't be stored, and then told by its kind once more)
#[inline(always)]
fn carry_out(
    report: &mut String,
    station: &mut Station,
    line: &ScriptLine,
) -> Result<Option<End>, NoMemory>
    requires known { IsKnown station.old.building.now line.now }
    ensures tells { OnOk result ((added : List ℕ)
        × Tells station.old.building.now station.old.clerk station.new.clerk
        station.old.terminals.seats.items station.new.terminals.seats.items line.now added
        × (string_bytes report.new ≡ string_bytes report.old ++ added)) }
    ensures end { IfOk result (λ end. end ≡ end_of line.now) }
    ensures device { (action : DeviceAction) → line.now ≡ Device action
        → OnOk result (DoesToDevice action station.old.clerk station.new.clerk
        × (station.new.terminals ≡ station.old.terminals)) }
    ensures building { station.new.building ≡ station.old.building }
{
    match *line {
        ScriptLine::Ask(ask) => {
            let Command {
                terminal,
                number,
                body,
            } = ask.command(station.building);
            push_ask(report, station, terminal, number, body)?;
            Ok(None)
        }
        ScriptLine::Turn => {
            push_turn_of(report, station)?;
            Ok(None)
        }
        ScriptLine::Show(query) => {
            query.push_shown(report, station.building, station.clerk.keeper())?;
            Ok(None)
        }
        ScriptLine::Device(action) => match action.carry_out(&mut station.clerk) {
            Some(outcome) => Ok(Some(End::Cut(outcome))),
            None => Ok(None),
        },
    }
}

/// Carries out the line with this number, counted from 1, and adds what it reports. A malformed
/// line, or one that names what the building lacks, ends the run. Empty lines and those that begin
/// with `#` are skipped. None where the next line is to be carried out.
#[inline(always)]
pub fn push_line(
    report: &mut String,
    station: &mut Station,
    text: &str,
    number: usize,
) -> Result<Option<End>, NoMemory>
    ensures tells { IfOk result (λ end. (added : List ℕ)
        × LineTells station.old.building.now station.old.clerk station.new.clerk
        station.old.terminals.seats.items station.new.terminals.seats.items text.now number end
        added
        × (string_bytes report.new ≡ string_bytes report.old ++ added)) }
    ensures building { station.new.building ≡ station.old.building }
{
    if text.is_empty() || text.starts_with('#') {
        return Ok(None);
    }
    match parse(text) {
        Some(line) if line.is_known(station.building) => carry_out(report, station, &line),
        _ => {
            push_bad(report, number)?;
            Ok(Some(End::Run(Verdict::Bad)))
        }
    }
}
