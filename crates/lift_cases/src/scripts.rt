//! Carries out the script on standard input as `liftd replay` does, but by the two parts of a clerk,
//! which it drives by hand. The report has to be the same.
ghost use Rattle.std.specs.Prelude.{◌≡◌, [], IfOk};

mod relay;
mod station;
mod trouble;

use crate::scripts::relay::Relay;
use crate::scripts::station::Station;
use crate::scripts::trouble::Trouble;
use lift_base::text::Counted;
use lift_building::{Building, BuildingFault};
use lift_clerk::Clerk;
use lift_desk::{Desk, DeskParts};
use lift_disk::{FuseDisk, MemDisk, Outcome};
use lift_keeper::Keeper;
use lift_policy::Etd;
use lift_replay::report::{push_bad, push_building_fault, push_cut};
use lift_replay::{
    Lines, MOST_BYTES, MOST_CALLS, ScriptLine, Terminals, first_disk, read_all, split_script,
};
use std::alloc::Global;
use std::sync::Wait;

/// Carries out a line. What a power cut leaves, where it is one.
fn carry_out<R: Wait>(
    rt: &R,
    alloc: Global,
    station: &mut Station,
    relay: &mut Relay,
    line: &ScriptLine,
    report: &mut String,
) -> Result<Option<Outcome>, Trouble> {
    match *line {
        ScriptLine::Ask(ask) => station.ask(report, &ask)?,
        ScriptLine::Turn => {
            let turned = relay.turn(rt)?;
            station.push_turned(report, turned)?;
        }
        ScriptLine::Show(query) => relay.show(alloc, report, &query)?,
        ScriptLine::Device(action) => return relay.on_device(alloc, &action),
    }
    Ok(None)
}

/// What a line asks for, or the report tells that it is malformed.
fn line_of(
    station: &Station,
    number: usize,
    text: &str,
    report: &mut String,
) -> Result<ScriptLine, Trouble> {
    let Some(line) = station.line(text) else {
        push_bad(report, number)?;
        return Err(Trouble::Bad);
    };
    Ok(line)
}

/// Carries out lines at a desk, up to the end of the run or to a power cut, which has left what it
/// gives.
fn run_at<R: Wait>(
    rt: &R,
    alloc: Global,
    station: &mut Station,
    relay: &mut Relay,
    lines: &mut Lines,
    report: &mut String,
) -> Result<Option<MemDisk>, Trouble> {
    for _ in 0..=lines.len() {
        let Some((number, text)) = lines.next() else {
            break;
        };
        if text.is_empty() || text.starts_with('#') {
            continue;
        }
        let line = line_of(station, number, text, report)?;
        if let Some(outcome) = carry_out(rt, alloc, station, relay, &line, report)? {
            return Ok(Some(relay.cut(outcome)?));
        }
    }
    Ok(None)
}

/// Carries out lines by both parts of a clerk.
// (in a function of its own, since whoever holds both parts is dear to prove)
fn run_split<'d, 'b, R: Wait>(
    rt: &R,
    alloc: Global,
    station: &mut Station,
    clerk: Clerk<'d, 'b, FuseDisk, Etd>,
    lines: &mut Lines,
    report: &mut String,
) -> Result<Option<MemDisk>, Trouble> {
    run_at(
        rt,
        alloc,
        station,
        &mut Relay::of(alloc, clerk)?,
        lines,
        report,
    )
}

/// Carries out lines at a new desk, over a keeper that was just opened.
fn run_segment<'b, R: Wait>(
    rt: &R,
    alloc: Global,
    keeper: Keeper<'b, FuseDisk>,
    lines: &mut Lines,
    report: &mut String,
) -> Result<Option<MemDisk>, Trouble>
    requires empty_batch { keeper.state.batch ≡ [] }
{
    let building = keeper.building();
    let DeskParts { desk, seats, clerk } = Desk::open(alloc, 16 + usize::from(building.kiosks()))?;
    let mut station = Station::new(building, Terminals::new(&desk, seats));
    let clerk = Clerk::new(&desk, clerk, keeper, Etd);
    run_split(rt, alloc, &mut station, clerk, lines, report)
}

/// A device with an empty journal of the building.
fn formatted(alloc: Global, building: &Building) -> Result<FuseDisk, Trouble> {
    Ok(FuseDisk::new(first_disk(alloc, building)?))
}

/// The keeper of what a device has.
fn opened(disk: FuseDisk, building: &Building) -> Result<Keeper<'_, FuseDisk>, Trouble>
    ensures { IfOk result (λ keeper. keeper.state.batch ≡ []) }
{
    match Keeper::open(disk, building) {
        Ok(keeper) => Ok(keeper),
        Err(_) => Err(Trouble::Unopened),
    }
}

/// Carries out the lines, over a formatted device up to the first power cut, and then over what each
/// cut left.
fn run_lines<R: Wait>(
    rt: &R,
    alloc: Global,
    building: &Building,
    text: &str,
    report: &mut String,
) -> Result<(), Trouble> {
    let mut lines = Lines::new(text);
    let mut disk = formatted(alloc, building)?;
    for segment in 0..=text.len() {
        let keeper = opened(disk, building)?;
        if segment > 0 {
            push_cut(report, keeper.register().open_count())?;
        }
        match run_segment(rt, alloc, keeper, &mut lines, report)? {
            Some(left) => disk = FuseDisk::new(left),
            None => return Ok(()),
        }
    }
    Ok(())
}

fn run_text<R: Wait>(
    rt: &R,
    alloc: Global,
    text: &str,
    report: &mut String,
) -> Result<(), Trouble> {
    let Some((building, lines)) = split_script(alloc, text)? else {
        report.push_str("NO SCRIPT\n")?;
        return Err(Trouble::Bad);
    };
    match Building::read(alloc, &building) {
        Ok(building) => run_lines(rt, alloc, &building, lines, report),
        Err(BuildingFault::Memory(_)) => Err(Trouble::Memory),
        Err(fault) => {
            push_building_fault(report, &fault)?;
            Err(Trouble::Bad)
        }
    }
}

/// Carries out a script: of what it reports as much is added as comes before a trouble.
fn run_bytes<R: Wait>(
    rt: &R,
    alloc: Global,
    bytes: &[u8],
    report: &mut String,
) -> Result<(), Trouble> {
    if bytes.len() > MOST_BYTES {
        report.push_str("TOO LONG\n")?;
        return Err(Trouble::Bad);
    }
    match str::from_utf8(bytes) {
        Ok(text) => run_text(rt, alloc, text, report),
        Err(_) => {
            report.push_str("NOT TEXT\n")?;
            Err(Trouble::Bad)
        }
    }
}

fn read(rt: &HostRuntime) -> Result<Vec<u8>, Trouble> {
    let mut input = Counted::new(rt.stdin());
    let bytes = read_all(rt.alloc(), &mut input, MOST_BYTES, MOST_CALLS)?;
    Ok(bytes)
}

fn write(rt: &HostRuntime, report: &str) -> Result<(), Trouble> {
    print!(rt; "{report}")?;
    Ok(())
}

fn try_to_run<W: Wait>(rt: &HostRuntime, wait: &W) -> Result<(), Trouble> {
    let bytes = read(rt)?;
    let mut report = String::new(rt.alloc());
    let ran = run_bytes(wait, rt.alloc(), &bytes, &mut report);
    write(rt, &report)?;
    ran
}

/// Carries out the script on standard input and prints its report. Whether it is well formed, or why
/// there is no whole report.
pub(crate) fn run<W: Wait>(rt: &HostRuntime, wait: &W) -> Result<bool, &'static str> {
    match try_to_run(rt, wait) {
        Ok(()) => Ok(true),
        Err(Trouble::Bad) => Ok(false),
        Err(trouble) => Err(trouble.name()),
    }
}
