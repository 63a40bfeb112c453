//! Workloads whose time is taken from outside. They print counts alone; `docs/speed.md` has what
//! was measured.
#![tactic(auto)]

ghost use Rattle.std.specs.Prelude.{◌≤◌, IfOk};

mod building;
mod deciding;
mod fault;
mod images;

use crate::deciding::Kind;
use crate::fault::Fault;
use lift_base::text::number_up_to;
use lift_disk::SystemOpener;
use std::env;
use std::process::ExitCode;

const LIST: &str = "\
decide <cars> <calls> <times> call|plain|stops|ahead|turn
format <image> <half>
fill <image>
open <image>
walk <image>
batches <image> <count>
read <file> <sectors>
sync <file> <count>
";

/// The number that a word spells.
fn number(word: &str, most: u32) -> Result<u32, Fault>
    ensures { IfOk result (λ number. number ≤ most) }
{
    match number_up_to(word, most) {
        Some(number) => Ok(number),
        None => Err(Fault::Words),
    }
}

/// The word at this place, empty where there is none.
fn word(words: &[String], place: usize) -> &str {
    match words.get(place) {
        Some(word) => word.as_str(),
        None => "",
    }
}

/// Decides what these words ask for.
fn on_group(rt: &HostRuntime, words: &[String]) -> Result<(), Fault> {
    let cars = number(word(words, 1), 16)? as u8;
    let count = number(word(words, 2), 512)?;
    let times = number(word(words, 3), u32::MAX)?;
    let kind = match word(words, 4) {
        "call" => Kind::Call,
        "plain" => Kind::Plain,
        "stops" => Kind::Stops,
        "ahead" => Kind::Ahead,
        "turn" => Kind::Turn,
        _ => return Err(Fault::Words),
    };
    let (calls, decisions) = deciding::decide(rt.alloc(), cars, count, times, kind)?;
    println!(rt; "calls {calls} decisions {decisions}")?;
    Ok(())
}

/// Does with a file what the name of the workload asks for, and tells what was counted.
fn on_file(rt: &HostRuntime, name: &str, file: &str, count: &str) -> Result<(), Fault> {
    let opener = SystemOpener::new(rt);
    let (what, counted) = match name {
        "format" => return images::format(opener, file, number(count, 1_000_000)?),
        "fill" => ("batches", images::append(opener, file, 63, 1_000_000)?),
        "open" => ("half", images::open(opener, file)?),
        "walk" => {
            let (batches, records) = images::walk(opener, file)?;
            println!(rt; "batches {batches} records {records}")?;
            return Ok(());
        }
        "batches" => {
            let count = number(count, u32::MAX)?;
            ("batches", images::append(opener, file, 1, count)?)
        }
        "read" => {
            let count = number(count, u32::MAX)?;
            ("sectors", images::read(opener, file, count)?)
        }
        "sync" => {
            let count = number(count, u32::MAX)?;
            images::sync(opener, file, count)?;
            ("syncs", count)
        }
        _ => return Err(Fault::Words),
    };
    println!(rt; "{what} {counted}")?;
    Ok(())
}

/// Does the work that the words ask for, and prints its counts.
fn run(rt: &HostRuntime) -> Result<(), Fault> {
    let words: Vec<String> = env::args(rt)?.skip(1).collect(rt.alloc())?;
    let words = words.as_slice();
    match word(words, 0) {
        "" if words.is_empty() => print!(rt; "{LIST}")?,
        "decide" => on_group(rt, words)?,
        name => on_file(rt, name, word(words, 1), word(words, 2))?,
    }
    Ok(())
}

fn main(rt: HostRuntime) -> ExitCode {
    match run(&rt) {
        Ok(()) => ExitCode::from(0),
        Err(fault) => {
            // where the line can't be written, only the status says so
            let _ = eprintln!(rt; "lift_bench: {}", fault.name());
            ExitCode::from(1)
        }
    }
}
