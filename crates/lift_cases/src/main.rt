//! Tries cases that are data, as its words say: buildings; figures, which are stop lists, schedules,
//! times, costs, picks, registers, decisions and runs of events; and a script on standard input.
#![tactic(auto)]

mod buildings;
mod cases;
mod crowd;
mod events;
mod figures;
mod group;
mod highest;
mod numbers;
mod registers;
mod scripts;
mod trip;

use crate::cases::Report;
use lift_building::Building;
use std::process::ExitCode;
use std::sync::Wait;
use std::{env, fs};

/// What is told on standard error: the words are none that a case file has, a file can't be read or
/// the report can't be written, or memory is refused.
const WORDS: &str = "a case file's words";

const FILE: &str = "a file";

const MEMORY: &str = "memory";

/// Reads the building `NAME.toml`, and prints what is in it, or why it is refused.
fn show_building(rt: &HostRuntime, name: &str) -> Result<(), &'static str> {
    let file = format!(in rt.alloc(); "{name}.toml").or(Err(MEMORY))?;
    let text = fs::read_to_string(rt, file.as_str()).or(Err(FILE))?;
    let came = buildings::shown(rt.alloc(), name, &text);
    println!(rt; "{}", came.text().ok_or(MEMORY)?).or(Err(FILE))
}

/// Tries the cases of a building: its file, and the lines after it.
fn try_building(rt: &HostRuntime, report: &mut Report, part: &str) -> Result<(), &'static str> {
    let (file, _cases) = part.split_once('\n').ok_or(WORDS)?;
    let text = fs::read_to_string(rt, file).or(Err(FILE))?;
    match Building::read(rt.alloc(), &text) {
        Ok(building) => report.try_cases(&building, part).ok_or(MEMORY),
        Err(fault) => {
            let number = fault.number();
            eprintln!(rt; "{file} is refused: {number}").or(Err(FILE))?;
            Err(WORDS)
        }
    }
}

/// Tries the cases of a file of figures.
fn try_file(rt: &HostRuntime, report: &mut Report, file: &str) -> Result<(), &'static str> {
    let text = fs::read_to_string(rt, file).or(Err(FILE))?;
    for part in text.split("\nbuilding ").skip(1) {
        try_building(rt, report, part)?;
    }
    Ok(())
}

/// Ends the report of figures, where any was tried, and prints it. Whether all came out.
fn tell(rt: &HostRuntime, report: &mut Report) -> Result<bool, &'static str> {
    if report.is_empty() {
        return Ok(true);
    }
    let is_good = report.end().or(Err(MEMORY))?;
    print!(rt; "{}", report.text()).or(Err(FILE))?;
    Ok(is_good)
}

/// What the words after `buildings` or `figures` name.
#[derive(Clone, Copy)]
enum Kind {
    Building,
    Figures,
}

/// Tries what the words name, in turn. Whether the scripts among them are well formed.
fn try_words<W: Wait>(
    rt: &HostRuntime,
    wait: &W,
    report: &mut Report,
    words: &[String],
) -> Result<bool, &'static str> {
    let mut kind = Kind::Figures;
    let mut is_good = true;
    for word in words {
        match (word.as_str(), kind) {
            ("buildings", _) => kind = Kind::Building,
            ("figures", _) => kind = Kind::Figures,
            ("script", _) => is_good = scripts::run(rt, wait)? && is_good,
            (name, Kind::Building) => show_building(rt, name)?,
            (file, Kind::Figures) => try_file(rt, report, file)?,
        }
    }
    Ok(is_good)
}

/// Tries what the program's words name. The report of figures comes last. Whether all came out.
fn run<W: Wait>(rt: &HostRuntime, wait: &W) -> Result<bool, &'static str> {
    let words = env::args(rt).or(Err(FILE))?.skip(1);
    let words: Vec<String> = words.collect(rt.alloc()).or(Err(MEMORY))?;
    let mut report = Report::new(rt.alloc());
    let is_good = try_words(rt, wait, &mut report, &words)?;
    Ok(tell(rt, &mut report)? && is_good)
}

fn main(rt: HostRuntime) -> ExitCode {
    match run(&rt, &rt) {
        Ok(true) => ExitCode::from(0),
        Ok(false) => ExitCode::from(1),
        Err(trouble) => {
            // where the line can't be written, only the status says so
            let _ = eprintln!(rt; "{trouble}");
            ExitCode::from(2)
        }
    }
}
