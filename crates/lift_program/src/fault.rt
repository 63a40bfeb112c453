//! Why the program's work failed, and the line that says so.

ghost use Rattle.std.specs.Prelude.{◌≡◌, ◌≤◌, ◌+◌, ◌++◌, ◌∷◌, [], Some, length};
ghost use Rattle.std.specs.Fmt.{decimal};
ghost use Rattle.arrayvec.specs.ArrayString.{array_string_len};
ghost use Rattle.lift_program.specs.Faults.{building_fault_line, journal_text, fault_text};
ghost use Rattle.lift_program.specs.Faults.{of_building, of_replay};
ghost use Rattle.lift_program.specs.Output.{IsWrittenOrFailed};

use crate::output::tell;
use crate::refused::NoMemory;
use arrayvec::ArrayString;
use itoa::Buffer;
use lift_base::text::Watched;
use lift_building::BuildingFault;
use lift_journal::JournalFault;
use lift_keeper::KeeperFault;
use lift_replay::ReplayFault;
use std::fmt;
use std::io::Write;
use thiserror::Error;

/// What a file is to the program.
#[derive(Clone, Copy)]
pub enum Role {
    /// It holds the building's text.
    Building,
    /// It holds the journal.
    Image,
    /// The standard input.
    Input,
    /// The standard output.
    Output,
}

/// Why the program's work failed.
#[derive(Drop, Error)]
pub enum Fault {
    /// The building's text is no building.
    Building(BuildingFault),
    /// The journal, or the recovery from it, refused.
    Journal(KeeperFault),
    /// A file, the standard input or the standard output.
    File(Role),
    /// A growth was refused.
    Memory(NoMemory),
    /// The port couldn't be had, or failed.
    Network,
    /// A thread couldn't be started.
    Thread,
}

/// A building that is refused for want of memory is that.
impl From<BuildingFault> for Fault {
    ghost from_gives = { λ building fault. fault ≡ of_building building };

    fn from(fault: BuildingFault) -> Fault {
        match fault {
            BuildingFault::Memory(no_memory) => Fault::from(no_memory),
            other => Fault::Building(other),
        }
    }
}

impl From<ReplayFault> for Fault {
    ghost from_gives = { λ replay fault. fault ≡ of_replay replay };

    fn from(fault: ReplayFault) -> Fault {
        match fault {
            ReplayFault::Memory(no_memory) => Fault::from(no_memory),
            ReplayFault::Read => Fault::File(Role::Input),
            ReplayFault::Write => Fault::File(Role::Output),
        }
    }
}

/// A line has room for 64 bytes, more than any fault needs.
type Line = ArrayString<64>;

/// Adds a number in decimal digits.
fn push_number(line: &mut Line, number: u32)
    requires { array_string_len line.old + 10 ≤ 64 }
    ensures text { line.new.bytes ≡ line.old.bytes ++ decimal number }
    ensures bound { array_string_len line.new ≤ array_string_len line.old + 10 }
{
    let mut digits = Buffer::new();
    line.push_str(digits.format(number));
}

/// Adds a space, and where in the journal the fault was found.
fn push_place(line: &mut Line, place: u32)
    requires { array_string_len line.old + 11 ≤ 64 }
    ensures text { line.new.bytes ≡ line.old.bytes ++ 32 ∷ decimal place }
    ensures bound { array_string_len line.new ≤ array_string_len line.old + 11 }
{
    line.push_str(" ");
    push_number(line, place);
}

/// A line that has no number.
fn plain_line(text: &str) -> Line
    requires { length text.now ≤ 63 }
    ensures text { result.bytes ≡ text.now }
    ensures same { array_string_len result ≡ length text.now }
{
    let mut line = Line::new();
    line.push_str(text);
    line
}

/// The line of a building's fault, without its end.
fn building_line(fault: &BuildingFault) -> Line
    ensures text { result.bytes ≡ building_fault_line fault.now }
    ensures short { array_string_len result ≤ 63 }
{
    match fault {
        BuildingFault::Detour(from, by, to) => {
            let mut line = plain_line("liftd: building 6 ");
            push_number(&mut line, u32::from(from.get()));
            line.push_str(" ");
            push_number(&mut line, u32::from(by.get()));
            line.push_str(" ");
            push_number(&mut line, u32::from(to.get()));
            line
        }
        _ => {
            let mut line = plain_line("liftd: building ");
            push_number(&mut line, u32::from(fault.number()));
            line
        }
    }
}

/// The line of a journal's fault, without its end.
fn journal_line(fault: KeeperFault) -> Line
    ensures text { result.bytes ≡ journal_text fault }
    ensures short { array_string_len result ≤ 63 }
{
    let mut line = plain_line("liftd: journal ");
    push_number(&mut line, u32::from(fault.number()));
    match fault {
        KeeperFault::Journal(JournalFault::Damaged(sector)) => push_place(&mut line, sector),
        KeeperFault::BadEntry(place) => push_place(&mut line, place),
        _ => {}
    }
    line
}

impl Fault {
    /// Its line, without its end.
    fn line(&self) -> Line
        ensures text { result.bytes ≡ fault_text self.now }
        ensures short { array_string_len result ≤ 63 }
    {
        match self {
            Fault::Building(fault) => building_line(fault),
            Fault::Journal(fault) => journal_line(*fault),
            Fault::File(_) => plain_line("liftd: file"),
            Fault::Memory(_) => plain_line("liftd: memory"),
            Fault::Network => plain_line("liftd: network"),
            Fault::Thread => plain_line("liftd: thread"),
        }
    }

    /// Writes its line.
    pub fn tell<E: Write + Drop>(&self, errors: &mut Watched<E>)
        ensures { IsWrittenOrFailed E.contents errors.old errors.new
            (fault_text self.now ++ 10 ∷ []) }
    {
        let mut line = self.line();
        line.push_str("\n");
        tell(errors, line.as_str().as_bytes());
    }
}

impl fmt::Display for Fault {
    ghost output = { λ fault. Some (fault_text fault) };

    fn fmt<W: fmt::Write>(&self, f: &mut fmt::Formatter<W>) -> fmt::Result {
        let line = self.line();
        let text = line.as_str();
        write!(f, "{text}")
    }
}

/// Its line.
impl fmt::Debug for Fault {
    fn fmt<W: fmt::Write>(&self, f: &mut fmt::Formatter<W>) -> fmt::Result {
        write!(f, "{self}")
    }
}
