//! A whole script, from its bytes to its report.

ghost use Rattle.std.specs.Prelude.{◌≡◌, ◌≢◌, ◌⊎◌, ◌+◌, ◌<◌, ◌≤◌, ◌++◌, ℕ, List, [], length};
ghost use Rattle.std.specs.Prelude.{string_bytes, true, false, OnOk, OnErr, IfOk};
ghost use Rattle.std.specs.Io.KnownBytes.{Appends};
ghost use Rattle.lift_replay.specs.Reading.{IsInputRead, LeavesUnread, ReadsUpTo, most_bytes};
ghost use Rattle.lift_replay.specs.Reading.{most_calls};
ghost use Rattle.lift_replay.specs.Report.{AppendsPrefix, Reports, building_text};
ghost use Rattle.lift_replay.specs.Group.{first_group};
ghost use Rattle.lift_replay.specs.Running.{TellsLines, TellsPart};
ghost use Rattle.lift_replay.specs.Replaying.{IsTextReport, ReportsPrefix, ReportsInput};
ghost use Rattle.lift_replay.specs.Replaying.{ReportsPrefixOfWhatCame, ReportsWhatCame};
ghost use Rattle.lift_replay.specs.Replaying.{WritesReport, WritesPrefix};
ghost use Rattle.std.specs.Str.Lines.{lines as lines_in};
ghost use Rattle.lift_replay.specs.Writing.{GoesInto, IsCalled, WritesPieces, failures_after};
ghost use Rattle.lift_replay.specs.Writing.{gone_in, of_input};
ghost use Rattle.lift_replay.specs.declared.script.ReplayFault.TheVariants.{Memory as Wanting};
ghost use Rattle.lift_replay.specs.declared.script.ReplayFault.TheVariants.{Write as NoOutput};

use crate::input::{InputFault, read_all};
use crate::lines::Verdict;
use crate::piece::put_piece;
use crate::refused::{NoMemory, empty_piece};
use crate::report::push_building_fault;
use crate::segment::{SegmentEnd, add_segment};
use crate::source::{Lines, split_script};
use crate::station::first_disk;
use lift_base::text::{Counted, Outflow, WriteFault, put_all};
use lift_building::{Building, BuildingFault};
use std::alloc::Global;
use std::io::Read;

/// Why a script was not carried out to its end.
#[derive(Drop, PartialEq, Eq)]
pub enum ReplayFault {
    /// A growth was refused.
    Memory(NoMemory),
    /// A call of the reader failed, or all 2,097,152 were used and the end was not found.
    Read,
    /// The writer took no more.
    Write,
}

impl From<NoMemory> for ReplayFault {
    ghost from_gives = { λ _ fault. fault ≡ Wanting tt };

    fn from(no_memory: NoMemory) -> ReplayFault {
        ReplayFault::Memory(no_memory)
    }
}

impl From<InputFault> for ReplayFault {
    ghost from_gives = { λ input fault. fault ≡ of_input input };

    fn from(fault: InputFault) -> ReplayFault {
        match fault {
            InputFault::Memory(no_memory) => ReplayFault::Memory(no_memory),
            InputFault::Read => ReplayFault::Read,
        }
    }
}

impl From<WriteFault> for ReplayFault {
    ghost from_gives = { λ _ fault. fault ≡ NoOutput };

    fn from(_error: WriteFault) -> ReplayFault {
        ReplayFault::Write
    }
}

/// A script has this many bytes at most.
pub const MOST_BYTES: usize = 1_048_576;

/// The reader is called so often at most.
pub const MOST_CALLS: u32 = 2_097_152;

/// A report of one line, for a script of which nothing is carried out.
fn refuse<W: Outflow>(writer: &mut W, report: &str) -> Result<Verdict, ReplayFault>
    ensures output { result ≢ Err ReplayFault.Read }
    ensures calls { IsCalled W.gives writer.old writer.new result }
    ensures cause { result ≢ Err (ReplayFault.Memory tt) }
    ensures not_good { result ≢ Ok Verdict.Good }
    ensures bad { OnOk result (Appends (gone_in W.sent writer.old) (gone_in W.sent writer.new) report.now) }
    ensures front { OnErr result
        (AppendsPrefix (gone_in W.sent writer.old) (gone_in W.sent writer.new) report.now) }
{
    put_all(writer, report.as_bytes())?;
    Ok(Verdict::Bad)
}

/// Why the building is refused, as the report says it.
fn refuse_building<W: Outflow>(
    alloc: Global,
    writer: &mut W,
    fault: BuildingFault,
) -> Result<Verdict, ReplayFault>
    ensures output { result ≢ Err ReplayFault.Read }
    ensures calls { IsCalled W.gives writer.old writer.new result }
    ensures not_good { result ≢ Ok Verdict.Good }
    ensures memory { (text : List ℕ) → fault ≡ BuildingFault.Memory text
        → result ≡ Err (ReplayFault.Memory tt) }
    ensures silent { result ≡ Err (ReplayFault.Memory tt)
        → gone_in W.sent writer.new ≡ gone_in W.sent writer.old }
    ensures bad { OnOk result (((text : List ℕ) → fault ≢ BuildingFault.Memory text)
        × Appends (gone_in W.sent writer.old) (gone_in W.sent writer.new) (building_text fault)) }
    ensures front { OnErr result ((gone_in W.sent writer.new ≡ gone_in W.sent writer.old)
        ⊎ (((text : List ℕ) → fault ≢ BuildingFault.Memory text)
        × AppendsPrefix (gone_in W.sent writer.old) (gone_in W.sent writer.new) (building_text fault))) }
{
    if let BuildingFault::Memory(no_memory) = fault {
        return Err(ReplayFault::Memory(NoMemory::for_building(no_memory)));
    }
    let mut report = String::new(alloc);
    push_building_fault(&mut report, &fault)?;
    refuse(writer, &report)
}

/// Carries out the lines, segment by segment: over a formatted device up to the first power cut,
/// and then over what each cut left.
fn add_segments<W: Outflow>(
    alloc: Global,
    building: &Building,
    text: &str,
    piece: &mut String,
    writer: &mut W,
) -> Result<Verdict, ReplayFault>
    requires small { length (string_bytes piece.old) < 32768 }
    ensures writes { WritesPieces W.gives writer.old writer.new (string_bytes piece.new) result }
    ensures tells { IfOk result (λ verdict.
        (added : List ℕ) × TellsLines building.now 0 (first_group building.now)
        (lines_in text.now) added verdict
        × Reports (gone_in W.sent writer.old) (gone_in W.sent writer.new) (string_bytes piece.old)
        (string_bytes piece.new) added) }
    ensures front { OnErr result
        (TellsPart building.now 0 (first_group building.now) (lines_in text.now)
        (gone_in W.sent writer.old) (gone_in W.sent writer.new) (string_bytes piece.old)
        (string_bytes piece.new)) }
{
    let mut lines = Lines::new(text);
    let mut disk = first_disk(alloc, building)?;
    let mut is_after_cut = false;
    for _ in 0..=text.len() {
        match add_segment(
            alloc,
            building,
            disk,
            is_after_cut,
            &mut lines,
            piece,
            writer,
        )? {
            SegmentEnd::Run(verdict) => return Ok(verdict),
            SegmentEnd::Cut(left) => disk = left,
        }
        is_after_cut = true;
    }
    unreachable!()
}

/// Carries out the lines, and writes what they report, up to the end or to the line that ended the
/// run.
fn run_lines<W: Outflow>(
    alloc: Global,
    building: &Building,
    lines: &str,
    writer: &mut W,
) -> Result<Verdict, ReplayFault>
    ensures output { result ≢ Err ReplayFault.Read }
    ensures calls { IsCalled W.gives writer.old writer.new result }
    ensures tells { IfOk result (λ verdict.
        WritesReport (TellsLines building.now 0 (first_group building.now) (lines_in lines.now))
        (gone_in W.sent writer.old) (gone_in W.sent writer.new) verdict) }
    ensures front { OnErr result
        (WritesPrefix (TellsLines building.now 0 (first_group building.now) (lines_in lines.now))
        (gone_in W.sent writer.old) (gone_in W.sent writer.new)) }
{
    let mut piece = empty_piece(alloc)?;
    let end = add_segments(alloc, building, lines, &mut piece, writer);
    put_piece(writer, &mut piece)?;
    end
}

/// Carries out a script that has come whole.
fn run_text<W: Outflow>(alloc: Global, text: &str, writer: &mut W) -> Result<Verdict, ReplayFault>
    ensures output { result ≢ Err ReplayFault.Read }
    ensures calls { IsCalled W.gives writer.old writer.new result }
    ensures tells { IfOk result (λ verdict.
        WritesReport (IsTextReport text.now) (gone_in W.sent writer.old) (gone_in W.sent writer.new)
        verdict) }
    ensures front { OnErr result
        (WritesPrefix (IsTextReport text.now) (gone_in W.sent writer.old) (gone_in W.sent writer.new)) }
{
    let Some((building, lines)) = split_script(alloc, text)? else {
        return refuse(writer, "NO SCRIPT\n");
    };
    match Building::read(alloc, &building) {
        Ok(building) => run_lines(alloc, &building, lines, writer),
        Err(fault) => refuse_building(alloc, writer, fault),
    }
}

/// Carries out a script: reads it whole, and writes its report in pieces of whole lines. The
/// verdict is Bad where the script, its building or one of its lines is malformed. After `Read`
/// nothing was written, and after `Memory` or `Write` a prefix of the report.
// (not inlined, so that a program's other commands have no frame of its locals)
#[inline(never)]
pub fn run<R: Read + Drop, W: Outflow>(
    alloc: Global,
    input: &mut Counted<R>,
    writer: &mut W,
) -> Result<Verdict, ReplayFault>
    requires fresh { input.old.calls ≡ 0 }
    requires unhurt { input.old.failed ≡ false }
    requires before_end { input.old.ended ≡ false }
    // What was written is the one report of the reader's input, and the verdict is that of it; else
    // it is a prefix of it.
    ensures report { IfOk result (λ verdict.
        ReportsInput (R.remaining input.old.reader) (W.contents writer.old)
        (W.contents writer.new) verdict) }
    ensures front { OnErr result
        (ReportsPrefix (R.remaining input.old.reader) (W.contents writer.old)
        (W.contents writer.new)) }
    // Of every reader and writer that is the report of the bytes which came, in those that were taken.
    ensures came { IfOk result (λ verdict.
        ReportsWhatCame input.old.came input.new.came (gone_in W.sent writer.old)
        (gone_in W.sent writer.new) verdict) }
    ensures came_front { OnErr result
        (ReportsPrefixOfWhatCame input.old.came input.new.came (gone_in W.sent writer.old)
        (gone_in W.sent writer.new)) }
    ensures goes { GoesInto W.sent W.contents writer.old writer.new }
    ensures unwritten { result ≡ Err ReplayFault.Read
        → W.contents writer.new ≡ W.contents writer.old }
    // The writer is the fault where one of its calls failed, and nowhere else; that call was the
    // last.
    ensures writes { IsCalled W.gives writer.old writer.new result }
    ensures failures { (W.sent writer.new).failures
        ≡ failures_after result (W.sent writer.old).failures }
    ensures unread { result ≡ Err ReplayFault.Read
        → LeavesUnread most_bytes most_calls R.remaining input.old input.new }
    ensures failed { input.new.failed ≡ true → result ≡ Err ReplayFault.Read }
    // A report is written, or refused by the writer, only of a script that was read; a good one was
    // read to its end.
    ensures read { OnOk result (IsInputRead R.remaining input.old input.new) }
    ensures output { result ≡ Err ReplayFault.Write → IsInputRead R.remaining input.old input.new }
    ensures good { result ≡ Ok Verdict.Good → input.new.ended ≡ true }
    // Reading stops after one byte more than a script may have.
    ensures reads { ReadsUpTo most_bytes most_calls R.remaining input.old input.new }
{
    let bytes = match read_all(alloc, input, MOST_BYTES, MOST_CALLS) {
        Ok(bytes) => bytes,
        Err(fault) => return Err(ReplayFault::from(fault)),
    };
    if bytes.len() > MOST_BYTES {
        return refuse(writer, "TOO LONG\n");
    }
    match str::from_utf8(&bytes) {
        Ok(text) => run_text(alloc, text, writer),
        Err(_) => refuse(writer, "NOT TEXT\n"),
    }
}
