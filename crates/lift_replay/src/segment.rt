//! What a script does between two power cuts.

ghost use Rattle.std.specs.Prelude.{◌≡◌, ◌≢◌, ◌<◌, ◌≤◌, List, ℕ, [], length, string_bytes, OnOk};
ghost use Rattle.std.specs.Prelude.{OnErr, IfOk, ◌++◌};
ghost use Rattle.lift_disk.specs.Outcomes.{state_of};
ghost use Rattle.lift_register.specs.Balanced.{open_count};
ghost use Rattle.lift_replay.specs.Group.{Found, ScriptGroup, recovered};
ghost use Rattle.lift_replay.specs.Lines.{LineTells};
ghost use Rattle.lift_replay.specs.Report.{Reports, ReportsPart, start_text};
ghost use Rattle.lift_replay.specs.Running.{LinesEnd, SegmentEnds, TellsPart, TellsPartAfter};
ghost use Rattle.lift_replay.specs.Segment.{IfCut, IsPowerCut};
ghost use Rattle.lift_replay.specs.Shows.{IsFound, Shows};
ghost use Rattle.std.specs.Str.Lines.{lines as lines_in};
ghost use Rattle.lift_replay.specs.Writing.{WritesPieces, gone_in};

use crate::lines::{End, Verdict, push_line};
use crate::piece::put_large_piece;
use crate::refused::{NoMemory, add, new_desk};
use crate::report::push_cut;
use crate::script::ReplayFault;
use crate::source::Lines;
use crate::station::{Station, keeper_over};
use lift_base::MOST_CARS;
use lift_base::text::Outflow;
use lift_building::Building;
use lift_desk::DeskParts;
use lift_disk::{FuseDisk, MemDisk};
use lift_policy::decisions_are_computed;
use std::alloc::Global;

/// How a segment of a run ends.
pub enum SegmentEnd {
    /// With the run.
    Run(Verdict),
    /// By a power cut, which left this device.
    Cut(MemDisk),
}

/// Carries out the line with this number, and adds what it reports to a piece of the report. Where
/// a growth is refused nothing is left in the piece, so that no part of a line is written.
#[inline(always)]
fn add_line(
    piece: &mut String,
    station: &mut Station,
    line: &str,
    number: usize,
) -> Result<Option<End>, NoMemory>
    ensures tells { IfOk result (λ end. (added : List ℕ)
        × LineTells station.old.building.now station.old.clerk station.new.clerk
        station.old.terminals.seats.items station.new.terminals.seats.items line.now number end
        added
        × (string_bytes piece.new ≡ string_bytes piece.old ++ added)) }
    ensures building { station.new.building ≡ station.old.building }
    ensures emptied { OnErr result (string_bytes piece.new ≡ []) }
{
    let end = push_line(piece, station, line, number);
    if end.is_err() {
        piece.clear();
    }
    end
}

/// Carries out lines up to a power cut or to the end of the run, and adds what each reports to a
/// piece of the report, which is written once it is large enough. What is left in the piece is of
/// whole lines.
fn add_lines<W: Outflow>(
    station: &mut Station,
    lines: &mut Lines,
    piece: &mut String,
    writer: &mut W,
) -> Result<End, ReplayFault>
    requires small { length (string_bytes piece.old) < 32768 }
    ensures writes { WritesPieces W.gives writer.old writer.new (string_bytes piece.new) result }
    // No more is held back than that, but for the line that ends a bad script.
    ensures small { IfOk result (λ end. end ≢ End.Run Verdict.Bad
        → length (string_bytes piece.new) < 32768) }
    // What they report is what is computed, of whichever group the station shows.
    ensures tells { IfOk result (λ end. (g : ScriptGroup)
        → Shows station.old.building.now g station.old.clerk station.old.terminals.seats.items
        → (added : List ℕ) × LinesEnd station.old.building.now lines.old.count g
        (lines_in lines.old.rest.now) added lines.new.count (lines_in lines.new.rest.now)
        station.new.clerk station.new.terminals.seats.items end
        × Reports (gone_in W.sent writer.old) (gone_in W.sent writer.new) (string_bytes piece.old)
        (string_bytes piece.new) added) }
    ensures front { OnErr result ((g : ScriptGroup)
        → Shows station.old.building.now g station.old.clerk station.old.terminals.seats.items
        → TellsPart station.old.building.now lines.old.count g (lines_in lines.old.rest.now)
        (gone_in W.sent writer.old) (gone_in W.sent writer.new) (string_bytes piece.old)
        (string_bytes piece.new)) }
    ensures shorter { OnOk result (length lines.new.rest.now ≤ length lines.old.rest.now) }
    ensures cut { IfOk result (λ end. IsPowerCut end
        → length lines.new.rest.now < length lines.old.rest.now) }
    ensures building { station.new.building ≡ station.old.building }
{
    decisions_are_computed();
    for _ in 0..=lines.len() {
        let Some((number, line)) = lines.next() else {
            return Ok(End::Run(Verdict::Good));
        };
        let end = add_line(piece, station, line, number)?;
        if let Some(end) = end {
            return Ok(end);
        }
        put_large_piece(writer, piece)?;
    }
    unreachable!()
}

/// Adds to the piece, after a power cut, how many calls are open.
fn add_cut<W: Outflow>(
    alloc: Global,
    is_after_cut: bool,
    calls: u32,
    piece: &mut String,
    writer: &mut W,
) -> Result<(), ReplayFault>
    requires small { length (string_bytes piece.old) < 32768 }
    ensures writes { WritesPieces W.gives writer.old writer.new (string_bytes piece.new) result }
    ensures small { OnOk result (length (string_bytes piece.new) < 32768) }
    ensures reports { OnOk result
        (Reports (gone_in W.sent writer.old) (gone_in W.sent writer.new) (string_bytes piece.old)
        (string_bytes piece.new) (start_text is_after_cut calls)) }
    ensures front { OnErr result
        (ReportsPart (gone_in W.sent writer.old) (gone_in W.sent writer.new) (string_bytes piece.old)
        (string_bytes piece.new) (start_text is_after_cut calls)) }
{
    if !is_after_cut {
        return Ok(());
    }
    let mut report = String::new(alloc);
    push_cut(&mut report, calls)?;
    add(piece, &report)?;
    put_large_piece(writer, piece)?;
    Ok(())
}

/// Carries out lines at a station, up to a power cut or to the end of the run. After a power cut it
/// first reports how many calls are open.
// (not inlined: its frame then lies where that of the station's making was)
#[inline(never)]
fn run_station<W: Outflow>(
    alloc: Global,
    station: Station,
    is_after_cut: bool,
    lines: &mut Lines,
    piece: &mut String,
    writer: &mut W,
) -> Result<SegmentEnd, ReplayFault>
    requires small { length (string_bytes piece.old) < 32768 }
    ensures writes { WritesPieces W.gives writer.old writer.new (string_bytes piece.new) result }
    // What they report is what is computed, of whichever group the station shows.
    ensures tells { IfOk result (λ end. (g : ScriptGroup)
        → Shows station.entry.building.now g station.entry.clerk station.entry.terminals.seats.items
        → (added : List ℕ) × SegmentEnds station.entry.building.now lines.old.count g
        (lines_in lines.old.rest.now) added lines.new.count (lines_in lines.new.rest.now) end
        × Reports (gone_in W.sent writer.old) (gone_in W.sent writer.new) (string_bytes piece.old)
        (string_bytes piece.new)
        (start_text is_after_cut (open_count station.entry.clerk.keeper.state.register) ++ added)) }
    ensures front { OnErr result ((g : ScriptGroup)
        → Shows station.entry.building.now g station.entry.clerk station.entry.terminals.seats.items
        → TellsPartAfter
        (start_text is_after_cut (open_count station.entry.clerk.keeper.state.register))
        station.entry.building.now lines.old.count g (lines_in lines.old.rest.now)
        (gone_in W.sent writer.old) (gone_in W.sent writer.new) (string_bytes piece.old)
        (string_bytes piece.new)) }
    ensures cut { IfOk result (λ end.
        IfCut end (length lines.new.rest.now < length lines.old.rest.now)) }
    ensures small { IfOk result (λ end. IfCut end (length (string_bytes piece.new) < 32768)) }
{
    let mut station = station;
    let calls = station.clerk.keeper().register().open_count();
    add_cut(alloc, is_after_cut, calls, piece, writer)?;
    match add_lines(&mut station, lines, piece, writer)? {
        End::Run(verdict) => Ok(SegmentEnd::Run(verdict)),
        End::Cut(outcome) => Ok(SegmentEnd::Cut(station.cut(outcome))),
    }
}

/// Opens a desk for the building, and a keeper over what the device has, and carries out lines
/// there, up to a power cut or to the end of the run. After a power cut it first reports how many
/// calls are open.
// (not inlined: its frame then lies where that of the building's reading was)
#[inline(never)]
pub fn add_segment<W: Outflow>(
    alloc: Global,
    building: &Building,
    disk: MemDisk,
    is_after_cut: bool,
    lines: &mut Lines,
    piece: &mut String,
    writer: &mut W,
) -> Result<SegmentEnd, ReplayFault>
    requires found { (found : Found) × IsFound building.now found (state_of disk).image }
    requires small { length (string_bytes piece.old) < 32768 }
    ensures writes { WritesPieces W.gives writer.old writer.new (string_bytes piece.new) result }
    // What they report is what is computed, of whatever is found on the device.
    ensures tells { IfOk result (λ end. (found : Found)
        → IsFound building.now found (state_of disk).image
        → (added : List ℕ) × SegmentEnds building.now lines.old.count
        (recovered building.now found) (lines_in lines.old.rest.now) added lines.new.count
        (lines_in lines.new.rest.now) end
        × Reports (gone_in W.sent writer.old) (gone_in W.sent writer.new) (string_bytes piece.old)
        (string_bytes piece.new) (start_text is_after_cut (open_count found.register) ++ added)) }
    ensures front { OnErr result ((found : Found)
        → IsFound building.now found (state_of disk).image
        → TellsPartAfter (start_text is_after_cut (open_count found.register)) building.now
        lines.old.count (recovered building.now found) (lines_in lines.old.rest.now)
        (gone_in W.sent writer.old) (gone_in W.sent writer.new) (string_bytes piece.old)
        (string_bytes piece.new)) }
    ensures cut { IfOk result (λ end.
        IfCut end (length lines.new.rest.now < length lines.old.rest.now)) }
    ensures small { IfOk result (λ end. IfCut end (length (string_bytes piece.new) < 32768)) }
{
    let terminals = MOST_CARS + usize::from(building.kiosks());
    let DeskParts { desk, seats, clerk } = new_desk(alloc, terminals)?;
    // (keeper and station have no names, which would each be a copy more)
    run_station(
        alloc,
        Station::new(
            building,
            keeper_over(FuseDisk::new(disk), building),
            &desk,
            seats,
            clerk,
        ),
        is_after_cut,
        lines,
        piece,
        writer,
    )
}
