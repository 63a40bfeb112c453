//! A session, whatever kind of terminal speaks in it.

ghost use Rattle.std.specs.Prelude.{◌≡◌, ℕ, List, ◌+◌, ◌≤◌, ◌<◌, ◌^◌, OnOk, IfErr, IfSome};
ghost use Rattle.std.specs.Prelude.{IfNone, Err, None};
ghost use Rattle.std.specs.Str.Lines.{strip_carriage_return};
ghost use Rattle.lift_kiosk.specs.Lines.{Buffers65, IsEndWithoutLine};
ghost use Rattle.lift_kiosk.specs.Session.{Means, PortDid, GoesOn, EndsWith, AnswersLine, LastStep};
ghost use Rattle.lift_kiosk.specs.Session.{Converses, standing_of, last_after, last_opened};
ghost use Rattle.lift_kiosk.specs.declared.outcome.Outcome.{Outcome as OutcomeValue};

use crate::dialect::{Dialect, Wanted};
use crate::line::{Line, NoLine, read_line};
use crate::listening::{bring_in, carry_out};
use crate::outcome::{Opening, Outcome};
use crate::port::Port;
use crate::reading::wanted_of;
use crate::speaking::{answer_of, opening_of};
use crate::terms::{End, LastLetter, Limits};
use lift_base::text::{Counted, Watched};
use std::io::{Read, Write};

/// What comes of a line.
fn outcome_of<T: Dialect, P: Port>(line: &Line, port: &mut P, looks: u32) -> Outcome
    requires free { (P.view port.old).pending ≡ None }
    ensures means { (bytes : List ℕ) → Buffers65 bytes line.now.bytes.items line.now.is_longer
        → Means T.wants (strip_carriage_return bytes) result }
    ensures did { PortDid looks (P.view port.old) result (P.view port.new) }
    ensures stays { P.place port.new ≡ P.place port.old }
{
    match wanted_of::<T>(line) {
        None => Outcome::Malformed,
        Some(Wanted::NoFloor) => Outcome::OffFloors,
        Some(Wanted::Ask(ask)) => carry_out(port, &ask, looks),
    }
}

/// The last command, after a line.
fn last_command_after<T: Dialect>(last: &LastLetter, outcome: &Outcome) -> LastLetter
    ensures { result ≡ last_after T.keeps last.now outcome.now }
{
    match outcome {
        Outcome::Answered(ask, reply) => T::keep(last, ask.number, reply),
        _ => *last,
    }
}

/// The last command, after the start.
fn last_after_opening<T: Dialect>(last: &LastLetter, opening: &Opening) -> LastLetter
    ensures { result ≡ last_opened T.keeps last.now opening.now }
{
    match opening {
        Opening::BroughtIn(number, reply) => T::keep(last, *number, reply),
        _ => *last,
    }
}

/// Why a session ends with this outcome; none where it goes on.
fn end_with(outcome: &Outcome) -> Option<End>
    ensures some { IfSome result (λ end. EndsWith outcome.now end) }
    ensures none { IfNone result (GoesOn outcome.now) }
{
    match outcome {
        Outcome::NotAnswered(_) => Some(End::Late),
        Outcome::Refused(_) => Some(End::Spent),
        _ => None,
    }
}

/// Why a session ends for which no line came.
fn end_without_line(no_line: NoLine) -> End
    ensures { IsEndWithoutLine no_line result }
{
    match no_line {
        NoLine::AtEnd => End::Closed,
        NoLine::NoCalls => End::Limit,
        NoLine::Fault => End::ReadFault,
    }
}

/// One line: it is read, within the calls of the reader that are left, carried out and answered. An
/// `Err` ends the session.
fn exchange<T: Dialect, R: Read + Drop, W: Write + Drop, P: Port>(
    reader: &mut Counted<R>,
    writer: &mut Watched<W>,
    port: &mut P,
    last: &mut LastLetter,
    limits: &Limits,
    left: &mut u32,
) -> Result<(), End>
    requires free { (P.view port.old).pending ≡ None }
    ensures ok { OnOk result ((line : List ℕ) × (outcome : OutcomeValue) × GoesOn outcome
        × AnswersLine T.wants T.keeps limits.now line outcome
        (standing_of R.remaining W.contents P.view reader.old writer.old port.old last.old)
        (standing_of R.remaining W.contents P.view reader.new writer.new port.new last.new)) }
    ensures end { IfErr result (λ end.
        LastStep T.wants T.keeps limits.now (reader.old.calls + left.old) end
        (standing_of R.remaining W.contents P.view reader.old writer.old port.old last.old)
        (standing_of R.remaining W.contents P.view reader.new writer.new port.new last.new)) }
    ensures free { OnOk result ((P.view port.new).pending ≡ None) }
    ensures calls { reader.new.calls + left.new ≡ reader.old.calls + left.old }
    ensures stays { P.place port.new ≡ P.place port.old }
{
    let line = match read_line(reader, left) {
        Ok(line) => line,
        Err(no_line) => return Err(end_without_line(no_line)),
    };
    let outcome = outcome_of::<T, P>(&line, port, limits.looks);
    *last = last_command_after::<T>(last, &outcome);
    match writer.put(&answer_of(&outcome)) {
        Ok(()) => {}
        Err(_) => return Err(End::WriteFault),
    }
    match end_with(&outcome) {
        None => Ok(()),
        Some(end) => Err(end),
    }
}

/// A session, whatever kind of terminal speaks in it. It begins with the last command that is known
/// to be in, and keeps the last one up to its end. It may call the reader as often as the limits
/// say, beyond the calls that were made before.
pub fn converse<T: Dialect, R: Read + Drop, W: Write + Drop, P: Port>(
    reader: &mut Counted<R>,
    writer: &mut Watched<W>,
    port: &mut P,
    last: &mut LastLetter,
    limits: &Limits,
) -> End
    ensures converses { Converses T.wants T.keeps limits.now result
        (standing_of R.remaining W.contents P.view reader.old writer.old port.old last.old)
        (standing_of R.remaining W.contents P.view reader.new writer.new port.new last.new) }
    ensures stays { P.place port.new ≡ P.place port.old }
{
    let opening = bring_in(port, limits.looks);
    *last = last_after_opening::<T>(last, &opening);
    match writer.put(&opening_of(last, &opening)) {
        Ok(()) => {}
        Err(_) => return End::WriteFault,
    }
    if let Opening::StillWaits = opening {
        return End::Late;
    }
    let mut left = limits.reads;
    for _ in 0..limits.lines {
        match exchange::<T, R, W, P>(reader, writer, port, last, limits, &mut left) {
            Ok(()) => {}
            Err(end) => return end,
        }
    }
    End::Limit
}
