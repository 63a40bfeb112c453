//! Scripts whose reader or writer fails: a prefix of the report comes, and the end tells why.
use crate::replay::reading::Failing;
use lift_base::text::{Counted, Watched};
use lift_replay::{ReplayFault, Verdict, run};
use std::alloc::{AllocError, Global};
use std::io;
use std::io::{Read, Write};
use std::test::Fail;

/// A writer that takes this many bytes, some of them in each call, and keeps them. Then it fails,
/// or takes nothing.
#[derive(Drop)]
struct Narrow {
    room: usize,
    most: usize,
    fails: bool,
    taken: Vec<u8>,
}

impl Write for Narrow {
    fn write(&mut self, buf: &[u8]) -> io::Result<usize> {
        let count = self.room.min(buf.len()).min(self.most);
        if count == 0 && self.fails {
            return Err(io::Error::from(io::ErrorKind::TimedOut));
        }
        if self.taken.extend_from_slice(&buf[..count]).is_err() {
            return Err(io::Error::from(io::ErrorKind::OutOfMemory));
        }
        self.room -= count;
        Ok(count)
    }

    fn flush(&mut self) -> io::Result<()> {
        Ok(())
    }
}

/// Whether a bad script with this report comes to what it should where the writer takes this many
/// bytes: the whole report, or as much of it as there is room for. Where memory is refused it comes
/// to any prefix of it.
fn comes_to(alloc: Global, script: &[u8], report: &[u8], room: usize) -> Result<bool, AllocError> {
    let mut writer = Watched::new(Narrow {
        room,
        most: room,
        fails: true,
        taken: Vec::with_capacity(alloc, room)?,
    });
    let end = run(alloc, &mut Counted::new(script), &mut writer);
    let writer = writer.into_inner();
    let taken = writer.taken.as_slice();
    Ok(match end {
        Ok(Verdict::Bad) => taken == report,
        Err(ReplayFault::Write) => room < report.len() && taken == &report[..room],
        Err(ReplayFault::Memory(_)) => report.starts_with(taken),
        _ => false,
    })
}

/// A reader that fails: nothing was written.
#[test]
fn a_reader_fails(rt: HostRuntime) {
    let mut report = Watched::new(Vec::new(rt.alloc()));
    let read = run(
        rt.alloc(),
        &mut Counted::new(Failing { calls: 0 }),
        &mut report,
    );
    assert!(rt; read == Err(ReplayFault::Read) && report.into_inner().is_empty());
}

/// Two floors, a kiosk and a car.
const SMALL: &str =
    "floors = 2\ndoor_ms = 0\nkiosks = [0]\nflight = [[0, 1], [1, 0]]\ncars = [{ places = 1 }]\n---\n";

/// A text, this many times, between two others.
fn repeated(
    alloc: Global,
    front: &str,
    text: &str,
    times: u32,
    behind: &str,
) -> Result<String, AllocError> {
    let mut whole = String::from_str(alloc, front)?;
    for _ in 0..times {
        whole.push_str(text)?;
    }
    whole.push_str(behind)?;
    Ok(whole)
}

/// A writer that takes no more, in a short report and in a long one.
#[test]
fn a_writer_fails(rt: HostRuntime) -> Result<(), Fail> {
    for room in 0..11 {
        assert!(rt; comes_to(rt.alloc(), b"", b"NO SCRIPT\n", room)?, "{room}");
    }
    let script = repeated(rt.alloc(), SMALL, "turn\n", 9000, "turns\n")?;
    let report = repeated(rt.alloc(), "", "turn 0 0\n", 9000, "BAD 9001\n")?;
    for room in [0, 1, 32_768, 32_776, 32_777, 50_000, 81_008, 81_009] {
        let comes = comes_to(rt.alloc(), script.as_bytes(), report.as_bytes(), room)?;
        assert!(rt; comes, "{room}");
    }
    Ok(())
}

/// Gives a byte at each call, and fails at one of them; or ends there, though there is more.
#[derive(Drop)]
struct Halting<'t> {
    text: &'t [u8],
    given: usize,
    /// The call at which it halts, counted from 0.
    halt: usize,
    fails: bool,
}

impl Read for Halting<'_> {
    fn read(&mut self, buf: &mut [u8]) -> io::Result<usize> {
        if self.given == self.halt && self.fails {
            return Err(io::Error::from(io::ErrorKind::TimedOut));
        }
        if self.given == self.halt || buf.is_empty() {
            return Ok(0);
        }
        match self.text.get(self.given) {
            Some(byte) => {
                buf[0] = *byte;
                self.given += 1;
                Ok(1)
            }
            None => Ok(0),
        }
    }
}

/// A script of a call that is refused, and its report.
const CALL: &[u8] =
    b"floors = 2\ndoor_ms = 0\nkiosks = [0]\nflight = [[0, 1], [1, 0]]\ncars = [{ places = 1 }]\n---\ncall 0 1 1\nturn\nrows\n";

const CALLED: &[u8] = b"turn 1 0\nK0 1 NO 3\nrows 0 0\n";

/// What a reader that halts at this call comes to, with what was written.
fn halted(alloc: Global, halt: usize, fails: bool) -> (Result<Verdict, ReplayFault>, Vec<u8>) {
    let reader = Halting {
        text: CALL,
        given: 0,
        halt,
        fails,
    };
    let mut report = Watched::new(Vec::new(alloc));
    let end = run(alloc, &mut Counted::new(reader), &mut report);
    (end, report.into_inner())
}

/// Whether a reader that fails there has nothing written, and one that ends there comes to what the
/// prefix that it gave comes to.
fn halts_at(alloc: Global, halt: usize) -> bool {
    let (failed, unwritten) = halted(alloc, halt, true);
    let (ended, report) = halted(alloc, halt, false);
    let mut wanted = Watched::new(Vec::new(alloc));
    let end = run(
        alloc,
        &mut Counted::new(&CALL[..halt.min(CALL.len())]),
        &mut wanted,
    );
    failed == Err(ReplayFault::Read)
        && unwritten.is_empty()
        && ended == end
        && report.as_slice() == wanted.into_inner().as_slice()
}

/// A reader of a byte a call that fails, or ends, at each of its calls.
#[test]
fn readers_halt_at_each_call(rt: HostRuntime) {
    let mut right = 0usize;
    for halt in 0..CALL.len().saturating_add(1) {
        if halts_at(rt.alloc(), halt) {
            right = right.saturating_add(1);
        }
    }
    let (end, report) = halted(rt.alloc(), CALL.len(), false);
    assert!(rt; right == CALL.len().saturating_add(1));
    assert!(rt; end == Ok(Verdict::Good) && report.as_slice() == CALLED);
}

/// Whether a writer that takes this many bytes, two at most in a call, and then fails or takes
/// nothing, has a prefix of the report.
fn halts_writing(alloc: Global, room: usize, fails: bool) -> bool {
    let mut writer = Watched::new(Narrow {
        room,
        most: 2,
        fails,
        taken: Vec::new(alloc),
    });
    let end = run(alloc, &mut Counted::new(CALL), &mut writer);
    let writer = writer.into_inner();
    let wanted = if room < CALLED.len() {
        Err(ReplayFault::Write)
    } else {
        Ok(Verdict::Good)
    };
    end == wanted && CALLED.starts_with(writer.taken.as_slice()) && writer.taken.len() == room
}

/// A writer that fails, or takes nothing, after each byte of the report.
#[test]
fn writers_halt_after_each_byte(rt: HostRuntime) {
    let mut right = 0usize;
    for room in 0..CALLED.len().saturating_add(1) {
        if halts_writing(rt.alloc(), room, false) && halts_writing(rt.alloc(), room, true) {
            right = right.saturating_add(1);
        }
    }
    assert!(rt; right == CALLED.len().saturating_add(1));
}
