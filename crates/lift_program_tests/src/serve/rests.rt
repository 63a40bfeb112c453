//! Tests: how long a terminal's pager rests.

use lift_base::Terminal;
use lift_serve::Pager;
use std::io;
use std::process::Abort;
use std::sync::Wait;
use std::time::{Clock, Duration, Instant};

/// How many rests are measured.
const RESTS: u32 = 20;

/// How long one rest takes.
fn rest<R: Wait + Clock + Abort>(rt: &R, pager: &Pager) -> Duration {
    let begun = Instant::now(rt).ok().expect(rt, "no clock");
    pager.rest(rt);
    begun.elapsed(rt).ok().expect(rt, "no clock")
}

/// Has the terminal ask, and its answer stored in a batch.
fn is_answered(pager: &Pager) -> bool {
    let _paged = pager.asked();
    pager.scan_begins(1) && pager.is_flushed(1)
}

/// The shortest of the rests that an answer ends; each that comes after one takes a millisecond.
fn shortest_answered<R: Wait + Clock + Abort>(rt: &R, pager: &Pager) -> Duration {
    let mut shortest = Duration::from_millis(1);
    for _ in 0..RESTS {
        assert!(rt; is_answered(pager));
        shortest = shortest.min(rest(rt, pager));
        assert!(rt; rest(rt, pager) >= Duration::from_millis(1));
    }
    shortest
}

/// The shortest of the rests of a terminal that asked and isn't answered.
fn shortest_unanswered<R: Wait + Clock + Abort>(rt: &R, pager: &Pager) -> Duration {
    let _paged = pager.asked();
    assert!(rt; pager.scan_begins(1));
    let mut shortest = rest(rt, pager);
    for _ in 1..RESTS {
        shortest = shortest.min(rest(rt, pager));
    }
    shortest
}

/// An answer ends one rest and no more: what it woke is left behind it, and shortens none. A rest
/// whose answer doesn't come ends by itself, and takes no longer than it should: each may take longer
/// where other threads run, but not all of them ten times as long.
#[test]
fn an_answer_ends_one_rest(rt: HostRuntime) {
    let pager = Pager::new(Terminal::default());
    assert!(rt; shortest_answered(&rt, &pager) < Duration::from_millis(1));
    let pager = Pager::new(Terminal::default());
    assert!(rt; shortest_unanswered(&rt, &pager) < Duration::from_millis(10));
}

/// A system whose clock can't be read.
#[derive(Drop)]
struct Clockless<'r, R> {
    rt: &'r R,
}

impl<R: Wait> Wait for Clockless<'_, R> {}

impl<R: Clock> Clock for Clockless<'_, R> {
    fn monotonic(&self) -> io::Result<Duration> {
        Err(io::Error::from(io::ErrorKind::Unsupported))
    }

    fn since_1970(&self) -> io::Result<Duration> {
        Err(io::Error::from(io::ErrorKind::Unsupported))
    }

    fn sleep(&self, duration: Duration) {
        self.rt.sleep(duration);
    }
}

/// A rest takes a millisecond where the clock can't be read, too.
#[test]
fn a_rest_without_a_clock(rt: HostRuntime) {
    let pager = Pager::new(Terminal::default());
    let begun = Instant::now(&rt).ok().expect(&rt, "no clock");
    for _ in 0..RESTS {
        pager.rest(&Clockless { rt: &rt });
    }
    let whole = begun.elapsed(&rt).ok().expect(&rt, "no clock");
    assert!(rt; whole >= Duration::from_millis(u64::from(RESTS)));
}
