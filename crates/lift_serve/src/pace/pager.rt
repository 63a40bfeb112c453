//! What tells a resting session that its terminal's answer is stored.

ghost use Rattle.std.specs.Prelude.{◌≡◌};

use lift_base::Terminal;
use std::marker::Model;
use std::sync::Wait;
use std::sync::atomic::{AtomicBool, AtomicU64, Ordering};
use std::thread;
use std::thread::Parker;
use std::time::{Clock, Duration, Instant};

/// How long a rest is that no answer ends, ms.
const REST_MS: u64 = 1;

/// No answer is awaited.
const IDLE: u64 = 0;

/// An ask was stored.
const ASKED: u64 = 1;

/// The answer is stored, and no rest was ended for it.
const ANSWERED: u64 = 2;

/// From here on the ask is in a batch, at the latest in the one whose number, from 1, is so much
/// less.
const IN_BATCH: u64 = 2;

/// Evidence that a pager was told of an ask, which is used up where the bell is rung for it. Only
/// `Pager::asked` makes one.
#[derive(Drop)]
pub struct PagedAsk {
    made: (),
}

/// How far a terminal's ask is, and where its session rests. The session says that it asked and
/// heard, the allocator's thread that a scan begins, and the flusher's which batches are answered.
/// None waits for another. Contracts see the terminal, which only proofs read.
#[derive(Drop)]
pub struct Pager {
    terminal: Terminal,
    stage: AtomicU64,
    /// All connections are closed: no answer can be written any more.
    is_left: AtomicBool,
    parker: Parker,
}

impl Model for Pager {
    ghost use Rattle.std.specs.Prelude.{ℕ};

    ghost Value = { ℕ };

    ghost view = { λ p. p.terminal };
}

impl Pager {
    /// Of this terminal, which awaits nothing.
    pub fn new(terminal: Terminal) -> Pager
        ensures { result ≡ terminal }
    {
        Pager {
            terminal,
            stage: AtomicU64::new(IDLE),
            is_left: AtomicBool::new(false),
            parker: Parker::new(),
        }
    }

    /// The terminal's last ask is stored.
    pub fn asked(&self) -> PagedAsk {
        self.stage.store(ASKED, Ordering::SeqCst);
        PagedAsk { made: () }
    }

    /// The answer was heard.
    pub fn heard(&self) {
        self.stage.store(IDLE, Ordering::SeqCst);
    }

    /// A scan begins, which finds what was asked before, and sends it in this batch. Whether the
    /// terminal had asked.
    pub fn scan_begins(&self, batch: u64) -> bool {
        self.goes_on(ASKED, batch.saturating_add(IN_BATCH))
    }

    /// So many batches are flushed: all that was in them is answered. A session that rests for its
    /// answer wakes. Whether this woke it.
    pub fn is_flushed(&self, batches: u64) -> bool {
        let stage = self.stage.load(Ordering::SeqCst);
        let is_answered = stage > IN_BATCH
            && stage <= batches.saturating_add(IN_BATCH)
            && self.goes_on(stage, ANSWERED);
        if is_answered {
            self.parker.unpark();
        }
        is_answered
    }

    /// Nobody is there any more to be answered. From here on no rest takes time: a session that waits
    /// makes the looks that it has left, and ends.
    pub(crate) fn leave(&self) {
        self.is_left.store(true, Ordering::SeqCst);
        self.parker.unpark();
    }

    /// Rests for a millisecond. Nothing ends that earlier but the terminal's own answer, once, which
    /// the next look finds; and that all connections are closed.
    pub fn rest<R: Wait + Clock>(&self, rt: &R) {
        let whole = Duration::from_millis(REST_MS);
        let Ok(start) = Instant::now(rt) else {
            thread::sleep(rt, whole);
            return;
        };
        for _ in rt.forever() {
            if self.is_left.load(Ordering::SeqCst) || self.goes_on(ANSWERED, IDLE) {
                return;
            }
            match left_of(rt, start, whole) {
                Some(left) => self.parker.park_timeout(rt, left),
                None => return,
            }
        }
    }

    fn goes_on(&self, from: u64, to: u64) -> bool {
        let stage = &self.stage;
        if stage.load(Ordering::SeqCst) != from {
            return false;
        }
        stage
            .compare_exchange(from, to, Ordering::SeqCst, Ordering::SeqCst)
            .is_ok()
    }
}

/// What is left of a time that began then; none where it is over, or where the clock can't be read.
fn left_of<R: Clock>(rt: &R, start: Instant, whole: Duration) -> Option<Duration> {
    let left = whole.checked_sub(start.elapsed(rt).ok()?)?;
    if left.is_zero() { None } else { Some(left) }
}
