//! How the allocator's thread and the flusher's wait: for terminals, and for one another.

ghost use Rattle.std.specs.Prelude.{◌≡◌, ◌+◌};
ghost use Rattle.lift_kiosk.specs.Desk.{asks_at};

mod pager;

use crate::over::Over;
use crate::prepared::connections::AllShut;
use lift_base::ProofCount;
use lift_desk::Seat;
use lift_relay::{BothRun, Gate};
pub use pager::{PagedAsk, Pager};
use std::marker::Model;
use std::snapshot::Snapshot;
use std::sync::atomic::{AtomicBool, AtomicU64, Ordering};
use std::sync::{OnceLock, Wait};
use std::thread::Parker;
use std::time::Duration;

/// So many ms after the flusher began on a batch the next one is decided, where it isn't done
/// with it before.
const AHEAD_MS: u64 = 1;

/// So many sessions the flusher wakes after a batch. Each wakes another after what it writes.
const FIRST_WOKEN: u64 = 2;

/// The allocator doesn't wait for asks.
const NOT_WAITING: u64 = u64::MAX;

/// For how many asks at a terminal's seat the bell was rung. Only proofs read it, and only a ring
/// counts.
#[derive(Drop)]
pub struct RingCount {
    before: Snapshot<Seat>,
    times: ProofCount,
}

impl Model for RingCount {
    ghost use Rattle.std.specs.Prelude.{ℕ, ◌+◌};
    ghost use Rattle.lift_kiosk.specs.Desk.{asks_at};

    ghost Value = { ℕ };

    ghost view = { λ r. asks_at r.before.value + r.times.count };
}

impl RingCount {
    /// All that was asked at this seat was rung for, by the sessions before.
    pub fn of(seat: &Seat) -> Self
        ensures { result ≡ asks_at seat.now }
    {
        RingCount {
            before: Snapshot::of(seat),
            times: ProofCount::new(),
        }
    }
}

/// How the threads of a serving wait, and what wakes them: the accepting's waits for both parts; the
/// allocator's for asks, or for the flusher to go on; the flusher's for batches; a session's, at its
/// terminal's pager, for its answer. It is the gate of both parts: they go on until the accepting is over,
/// and each terminal's pager is told how far its ask is.
#[derive(Drop)]
pub struct Pace<'s> {
    pagers: &'s [Pager],
    /// That both parts have a thread: before that the accepting lets nobody in.
    both: OnceLock<BothRun>,
    doors: Parker,
    /// Where the allocator waits for asks.
    asks: Parker,
    /// How many have asked since the last scan began, or some more.
    asked: AtomicU64,
    /// So many wake the allocator.
    enough: AtomicU64,
    /// How many asks the last scan was begun for, and the one before it.
    last: AtomicU64,
    before: AtomicU64,
    room: Parker,
    sent: AtomicU64,
    batches: Parker,
    flushed: AtomicU64,
    /// Both parts are to end.
    is_over: AtomicBool,
}

impl<'s> Pace<'s> {
    /// Of a line on which nothing was sent, at which nobody waits.
    pub fn new(pagers: &'s [Pager]) -> Self {
        Pace {
            pagers,
            both: OnceLock::new(),
            doors: Parker::new(),
            asks: Parker::new(),
            asked: AtomicU64::new(0),
            enough: AtomicU64::new(NOT_WAITING),
            last: AtomicU64::new(0),
            before: AtomicU64::new(0),
            room: Parker::new(),
            sent: AtomicU64::new(0),
            batches: Parker::new(),
            flushed: AtomicU64::new(0),
            is_over: AtomicBool::new(false),
        }
    }

    /// Whether both parts have a thread.
    pub(crate) fn begun(&self) -> Option<&BothRun> {
        self.both.get()
    }

    /// Waits until both parts have a thread, or somebody rings at the doors.
    pub(crate) fn wait_at_doors<R: Wait>(&self, rt: &R) {
        self.doors.park(rt);
    }

    /// Wakes who waits for both parts.
    pub(crate) fn ring_at_doors(&self) {
        self.doors.unpark();
    }

    /// A terminal's ask is stored, of which its pager was told before. It wakes the allocator once as many
    /// have asked as that waits for.
    pub fn ring(&self, _paged: PagedAsk, count: &mut RingCount)
        ensures { count.new ≡ count.old + 1 }
    {
        let asked = self.asked.fetch_add(1, Ordering::SeqCst).saturating_add(1);
        if asked >= self.enough.load(Ordering::SeqCst) {
            self.asks.unpark();
        }
        count.times = ProofCount::next(&count.times);
    }

    /// From here on so many asks wake the allocator. Whether they are still to come.
    fn wants(&self, enough: u64) -> bool {
        self.enough.store(enough, Ordering::SeqCst);
        self.asked.load(Ordering::SeqCst) < enough
    }

    fn wants_none(&self) {
        self.enough.store(NOT_WAITING, Ordering::SeqCst);
    }

    /// Where the allocator waits, one ask is enough.
    fn one_is_enough(&self) {
        if self.enough.load(Ordering::SeqCst) != NOT_WAITING && !self.wants(1) {
            self.asks.unpark();
        }
    }

    /// Wakes one session whose answer is stored, if one is left.
    pub fn wake_one(&self) {
        let flushed = self.flushed.load(Ordering::SeqCst);
        for pager in self.pagers {
            if pager.is_flushed(flushed) {
                return;
            }
        }
    }

    /// Wakes all sessions whose answers are stored.
    fn wake_answered(&self) {
        let flushed = self.flushed.load(Ordering::SeqCst);
        for pager in self.pagers {
            pager.is_flushed(flushed);
        }
    }

    /// All connections are closed: no session rests any more.
    pub(crate) fn leave_all(&self, _shut: AllShut) {
        for pager in self.pagers {
            pager.leave();
        }
    }

    /// Both parts are to end, whatever their threads wait for.
    pub(crate) fn end_parts(&self, _over: &Over) {
        self.is_over.store(true, Ordering::SeqCst);
        self.asks.unpark();
        self.room.unpark();
        self.batches.unpark();
    }

    /// What was asked before a scan is found by it, and is in the batch that it sends.
    fn scan_begins(&self) {
        self.asked.store(0, Ordering::SeqCst);
        let batch = self.sent.load(Ordering::SeqCst).saturating_add(1);
        let mut asked = 0u64;
        for pager in self.pagers {
            if pager.scan_begins(batch) {
                asked = asked.saturating_add(1);
            }
        }
        if asked > 0 {
            let last = self.last.load(Ordering::SeqCst);
            self.before.store(last, Ordering::SeqCst);
            self.last.store(asked, Ordering::SeqCst);
        }
    }

    /// Whether no more than so many batches of those that were sent are still to be flushed.
    fn has_flushed_all_but(&self, sent: u64, batches: u64) -> bool {
        sent <= self.flushed.load(Ordering::SeqCst).saturating_add(batches)
    }

    /// Waits until the flusher has one batch to do at most.
    fn wait_for_room<R: Wait>(&self, rt: &R, sent: u64) {
        for _ in rt.forever() {
            if self.has_flushed_all_but(sent, 1) || !self.go_on() {
                break;
            }
            self.room.park(rt);
        }
    }

    /// Waits until as many have asked as were in the larger of the last two batches, or the flusher
    /// has none to do and one has asked, or for a while. A batch that is decided later is
    /// fuller, and whoever is in it waits for one batch less.
    fn wait_for_asks<R: Wait>(&self, rt: &R, sent: u64) {
        let last = self.last.load(Ordering::SeqCst);
        let enough = last.max(self.before.load(Ordering::SeqCst));
        if self.wants(enough) && !self.has_flushed_all_but(sent, 0) && self.go_on() {
            self.asks.park_timeout(rt, Duration::from_millis(AHEAD_MS));
        }
        self.wants_none();
    }
}

impl<'s> Gate for Pace<'s> {
    fn go_on(&self) -> bool {
        !self.is_over.load(Ordering::SeqCst)
    }

    fn both_run(&self, both: BothRun) {
        let _first = self.both.try_set(both);
        self.doors.unpark();
    }

    fn allocator_idles<R: Wait>(&self, rt: &R) {
        if self.wants(1) {
            self.asks.park(rt);
        }
        self.wants_none();
        self.scan_begins();
    }

    fn has_sent<R: Wait>(&self, rt: &R, count: u64) {
        self.sent.store(count, Ordering::SeqCst);
        self.batches.unpark();
        self.wait_for_room(rt, count);
        self.wake_answered();
        self.wait_for_asks(rt, count);
        self.scan_begins();
    }

    fn flusher_idles<R: Wait>(&self, rt: &R) {
        self.batches.park(rt);
    }

    fn has_flushed<R: Wait>(&self, _rt: &R, count: u64) {
        self.flushed.store(count, Ordering::SeqCst);
        // What was asked meanwhile is decided while sessions wake.
        self.room.unpark();
        self.one_is_enough();
        for _ in 0..FIRST_WOKEN {
            self.wake_one();
        }
    }
}
