//! A gate that a count closes, and a witness that counts.
use lift_relay::{BothRun, Failed, Gate, Witness};
use std::sync::Wait;
use std::sync::atomic::{AtomicU64, Ordering};
use std::thread;

/// Goes on while a count is below a limit, and keeps how far it was told that both parts are, and how
/// often there was a failure. Each that its witness was told of counts too.
#[derive(Drop)]
pub(crate) struct Below {
    count: AtomicU64,
    limit: u64,
    failures: AtomicU64,
    sent: AtomicU64,
    flushed: AtomicU64,
}

impl Below {
    pub(crate) fn new(limit: u64) -> Self {
        Below {
            count: AtomicU64::new(0),
            limit,
            failures: AtomicU64::new(0),
            sent: AtomicU64::new(0),
            flushed: AtomicU64::new(0),
        }
    }

    pub(crate) fn add(&self, count: u64) {
        self.count.fetch_add(count, Ordering::SeqCst);
    }

    pub(crate) fn fail(&self) {
        self.failures.fetch_add(1, Ordering::SeqCst);
    }

    /// Whether it has seen this many failures.
    pub(crate) fn has_seen(&self, failures: u64) -> bool {
        self.failures.load(Ordering::SeqCst) == failures
    }

    /// Whether it was last told of this many batches, sent and flushed.
    pub(crate) fn was_told_of(&self, batches: u64) -> bool {
        (self.sent.load(Ordering::SeqCst) == batches)
            & (self.flushed.load(Ordering::SeqCst) == batches)
    }
}

impl Gate for Below {
    fn go_on(&self) -> bool {
        self.count.load(Ordering::SeqCst) < self.limit
    }

    fn both_run(&self, _both: BothRun) {}

    fn allocator_idles<R: Wait>(&self, _rt: &R) {
        thread::yield_now();
    }

    fn has_sent<R: Wait>(&self, _rt: &R, count: u64) {
        self.sent.store(count, Ordering::SeqCst);
    }

    fn flusher_idles<R: Wait>(&self, _rt: &R) {
        thread::yield_now();
    }

    fn has_flushed<R: Wait>(&self, _rt: &R, count: u64) {
        self.flushed.store(count, Ordering::SeqCst);
    }
}

/// The gate's witness.
#[derive(Drop)]
pub(crate) struct Counter<'a> {
    pub(crate) gate: &'a Below,
}

impl<'a> Witness for Counter<'a> {
    fn has_failed(&mut self, _failed: Failed) {
        self.gate.fail();
        self.gate.add(1);
    }
}
