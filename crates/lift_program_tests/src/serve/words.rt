//! What the threads of a test see of one another.

use std::sync::atomic::{AtomicU64, Ordering};
use std::thread;

/// How often a thread looks for what another does.
const LIMIT: u64 = 20_000_000;

/// What the threads of a test see of one another.
#[derive(Drop)]
pub(crate) struct Words {
    /// How often the policy was asked.
    pub(crate) asked: AtomicU64,
    /// 1 where a sync was held.
    pub(crate) held: AtomicU64,
    /// 1 where it is to be held no longer.
    pub(crate) released: AtomicU64,
    /// 1 where all went as the script has it.
    pub(crate) followed: AtomicU64,
    /// 1 where the serving has ended.
    pub(crate) ended: AtomicU64,
}

impl Words {
    pub(crate) fn new() -> Self {
        Words {
            asked: AtomicU64::new(0),
            held: AtomicU64::new(0),
            released: AtomicU64::new(0),
            followed: AtomicU64::new(0),
            ended: AtomicU64::new(0),
        }
    }
}

/// Whether a word comes to be 1, within this many looks.
pub(crate) fn is_set(word: &AtomicU64) -> bool {
    for _ in 0..LIMIT {
        if word.load(Ordering::SeqCst) == 1 {
            return true;
        }
        thread::yield_now();
    }
    false
}
