//! What a turn of the flusher did.

/// What one turn of a flusher did.
#[derive(Clone, Copy, PartialEq, Eq)]
pub struct FlushCounts {
    /// How many batches it made safe, at most one.
    pub batches: usize,
    /// How many answers it stored: one for each command of the batch, at most 63.
    pub answers: usize,
}
