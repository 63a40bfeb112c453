//! What a power cut leaves.

/// What becomes of the sectors that are loose when the power is cut.
#[derive(Clone, Copy, PartialEq, Eq)]
pub enum Outcome {
    /// They keep their bytes.
    Keep,
    /// They return to those of the last successful sync.
    Lose,
    /// Each of their bytes becomes this one.
    Fill(u8),
}
