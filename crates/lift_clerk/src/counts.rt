//! What a turn did.
/// What one turn did.
#[derive(Clone, Copy, PartialEq, Eq)]
pub struct Counts {
    /// How many commands it took, at most 63.
    pub taken: usize,
    /// How many entries they added, which are safe now: at most as many.
    pub accepted: usize,
}
