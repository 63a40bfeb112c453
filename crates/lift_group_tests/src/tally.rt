//! What a test counts.
use lift_base::Reply;
use std::process::Abort;

/// How many answers were looked at, and how many of them were otherwise than they have to be.
#[derive(Clone, Copy)]
pub(crate) struct Tally {
    looked_at: u32,
    wrong: u32,
}

impl Tally {
    pub(crate) fn new() -> Self {
        Tally {
            looked_at: 0,
            wrong: 0,
        }
    }

    /// Counts an answer.
    pub(crate) fn want(&mut self, is_right: bool) {
        self.looked_at = self.looked_at.saturating_add(1);
        self.wrong = self.wrong.saturating_add(u32::from(!is_right));
    }

    /// Counts what a terminal heard.
    pub(crate) fn want_reply(&mut self, heard: Option<Reply>, wanted: &Option<Reply>) {
        self.want(heard == *wanted);
    }

    /// This many answers were looked at, and all were as they have to be.
    pub(crate) fn ends(&self, rt: &impl Abort, answers: u32) {
        assert!(rt; self.wrong == 0);
        assert!(rt; self.looked_at == answers);
    }
}
