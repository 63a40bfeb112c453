//! What a look took.

use lift_base::{Body, Number, Reply, Terminal};
use lift_desk::Note;
use lift_policy::Command;

/// A command that was taken, a note of its ask, and the reply that it gets once its batch is safe.
#[derive(Drop)]
pub struct NotedCommand {
    pub command: Command,
    pub reply: Reply,
    pub note: Note,
}

impl Default for NotedCommand {
    fn default() -> Self {
        NotedCommand {
            command: Command {
                terminal: Terminal::default(),
                number: Number::default(),
                body: Body::default(),
            },
            reply: Reply::Unknown,
            note: Note::default(),
        }
    }
}
