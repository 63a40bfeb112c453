//! What the program `liftd` does: it carries out scripts, makes journals on files, shows what they
//! hold, and serves buildings on sockets.
#![tactic(auto)]

mod at_once;
mod devices;
mod end;
mod fault;
mod files;
mod format;
mod grammar;
mod help;
mod invocation;
mod leftover;
mod opening;
mod output;
mod refused;
mod replay;
mod serve;
mod show;
mod starting;
mod unwritten;
mod words;

pub use devices::letters_know_no_device;
pub use end::{End, EndBy};
pub use fault::{Fault, Role};
pub use invocation::Invocation;
pub use leftover::{Failure, Leftover};
pub use opening::{FilesView, Host, ImageView, Listens, Openers, TextOpener};
pub use output::{Outflow, output_is_counted};
pub use refused::{NoMemory, no_words};
pub use serve::Serving;
pub use starting::start;
pub use unwritten::{ShownImage, UnwrittenFile};
