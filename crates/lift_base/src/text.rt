//! What scripts, reports, sessions and the command line share of texts. Nothing here takes memory.

mod display;
mod input;
mod names;
mod number;
mod output;
mod words;

pub use input::{Counted, Inlet, ReadFault};
pub use names::{dir_of_word, letter_of_word, number_of_word, party_of_words};
pub use number::number_up_to;
pub use output::{Outflow, Outlet, Watched, WriteFault, put_all};
pub use words::{MOST_WORDS, split_at_byte, words_of};
