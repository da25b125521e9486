//! What the programs over a file have in common: its bytes and their lines, an output written whole, lines that tell a fault, and how
//! a call ends whose words are no command.
#![tactic(auto)]

mod ending;
mod lines;
mod streams;
mod telling;

pub use ending::{DONE, FAULT, USAGE, refuse, refuse_words, words_of};
pub use lines::{cut, slices_of};
pub use streams::{ReadFault, read_file, write_whole};
pub use telling::{OUT_OF_MEMORY, put_cannot_read, put_numbered};
