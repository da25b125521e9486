//! The words of a call of `kprod send`, and what they ask for, by clap.
#![tactic(auto)]

mod asking;
mod delimiter_words;
mod send_command;
mod send_words;
mod sending;

pub use asking::sending_asked;
pub use sending::{LAST_PARTITION, Sending};
