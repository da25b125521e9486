//! The words of a call of `kprod`, and what they ask for, by clap; but for those of `send`, which stand in a crate of their own.
#![tactic(auto)]

mod broker_words;
mod command_line;
mod commands;
pub mod option_rules;
pub mod option_words;
mod run_command;
mod run_words;

pub use command_line::{Command, command_of};
pub use commands::bare_program;
pub use run_words::Wanted;
