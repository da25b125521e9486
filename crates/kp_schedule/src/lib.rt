//! Schedules: what a text says is to happen in a world, line by line.
#![tactic(auto)]

mod draft;
mod event_words;
mod fault;
mod given;
pub mod laws;
mod line;
mod lines;
mod parsing;
mod saying;
mod schedule;
mod setting;
mod words;

pub use fault::ReplayFault;
pub use lines::cut_line;
pub use parsing::{LINE_LIMIT, parse_schedule};
pub use schedule::{Schedule, Scheduled};
