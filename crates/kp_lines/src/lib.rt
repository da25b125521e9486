//! A stream of bytes cut into lines, however it comes.
//!
//! A line is told as soon as its delimiter is there, with its number and its bytes in one `Vec`; a last line without a
//! delimiter is told at the stream's end.
#![tactic(auto)]

mod fault;
pub mod laws;
mod line;
mod lines;

pub use fault::LineFault;
pub use line::Line;
pub use lines::Lines;
