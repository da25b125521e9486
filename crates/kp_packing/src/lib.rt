//! What is made of a file's bytes without a run: their lines packed into one record batch, which is offered to a partition log, and
//! the text of both.
#![tactic(auto)]

mod fault;
mod lines;
mod offering;
mod packing;
mod reporting;

pub use fault::PackFault;
pub use packing::pack;
