//! The lines of each sender of a run, the records that they are, and which of them are too large to be sent.
#![tactic(auto)]

mod dealing;
mod sizing;

pub use dealing::{dealt, record_of};
pub use sizing::is_too_large;
