//! The laws of every run, of any polls of an engine: whatever it is polled, over whatever streams, with any brokers and any
//! network around its calls.
#![tactic(auto)]

pub mod bytes;
pub mod laws;
pub mod polling;
pub mod running;
pub mod settled;
