//! The laws of every run, of any service: whatever brokers and network were around it, once it has ended and was settled
//! with its senders.
#![tactic(auto)]

pub mod ending;
pub mod laws;
