//! Laws of an embedded producer, over any list of its calls, with any brokers and any network around it.
#![tactic(auto)]

pub mod laws;
