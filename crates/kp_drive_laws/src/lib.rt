//! Laws of a driven producer, whatever use is made of it.
#![tactic(auto)]

pub mod laws;
