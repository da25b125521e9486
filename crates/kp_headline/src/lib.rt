//! The laws of every run, of any calls on a core: whatever is called, with any network that only carries what it was
//! given, is a run of a world.
#![tactic(auto)]

pub mod exhibits;
pub mod laws;
pub mod moving;
