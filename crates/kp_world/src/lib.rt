//! Worlds: a producer, its network and a broker, and all that a schedule of events can bring about.
#![tactic(auto)]

pub mod accounts;
pub mod broker_laws;
mod event;
pub mod handing;
pub mod ids;
pub mod laws;
pub mod leaders;
pub mod needed;
pub mod reaching;

pub use event::{Event, Treatment};
