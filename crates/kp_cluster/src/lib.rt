//! Who leads what in a cluster, and which connections are wanted: one value that makes no call on the system.
#![tactic(auto)]

mod action;
mod actions;
mod backoff;
mod cluster;
mod config;
pub mod laws;
mod learning;
mod metadata;
mod slot;
mod slots;

pub use action::Action;
pub use cluster::Cluster;
pub use config::ClusterConfig;
pub use learning::SLOT_LIMIT;
pub use metadata::METADATA_PAUSE_MS;
pub use slot::Address;
