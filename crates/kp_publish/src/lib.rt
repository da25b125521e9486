//! A stream of lines published to a cluster: one thread reads it, and another sends each line as it comes, rides through outages,
//! and writes what became of each.
#![tactic(auto)]

mod fault;
mod files;
mod input;
mod moments;
mod publishing;
mod seen;
mod threads;
mod watch;
mod words;

pub use fault::PublishFault;
pub use files::Files;
pub use threads::{Plan, publish};
pub use watch::Telling;

// What a caller names of the crates below.
pub use kp_accum::Config;
pub use kp_cluster::{Address, ClusterConfig};
pub use kp_core::Names;
pub use kp_drive::{EmbedConfig, Target};
pub use kp_send::{Form, Tellings};
