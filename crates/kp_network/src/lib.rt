//! A producer's connections to the nodes of a Kafka cluster, as an engine over several connections is given them.
#![tactic(auto)]

mod asking;
pub mod laws;
mod link;
mod links;
mod network;
mod nodes;
mod question;

pub use network::Network;
