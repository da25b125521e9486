//! What is asked for: a run's options, where its broker is, and the names that topics have.
#![tactic(auto)]

mod options;
mod place;
mod topic;

pub use options::{Options, PARTITION_LIMIT, SENDER_LIMIT};
pub use place::Place;
pub use topic::{TOPIC_LIMIT, is_topic};
