//! A partition's log, and the rule by which it takes a producer's batches (KIP-98).
#![tactic(auto)]

mod answer;
mod error_code;
mod fault;
mod kept;
pub mod laws;
mod log;
mod offering;
mod segments;
mod stored;
mod whim;

pub use answer::{Answer, Refusal};
pub use error_code::ErrorCode;
pub use fault::LogFault;
pub use log::PartitionLog;
pub use stored::Stored;
pub use whim::Whim;
