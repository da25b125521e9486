//! The parts of the sender core: one partition, the desk at which senders are told, and requests as bytes.
#![tactic(auto)]

mod audit;
mod desk;
mod framing;
mod handed;
mod moments;
mod open;
mod partition;
mod sending;

pub use desk::Desk;
pub use framing::{id_frame, produce_frame};
pub use handed::HandedBatch;
pub use moments::{is_over, moment, sooner};
pub use open::Open;
pub use partition::Partition;
pub use sending::Sending;
