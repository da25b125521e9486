//! The rules of the sender core: which records are sent, sent again, given up and told of (KIP-98, and the producer
//! configurations of Kafka's documentation), and laws of them.
#![tactic(auto)]

pub mod account_laws;
mod attempt;
mod error_code;
mod fault;
pub mod laws;
pub mod life_laws;
mod meaning;
mod names;
pub mod order_laws;
mod outcome;
mod outgoing;
pub mod request_laws;
mod run;
pub mod telling_laws;
mod ticked;

pub use attempt::Attempt;
pub use error_code::{ErrorCode, meaning_of};
pub use fault::CoreFault;
pub use meaning::Meaning;
pub use names::Names;
pub use outcome::{Outcome, Reason, Report};
pub use outgoing::Outgoing;
pub use run::Run;
pub use ticked::{Replied, Ticked};
