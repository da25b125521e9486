//! The sender core: which records are sent, sent again, given up and told of, as calls on one value (KIP-98, and the
//! producer configurations of Kafka's documentation).
#![tactic(auto)]

mod calls;
mod machine;
mod requests;
mod turns;

pub use calls::{Answered, Asked};
pub use kp_rules::{
    Attempt, CoreFault, Meaning, Names, Outcome, Outgoing, Reason, Replied, Report, Run, Ticked,
};
pub use machine::Core;
