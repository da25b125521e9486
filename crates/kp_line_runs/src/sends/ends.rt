//! How it may end with a line, as words.

use kp_cases::{StepFault, Words};
use kp_embed::SendFault;
use kp_rules::{Outcome, Reason};

/// What became of a record that was accepted.
pub(crate) fn outcome_of(words: &mut Words<'_>) -> Result<Outcome, StepFault> {
    match words.word()? {
        "delivered" => Ok(Outcome::Delivered(words.number()?)),
        "stored" => Ok(Outcome::DeliveredNoOffset),
        "unknown" => Ok(Outcome::Unknown),
        "rejected" => Ok(Outcome::Rejected(words.number()?)),
        "expired" => Ok(Outcome::Unsent(Reason::Expired)),
        "fenced" => Ok(Outcome::Unsent(Reason::Fenced)),
        "ended" => Ok(Outcome::Unsent(Reason::Ended)),
        _ => Err(StepFault::NotUnderstood),
    }
}

/// Why a record was never accepted.
pub(crate) fn fault_of(words: &mut Words<'_>) -> Result<SendFault, StepFault> {
    match words.word()? {
        "closed" => Ok(SendFault::Closed),
        "not-ready" => Ok(SendFault::NotReady),
        "no-partition" => Ok(SendFault::NoPartition),
        "too-large" => Ok(SendFault::TooLarge),
        "buffer-full" => Ok(SendFault::BufferFull),
        "spent" => Ok(SendFault::Spent),
        "memory" => Ok(SendFault::OutOfMemory),
        _ => Err(StepFault::NotUnderstood),
    }
}
