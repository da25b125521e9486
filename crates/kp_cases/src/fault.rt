//! Why a step can't be played.

use hex::FromHexError;
use std::alloc::{AllocError, AllocFailed};
use std::fmt;
use thiserror::Error;

/// Why a step can't be played.
#[derive(Clone, Copy, Debug, PartialEq, Eq, Error)]
pub enum StepFault {
    /// A word that is none of the player's, or one too few or too many.
    #[error("is not understood")]
    NotUnderstood,
    /// What it asks for can't be done there.
    #[error("can't be: {0}")]
    CannotBe(&'static str),
    /// It finds no memory, and has left all as it was: it may be played again.
    #[error("finds no memory")]
    OutOfMemory,
    /// What it plays with found no memory before, and has stopped for good: it is passed over.
    #[error("has stopped")]
    Stopped,
}

impl From<&'static str> for StepFault {
    fn from(what: &'static str) -> StepFault {
        StepFault::CannotBe(what)
    }
}

impl From<AllocError> for StepFault {
    fn from(_refused: AllocError) -> StepFault {
        StepFault::OutOfMemory
    }
}

impl<T: Drop> From<AllocFailed<T>> for StepFault {
    fn from(_refused: AllocFailed<T>) -> StepFault {
        StepFault::OutOfMemory
    }
}

/// Text that was not written, which is in memory here.
impl From<fmt::Error> for StepFault {
    fn from(_refused: fmt::Error) -> StepFault {
        StepFault::OutOfMemory
    }
}

impl From<FromHexError> for StepFault {
    fn from(fault: FromHexError) -> StepFault {
        match fault {
            FromHexError::OutOfMemory => StepFault::OutOfMemory,
            _ => StepFault::NotUnderstood,
        }
    }
}
