//! Why a log gave no answer.

use std::alloc::AllocError;
use thiserror::Error;

/// Why a log gave no answer.
#[derive(Clone, Copy, Debug, PartialEq, Eq, Error)]
pub enum LogFault {
    /// A growth was refused; the log is as it was.
    #[error("out of memory")]
    OutOfMemory,
}

impl From<AllocError> for LogFault {
    fn from(_: AllocError) -> Self {
        LogFault::OutOfMemory
    }
}
