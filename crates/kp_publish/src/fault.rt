//! Why a stream is given up.

use kp_lines::LineFault;
use std::alloc::AllocError;
use std::io;
use thiserror::Error;

/// Why a stream is given up. Of the lines that were sent then, and not told of, nobody knows what became of them.
#[derive(Clone, Copy, Debug, PartialEq, Eq, Error)]
pub enum PublishFault {
    #[error("out of memory")]
    OutOfMemory,
    /// The event loop has failed, or the clock can't be read.
    #[error("network")]
    Network,
    /// The input can't be read on. What was read of it was sent and told of.
    #[error("the input can't be read")]
    Input,
    #[error("the file for offsets can't be written")]
    Offsets,
    #[error("the file for undelivered lines can't be written")]
    Undelivered,
    #[error("the file for unknown lines can't be written")]
    Unknown,
    /// Its time was over, or every correlation id was used. So many lines were told of, and those behind them were not sent.
    #[error("given up; what stands behind line {0} was not sent")]
    GivenUp(u64),
    /// The number of the next line would be above u64::MAX.
    #[error("every number was used")]
    Spent,
}

impl From<AllocError> for PublishFault {
    fn from(_refused: AllocError) -> PublishFault {
        PublishFault::OutOfMemory
    }
}

impl From<LineFault> for PublishFault {
    fn from(fault: LineFault) -> PublishFault {
        match fault {
            LineFault::OutOfMemory => PublishFault::OutOfMemory,
            LineFault::Spent => PublishFault::Spent,
        }
    }
}

impl From<io::Error> for PublishFault {
    fn from(error: io::Error) -> PublishFault {
        match error.kind() {
            io::ErrorKind::OutOfMemory => PublishFault::OutOfMemory,
            _ => PublishFault::Network,
        }
    }
}
