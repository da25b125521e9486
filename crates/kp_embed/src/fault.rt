//! Why a call is refused.

use kp_core::CoreFault;
use kp_frames::FrameFault;
use kp_hello::HandshakeFault;
use thiserror::Error;

/// Why a record is refused: of these the first that applies. It comes back, and nothing has changed.
#[derive(Clone, Copy, Debug, PartialEq, Eq, Error)]
pub enum SendFault {
    #[error("the producer is closed")]
    Closed,
    /// No broker has said hello yet.
    #[error("the producer is not ready")]
    NotReady,
    #[error("there is no such partition")]
    NoPartition,
    /// No request can hold it, or not all the memory that there may be.
    #[error("the record is too large")]
    TooLarge,
    /// With it, the records that wait would take more than `buffer.memory`.
    #[error("the buffer is full")]
    BufferFull,
    /// Every correlation id was used, so that no further request can go out, or every number of the partition's records.
    #[error("every correlation id or number was used")]
    Spent,
    #[error("out of memory")]
    OutOfMemory,
}

/// Why a call on a connection failed.
#[derive(Clone, Copy, Debug, PartialEq, Eq, Error)]
pub enum Fault {
    /// There is no such node.
    #[error("there is no such node")]
    NoNode,
    /// There is no connection to the node, or it was given up.
    #[error("there is no connection")]
    NoConnection,
    /// What was read is no frame, or no answer to a request.
    #[error("an answer can't be read")]
    BadAnswer,
    #[error("out of memory")]
    OutOfMemory,
}

impl From<FrameFault> for Fault {
    fn from(fault: FrameFault) -> Fault {
        match fault {
            FrameFault::OutOfMemory => Fault::OutOfMemory,
            _ => Fault::BadAnswer,
        }
    }
}

impl From<HandshakeFault> for Fault {
    fn from(fault: HandshakeFault) -> Fault {
        match fault {
            HandshakeFault::OutOfMemory => Fault::OutOfMemory,
            _ => Fault::BadAnswer,
        }
    }
}

impl From<CoreFault> for Fault {
    fn from(fault: CoreFault) -> Fault {
        match fault {
            CoreFault::OutOfMemory => Fault::OutOfMemory,
            CoreFault::ReplyFault(_) | CoreFault::CorrelationSpent | CoreFault::Ended => {
                Fault::BadAnswer
            }
        }
    }
}
