//! Why nothing is served, or no longer.

use kp_broker::PlanFault;
use std::alloc::{AllocError, AllocFailed};
use std::io;
use thiserror::Error;

/// Why nothing is served, or no longer.
#[derive(Clone, Copy, Debug, PartialEq, Eq, Error)]
pub(crate) enum Fault {
    #[error("usage: TOPIC PARTITIONS PORT[ PORT..] [PLAN]: a topic of 1 to 249 bytes, 1 to 1024 partitions, 1 to 64 ports")]
    Usage,
    #[error("plan fault")]
    Plan,
    #[error("out of memory")]
    OutOfMemory,
    #[error("network fault")]
    Network,
}

impl Fault {
    /// The status with which the program ends.
    pub(crate) fn status(self) -> u8 {
        match self {
            Fault::Usage => 2,
            Fault::Plan | Fault::OutOfMemory | Fault::Network => 1,
        }
    }
}

impl From<PlanFault> for Fault {
    fn from(fault: PlanFault) -> Fault {
        match fault {
            PlanFault::BadPlan => Fault::Plan,
            PlanFault::OutOfMemory => Fault::OutOfMemory,
        }
    }
}

impl From<AllocError> for Fault {
    fn from(_error: AllocError) -> Fault {
        Fault::OutOfMemory
    }
}

impl<T: Drop> From<AllocFailed<T>> for Fault {
    fn from(_error: AllocFailed<T>) -> Fault {
        Fault::OutOfMemory
    }
}

impl From<io::Error> for Fault {
    fn from(error: io::Error) -> Fault {
        match error.kind() {
            io::ErrorKind::OutOfMemory => Fault::OutOfMemory,
            _ => Fault::Network,
        }
    }
}
