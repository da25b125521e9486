//! Why a broker gave no answer, or served a connection no longer.

ghost use Rattle.std.specs.Prelude.{◌≡◌};
ghost use Rattle.kp_broker.specs.declared.fault.BrokerFault.TheVariants.{OutOfMemory};
ghost use Rattle.kp_broker.specs.Fault.{of_frame};

use kp_frames::FrameFault;
use kp_log::LogFault;
use std::alloc::{AllocError, AllocFailed};
use thiserror::Error;

/// Why a broker gave no answer, or served a connection no longer.
#[derive(Clone, Copy, Debug, PartialEq, Eq, Error)]
pub enum BrokerFault {
    /// The content is no request, or the answer is too large for a frame.
    #[error("{0}")]
    Frame(FrameFault),
    /// The reader or the writer failed, or the writer took no byte.
    #[error("the connection failed")]
    Io,
    /// A growth was refused. What the request had appended by then stays, and no answer goes out.
    #[error("out of memory")]
    OutOfMemory,
    /// The connection took too many reads.
    #[error("the connection took too many reads")]
    TooLong,
}

impl From<FrameFault> for BrokerFault {
    ghost from_gives = { λ fault e. e ≡ of_frame fault };

    fn from(fault: FrameFault) -> BrokerFault {
        match fault {
            FrameFault::OutOfMemory => BrokerFault::OutOfMemory,
            fault => BrokerFault::Frame(fault),
        }
    }
}

impl From<LogFault> for BrokerFault {
    ghost from_gives = { λ _ e. e ≡ OutOfMemory };

    fn from(fault: LogFault) -> BrokerFault {
        match fault {
            LogFault::OutOfMemory => BrokerFault::OutOfMemory,
        }
    }
}

impl From<AllocError> for BrokerFault {
    ghost from_gives = { λ _ e. e ≡ OutOfMemory };

    fn from(_error: AllocError) -> BrokerFault {
        BrokerFault::OutOfMemory
    }
}

impl<T: Drop> From<AllocFailed<T>> for BrokerFault {
    ghost from_gives = { λ _ e. e ≡ OutOfMemory };

    fn from(_error: AllocFailed<T>) -> BrokerFault {
        BrokerFault::OutOfMemory
    }
}
