//! Why a schedule was not replayed.

ghost use Rattle.std.specs.Prelude.{◌≡◌};
ghost use Rattle.kp_schedule.specs.declared.fault.ReplayFault.TheVariants.{OutOfMemory};

use kp_accum::ConfigFault;
use std::alloc::{AllocError, AllocFailed};
use thiserror::Error;

/// Why a schedule was not replayed. Lines are counted from 1.
#[derive(Clone, Copy, Debug, PartialEq, Eq, Error)]
pub enum ReplayFault {
    /// This line is not understood.
    #[error("line {0} is not understood")]
    BadLine(u64),
    /// The event of this line names what isn't there.
    #[error("line {0} names what isn't there")]
    NoSuch(u64),
    /// The configuration is refused.
    #[error("{0}")]
    Config(ConfigFault),
    /// The schedule has more lines than a schedule may have.
    #[error("the schedule is too long")]
    TooLong,
    /// A growth was refused.
    #[error("out of memory")]
    OutOfMemory,
}

impl From<AllocError> for ReplayFault {
    ghost from_gives = { λ _ e. e ≡ OutOfMemory };

    fn from(_refused: AllocError) -> ReplayFault {
        ReplayFault::OutOfMemory
    }
}

impl<T: Drop> From<AllocFailed<T>> for ReplayFault {
    ghost from_gives = { λ _ e. e ≡ OutOfMemory };

    fn from(_refused: AllocFailed<T>) -> ReplayFault {
        ReplayFault::OutOfMemory
    }
}
