//! Why a line is not told.

ghost use Rattle.std.specs.Prelude.{◌≡◌};
ghost use Rattle.kp_lines.specs.declared.fault.LineFault.TheVariants as line_fault;

use std::alloc::AllocError;
use thiserror::Error;

/// Why a line is not told. Nothing has changed, and it may be asked for again.
#[derive(Clone, Copy, Debug, PartialEq, Eq, Error)]
pub enum LineFault {
    #[error("out of memory")]
    OutOfMemory,
    /// The number behind this line's would be above u64::MAX.
    #[error("every number was used")]
    Spent,
}

impl From<AllocError> for LineFault {
    ghost from_gives = { λ _ e. e ≡ line_fault.OutOfMemory };

    fn from(_refused: AllocError) -> LineFault {
        LineFault::OutOfMemory
    }
}
