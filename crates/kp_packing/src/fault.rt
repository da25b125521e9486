//! Why a batch was not packed.

ghost use Rattle.std.specs.Prelude.{◌≡◌};
ghost use Rattle.kp_packing.specs.declared.fault.PackFault.TheVariants as pack_fault;

use kp_log::LogFault;
use std::alloc::AllocError;

/// Why a batch was not packed.
#[derive(Clone, Copy, Debug, PartialEq, Eq)]
pub enum PackFault {
    /// A growth was refused.
    OutOfMemory,
    /// The batch would be larger than a batch may be.
    TooLarge,
}

impl From<AllocError> for PackFault {
    ghost from_gives = { λ _ e. e ≡ pack_fault.OutOfMemory };

    fn from(_refused: AllocError) -> PackFault {
        PackFault::OutOfMemory
    }
}

impl From<LogFault> for PackFault {
    ghost from_gives = { λ _ e. e ≡ pack_fault.OutOfMemory };

    fn from(_refused: LogFault) -> PackFault {
        PackFault::OutOfMemory
    }
}
