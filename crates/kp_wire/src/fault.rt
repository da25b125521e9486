//! What is wrong with bytes, and what else stops a reader.

ghost use Rattle.std.specs.Prelude.{◌≡◌};
ghost use Rattle.kp_wire.specs.declared.fault.ReadError.TheVariants.{Memory, Fault};

use std::alloc::{AllocError, AllocFailed};
use thiserror::Error;

/// What is wrong with bytes: the first fault from left to right.
#[derive(Clone, Copy, Debug, PartialEq, Eq, Error)]
pub enum WireFault {
    /// The input ends within the field.
    #[error("the input ends within a field")]
    Short,
    /// A number of variable length has more bits than its type.
    #[error("a number is too large for its type")]
    TooLarge,
    /// A number of variable length has a shorter spelling.
    #[error("a number is not in its shortest form")]
    NotShortest,
    /// A text is not UTF-8.
    #[error("a text is not valid UTF-8")]
    NotUtf8,
    /// A length that no field has here.
    #[error("a length is not allowed here")]
    BadLength,
    /// A byte that no field has here.
    #[error("a byte is not allowed here")]
    BadByte,
}

/// Why a reader that takes memory gave no value.
#[derive(Clone, Copy, Debug, PartialEq, Eq, Error)]
pub enum ReadError {
    /// A growth was refused.
    #[error("out of memory")]
    Memory,
    /// The bytes are faulty.
    #[error("{0}")]
    Fault(WireFault),
}

impl From<WireFault> for ReadError {
    ghost from_gives = { λ fault e. e ≡ Fault fault };

    fn from(fault: WireFault) -> ReadError {
        ReadError::Fault(fault)
    }
}

impl From<AllocError> for ReadError {
    ghost from_gives = { λ _ e. e ≡ Memory };

    fn from(_error: AllocError) -> ReadError {
        ReadError::Memory
    }
}

impl<T: Drop> From<AllocFailed<T>> for ReadError {
    ghost from_gives = { λ _ e. e ≡ Memory };

    fn from(_error: AllocFailed<T>) -> ReadError {
        ReadError::Memory
    }
}
