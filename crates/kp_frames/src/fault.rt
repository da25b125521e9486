//! Why bytes are no message, or a message has no bytes.

ghost use Rattle.std.specs.Prelude.{◌≡◌};
ghost use Rattle.kp_frames.specs.declared.fault.FrameFault.TheVariants.{OutOfMemory};
ghost use Rattle.kp_frames.specs.Fault.{of_wire, of_read};

use kp_wire::{ReadError, WireFault};
use std::alloc::AllocError;
use thiserror::Error;

/// Why bytes are no message, or a message has no bytes.
#[derive(Clone, Copy, Debug, PartialEq, Eq, Error)]
pub enum FrameFault {
    /// The input ends within a field.
    #[error("the message is cut short")]
    Short,
    /// Bytes stand behind the message.
    #[error("bytes stand behind the message")]
    Trailing,
    /// The key is that of none of the three apis.
    #[error("the api is not known")]
    UnknownApi,
    /// The version is not the one that is spoken of this api.
    #[error("the api's version is not known")]
    UnknownVersion,
    /// A field is faulty, or has a value that is longer than it can say.
    #[error("a field is faulty: {0}")]
    Wire(WireFault),
    /// The content is larger than a frame may be, or a frame's size is that of none.
    #[error("the frame is too large")]
    TooLarge,
    /// A growth was refused; nothing has changed.
    #[error("out of memory")]
    OutOfMemory,
    /// The reply is not one to the request that it names.
    #[error("the reply is not one to its request")]
    Mismatch,
}

impl From<WireFault> for FrameFault {
    ghost from_gives = { λ fault e. e ≡ of_wire fault };

    fn from(fault: WireFault) -> FrameFault {
        match fault {
            WireFault::Short => FrameFault::Short,
            fault => FrameFault::Wire(fault),
        }
    }
}

impl From<ReadError> for FrameFault {
    ghost from_gives = { λ error e. e ≡ of_read error };

    fn from(error: ReadError) -> FrameFault {
        match error {
            ReadError::Memory => FrameFault::OutOfMemory,
            ReadError::Fault(fault) => FrameFault::from(fault),
        }
    }
}

impl From<AllocError> for FrameFault {
    ghost from_gives = { λ _ e. e ≡ OutOfMemory };

    fn from(_error: AllocError) -> FrameFault {
        FrameFault::OutOfMemory
    }
}
