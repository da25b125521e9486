//! Why a wire reads no more.

ghost use Rattle.std.specs.Prelude.{◌≡◌};
ghost use Rattle.kp_connection.specs.Fault.{of_read};

use kp_frames::FrameFault;
use kp_hello::HandshakeFault;
use std::io;
use thiserror::Error;

/// Why a read brought nothing, or nothing that is taken.
#[derive(Debug, Drop, Error)]
pub enum ReadFault {
    /// The stream has failed.
    #[error("the stream has failed: {0}")]
    Io(io::Error),
    /// The size of a frame that was read is that of none. Frames before it can still be asked for.
    #[error("the frame is too large")]
    TooLarge,
    /// A growth was refused.
    #[error("out of memory")]
    OutOfMemory,
}

impl From<ReadFault> for HandshakeFault {
    ghost from_gives = { λ fault e. e ≡ of_read fault };

    fn from(fault: ReadFault) -> HandshakeFault {
        match fault {
            ReadFault::Io(_) => HandshakeFault::Io,
            ReadFault::TooLarge => HandshakeFault::Frame(FrameFault::TooLarge),
            ReadFault::OutOfMemory => HandshakeFault::OutOfMemory,
        }
    }
}
