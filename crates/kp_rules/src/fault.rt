//! Why no request goes out, or a reply is refused.

use kp_frames::FrameFault;
use thiserror::Error;

/// Why no request goes out, or a reply is refused. The core is as it was.
#[derive(Clone, Copy, Debug, PartialEq, Eq, Error)]
pub enum CoreFault {
    #[error("out of memory")]
    OutOfMemory,
    /// A request could be sent, and the last correlation id was used.
    #[error("every correlation id was used")]
    CorrelationSpent,
    /// The reply can't be read, or is not one to the request that it names.
    #[error("the reply is refused: {0}")]
    ReplyFault(FrameFault),
    #[error("the producer was ended")]
    Ended,
}
