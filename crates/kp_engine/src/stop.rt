//! Why a poll of the engine is ready.

use kp_frames::FrameFault;

/// Why a poll of the engine is ready.
#[derive(Clone, Copy, Debug, PartialEq, Eq)]
pub enum Stop {
    /// The core was closed, nothing is queued, open or held, and every report was handed over.
    Done,
    /// The connection is of no use any more. The engine goes on with another stream.
    NeedStream(Cause),
    /// Memory was refused. Only the end is left.
    OutOfMemory,
}

/// Why a connection is of no use any more.
#[derive(Clone, Copy, Debug, PartialEq, Eq)]
pub enum Cause {
    /// The stream has failed or ended, or a write took no bytes.
    Io,
    /// A request has waited too long for its reply.
    TimedOut,
    /// A reply was refused, the size of a frame was that of none, or a thousand replies in a row named no request in flight.
    BadReply(FrameFault),
}
