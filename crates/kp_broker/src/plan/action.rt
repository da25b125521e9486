//! What is done with a Produce request.

use kp_log::ErrorCode;

/// What is done with a Produce request that isn't answered as any other, or not at once.
#[derive(Clone, Copy, Debug, PartialEq, Eq)]
pub enum Action {
    /// It is lost: nobody looks at it, and nothing is answered.
    DropRequest,
    /// Its answer is lost.
    DropReply,
    /// It comes twice, and the second answer is sent.
    Repeat,
    /// It is answered by this code, and nobody looks at its batches.
    Refuse(ErrorCode),
    /// It is answered by this code once its batches were taken as any others.
    Late(ErrorCode),
    /// The connection ends before anybody looks at it.
    HangUp,
    /// All that the node leads that is asked goes to this one before it is looked at, where the cluster has such a node.
    Move(u16),
}
