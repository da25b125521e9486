//! Why an engine over several nodes does not go on.

use kp_engine::Cause;

/// Why an engine that lasts through outages does not go on.
#[derive(Clone, Copy, Debug, PartialEq, Eq)]
pub enum Over {
    /// The core was closed, nothing is queued, open or held, and every report was handed over.
    Done,
    /// There is to be no connection any more. The last one was lost for this; Io stands where none was.
    GaveUp(Cause),
    /// Each correlation id was used, and nothing is open any more: what is queued can only be given up.
    Spent,
    /// Memory was refused.
    OutOfMemory,
}
