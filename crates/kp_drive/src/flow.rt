//! What came of a stretch of work over a connection.

ghost use Rattle.std.specs.Prelude.{◌≡◌};
ghost use Rattle.kp_drive.specs.Flow.{moved};

/// What came of a stretch of work over a connection.
#[derive(Clone, Copy, Debug, PartialEq, Eq)]
pub(crate) enum Flow {
    /// Nothing has moved, and it waits.
    Idle,
    /// Bytes have moved.
    Moved,
    /// It is of no use any more.
    Ended,
}

impl Flow {
    /// The same, where something has moved before.
    pub(crate) fn moved(self) -> Flow
        ensures { result ≡ moved self }
    {
        match self {
            Flow::Idle | Flow::Moved => Flow::Moved,
            Flow::Ended => Flow::Ended,
        }
    }
}
