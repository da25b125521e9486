//! What makes connections.

ghost use Rattle.std.specs.Prelude.{ℕ};
ghost use Rattle.futures.specs.Poll.{OnPending};
ghost use Rattle.futures.specs.Task.{Covers, Keeps};

use futures::task::{Context, Poll};

/// Makes connections to hosts and ports, any number beside one another.
pub trait Dial: Drop {
    type Stream;

    /// A connection that is being made.
    type Dialing;

    /// Holds of each source that a pending poll of it waits for.
    ghost waits: { Self.Dialing → ℕ → Type 0 };

    /// Begins to make one. None where memory is refused, or the host is not understood.
    fn dial(&mut self, host: &str, port: u16) -> Option<Self::Dialing>;

    /// The connection, or none where it can't be made.
    fn poll_dial(
        &mut self,
        cx: &mut Context<'_>,
        dialing: &mut Self::Dialing,
    ) -> Poll<Option<Self::Stream>>
        ensures registered { OnPending result (Covers cx.new (waits dialing.new)) }
        ensures kept { Keeps cx.old cx.new };
}
