//! What is run.

ghost use Rattle.std.specs.Prelude.{ℕ};
ghost use Rattle.futures.specs.Poll.{OnPending};
ghost use Rattle.futures.specs.Task.{Hears, Keeps};
ghost use Rattle.futures.specs.declared.task.Poll.{Poll as Polled};

use futures::task::{Context, Poll};

/// What is polled, and tells what its last poll has moved.
pub trait Turning: Drop {
    /// Why it does not go on.
    type Stop;

    /// What one poll may do: the state before it, its answer, the state after it.
    ghost polls: { Self → Polled Self.Stop → Self → Type 0 };

    /// Holds of each source that a pending poll waits for.
    ghost reader: { Self → ℕ → Type 0 } = { λ _ _. ⊥ };

    /// One poll.
    fn poll_turn(&mut self, cx: &mut Context<'_>) -> Poll<Self::Stop>
        ensures polls { polls self.old result self.new }
        ensures registered { OnPending result ((s : ℕ) → reader self.new s → Hears cx.new s) }
        ensures kept { Keeps cx.old cx.new };

    /// Whether the last poll moved something: what was refused or came to nothing is no move.
    fn has_moved(&self) -> bool;

    /// Whether the last poll took from the sender's lane, or handed the sender a report.
    fn has_served(&self, sender: usize) -> bool;

    /// In how many milliseconds from the last poll's moment something is due: None where nothing is, or was already.
    fn due_in(&self) -> Option<u64>;
}
