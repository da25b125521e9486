//! What makes an engine's connections.

ghost use Rattle.std.specs.Prelude.{◌≡◌, ℕ, Option, None};
ghost use Rattle.futures.specs.Poll.{OnPending};
ghost use Rattle.futures.specs.Task.{Hears, Keeps};
ghost use Rattle.kp_engine.specs.declared.moves.Moves.{Moves as Moved};
ghost use Rattle.kp_running.specs.Over.{IfEnded, IsSpent};

use futures::task::{Context, Poll};
use kp_core::Core;
use kp_engine::Moves;

/// What is new of an engine's nodes.
#[derive(Drop)]
pub enum News<S> {
    /// A connection to this node is open.
    Connected(u32, S),
    /// This partition is led by this node.
    Led(u32, u32),
    /// The connection to this node is to be closed.
    Dropped(u32),
    /// There is to be no connection any more.
    Ended,
}

/// What makes an engine's connections, each to a node, and knows which node leads which partition.
pub trait Keeping: Drop {
    type Stream;

    /// Holds of each source that a pending poll waits for.
    ghost waits: { Self → ℕ → Type 0 } = { λ _ _. ⊥ };

    /// How many connections it may make anew, where there is a limit.
    ghost limit: { Self → Option ℕ } = { λ _. None };

    /// How many it has made anew.
    ghost made: { Self → ℕ } = { λ _. 0 };

    /// The first was told of these moves, and is the second now.
    ghost noted: { Self → Moved → Self → Type 0 } = { λ _ _ _. Unit {0} };

    /// What is new, one thing at a time: pending where nothing is.
    fn poll_news(&mut self, cx: &mut Context<'_>, core: &Core) -> Poll<News<Self::Stream>>
        ensures registered { OnPending result ((s : ℕ) → waits self.new s → Hears cx.new s) }
        ensures same { limit self.new ≡ limit self.old }
        ensures spent { IfEnded result (IsSpent (limit self.new) (made self.new)) }
        ensures kept { Keeps cx.old cx.new };

    /// How many connections it has made anew.
    fn new_connections(&self) -> u32
        ensures { result ≡ made self.now };

    /// The connection to this node was given up.
    fn note_lost(&mut self, node: u32)
        ensures same { limit self.new ≡ limit self.old };

    /// This was moved by the last poll.
    fn note_moves(&mut self, moves: &Moves)
        ensures same { limit self.new ≡ limit self.old }
        ensures noted { noted self.old moves.now self.new };
}
