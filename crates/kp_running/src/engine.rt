//! The engine is run.

ghost use Rattle.std.specs.Prelude.{◌≡◌};
ghost use Rattle.kp_engine.specs.Clocked.{PollsOnce};
ghost use Rattle.kp_running.specs.Engines.{reader_of};
ghost use Rattle.kp_running.specs.Pace.{due_after};

use crate::turning::Turning;
use futures::task::{Context, Poll};
use kp_connection::Stream;
use kp_engine::{Clock, Engine, Stop};

impl<S: Stream, C: Clock> Turning for Engine<S, C> {
    type Stop = Stop;

    ghost polls = { PollsOnce S.answers C.moments };

    ghost reader = { reader_of S.reader };

    fn poll_turn(&mut self, cx: &mut Context<'_>) -> Poll<Stop> {
        Engine::poll_turn(self, cx)
    }

    fn has_moved(&self) -> bool {
        self.moves().any()
    }

    fn has_served(&self, sender: usize) -> bool {
        self.moves().serves(sender)
    }

    fn due_in(&self) -> Option<u64> {
        due_after(self.moves().now(), self.core().next_due())
    }
}

/// How long after now something is due, in milliseconds: None where nothing is, or was already.
pub(crate) fn due_after(now: u64, due: Option<u64>) -> Option<u64>
    ensures { result ≡ due_after now due }
{
    match due {
        Some(due) if now < due => Some(due - now),
        _ => None,
    }
}
