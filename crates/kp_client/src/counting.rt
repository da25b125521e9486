//! What keeps a service's connections, of which is counted how many it makes.

ghost use Rattle.std.specs.Prelude.{◌≡◌};

use crate::shared::Shared;
use futures::task::{Context, Poll};
use kp_core::Core;
use kp_engine::Moves;
use kp_running::{Keeping, News};

/// What keeps a service's connections, of which is counted how many it makes.
#[derive(Drop)]
pub(crate) struct Counting<'a, K> {
    keeping: K,
    shared: &'a Shared,
}

impl<'a, K: Keeping> Counting<'a, K> {
    pub(crate) fn new(keeping: K, shared: &'a Shared) -> Counting<'a, K>
        ensures { result.keeping ≡ keeping }
    {
        Counting { keeping, shared }
    }
}

impl<S, K: Keeping<Stream = S>> Keeping for Counting<'_, K> {
    type Stream = S;

    ghost waits = { λ counting. K.waits counting.keeping };

    ghost limit = { λ counting. K.limit counting.keeping };

    ghost made = { λ counting. K.made counting.keeping };

    ghost noted = { λ old moves new. K.noted old.keeping moves new.keeping };

    fn poll_news(&mut self, cx: &mut Context<'_>, core: &Core) -> Poll<News<S>> {
        let polled = self.keeping.poll_news(cx, core);
        if let Poll::Ready(News::Connected(_, _)) = &polled {
            self.shared.counts.connections.add(1);
        }
        polled
    }

    fn new_connections(&self) -> u32 {
        self.keeping.new_connections()
    }

    fn note_lost(&mut self, node: u32) {
        self.keeping.note_lost(node);
    }

    fn note_moves(&mut self, moves: &Moves) {
        self.keeping.note_moves(moves);
    }
}
