//! An engine of which is counted what it does.

ghost use Rattle.std.specs.Prelude.{◌≡◌, ◌⊎◌};
ghost use Rattle.kp_engine.specs.declared.stop.Cause.TheVariants.{Io};
ghost use Rattle.kp_running.specs.Fleet.{FleetPolls, read_by_each};

use crate::shared::Shared;
use futures::task::{Context, Poll};
use kp_connection::Stream;
use kp_engine::{Clock, ClusterEngine};
use kp_running::{Fleet, Keeping, Over, Turning};

/// An engine that lasts through outages, of which is counted what it does.
#[derive(Drop)]
pub(crate) struct Tended<'a, S, C, K> {
    pub(crate) fleet: Fleet<S, C, K>,
    shared: &'a Shared,
    /// The moment at which batches were last counted, in milliseconds.
    counted_at: u64,
}

impl<'a, S: Stream, C: Clock, K: Keeping<Stream = S>> Tended<'a, S, C, K> {
    pub(crate) fn new(
        engine: ClusterEngine<S, C>,
        keeping: K,
        shared: &'a Shared,
    ) -> Tended<'a, S, C, K>
        ensures { result.fleet ≡ record { engine = engine; keeping = keeping; why = Io } }
    {
        Tended {
            fleet: Fleet::new(engine, keeping),
            shared,
            counted_at: 0,
        }
    }

    pub(crate) fn into_engine(self) -> ClusterEngine<S, C>
        ensures { result ≡ self.entry.fleet.engine }
    {
        let Tended { fleet, .. } = self;
        fleet.engine
    }

    /// Counts the batches that went out. It looks at each partition.
    pub(crate) fn count_batches(&self) {
        let core = self.fleet.engine.core();
        self.shared.counts.batches.set(core.batches_handed_over());
        self.shared.counts.attempts.set(core.attempts_sent());
    }

    /// Counts what the last turn has done.
    fn count(&mut self)
        ensures { self.new.fleet ≡ self.old.fleet }
    {
        let moves = self.fleet.engine.moves();
        let counts = &self.shared.counts;
        counts.requests.add(moves.requests());
        counts.replies.add(moves.replies());
        counts.bytes_given.add(moves.bytes_given());
        counts.bytes_heard.add(moves.bytes_heard());
        if moves.now() != self.counted_at {
            self.counted_at = moves.now();
            self.count_batches();
        }
    }
}

impl<S: Stream, C: Clock, K: Keeping<Stream = S>> Turning for Tended<'_, S, C, K> {
    type Stop = Over;

    ghost polls = { λ old polled new. FleetPolls S.answers C.moments K.limit K.made old.fleet polled new.fleet };

    ghost reader = { λ tended s. K.waits tended.fleet.keeping s ⊎ read_by_each S.reader tended.fleet.engine.lines.items s };

    fn poll_turn(&mut self, cx: &mut Context<'_>) -> Poll<Over> {
        let polled = self.fleet.poll_turn(cx);
        // A poll that gives up makes no turn, nor does one for whose connection there is no memory.
        if !matches!(
            polled,
            Poll::Ready(Over::GaveUp(_) | Over::Spent | Over::OutOfMemory)
        ) {
            self.count();
        }
        polled
    }

    fn has_moved(&self) -> bool {
        self.fleet.has_moved()
    }

    fn has_served(&self, sender: usize) -> bool {
        self.fleet.has_served(sender)
    }

    fn due_in(&self) -> Option<u64> {
        self.fleet.due_in()
    }
}
