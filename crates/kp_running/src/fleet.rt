//! An engine over several nodes that lasts through outages.

ghost use Rattle.std.specs.Prelude.{◌≡◌, ◌⊎◌, ℕ, IfErr, IfOk, Some, false};
ghost use Rattle.futures.specs.Poll.{OnPending};
ghost use Rattle.futures.specs.Task.{Hears, Keeps};
ghost use Rattle.futures.specs.declared.task.Poll.{Poll as Polled};
ghost use Rattle.kp_engine.specs.Cluster.{PollsCluster};
ghost use Rattle.kp_engine.specs.Lines.{node_lost};
ghost use Rattle.kp_running.specs.Fleet.{FleetPolls, Heeds, Loses, TakesNews, read_by_each, window_behind};
ghost use Rattle.kp_running.specs.Over.{IfGaveUp, IsSpent, over_of};
ghost use Rattle.kp_running.specs.declared.keeping.News.TheVariants.{Ended};

use crate::engine::due_after;
use crate::keeping::{Keeping, News};
use crate::over::Over;
use crate::turning::Turning;
use futures::task::{Context, Poll};
use kp_connection::Stream;
use kp_engine::{Cause, Clock, ClusterEngine, Stop};

/// An engine, and what keeps its connections. While there is none the engine takes items, closes, ticks and reports.
#[derive(Drop)]
pub struct Fleet<S, C, K> {
    pub engine: ClusterEngine<S, C>,
    pub keeping: K,
    /// Why the last connection was lost; Io where none was.
    why: Cause,
}

impl<S: Stream, C: Clock, K: Keeping<Stream = S>> Fleet<S, C, K> {
    pub fn new(engine: ClusterEngine<S, C>, keeping: K) -> Fleet<S, C, K>
        ensures { result ≡ record { engine = engine; keeping = keeping; why = Cause.Io } }
    {
        Fleet {
            engine,
            keeping,
            why: Cause::Io,
        }
    }

    /// What keeps its connections is told what the last poll has moved.
    fn note_moves(&mut self)
        ensures noted { K.noted self.old.keeping self.old.engine.exchange.notes.moves self.new.keeping }
        ensures same { K.limit self.new.keeping ≡ K.limit self.old.keeping }
        ensures engine { (self.new.engine ≡ self.old.engine) × (self.new.why ≡ self.old.why) }
    {
        self.keeping.note_moves(self.engine.moves());
    }

    /// Drops the connection to a node that was lost.
    fn drop_lost(&mut self, node: u32)
        requires { node_lost self.old.engine.lines.items ≡ Some node }
        ensures loses { Loses C.moments node self.old self.new }
        ensures same { K.limit self.new.keeping ≡ K.limit self.old.keeping }
    {
        if let Some(Stop::NeedStream(cause)) = self.engine.stopped(node) {
            self.why = cause;
        }
        self.keeping.note_lost(node);
        self.engine.disconnect(node);
    }

    /// Does what is new. A connection that follows one that has timed out begins with one request at a time. Where memory is refused
    /// for a connection, it is closed, and nothing else has changed.
    fn heed(&mut self, news: News<S>) -> Result<(), Over>
        ensures heeds { Heeds C.moments self.old.why news self.old.engine result self.new.engine }
        ensures keeping { (self.new.keeping ≡ self.old.keeping) × (self.new.why ≡ self.old.why) }
        ensures gave_up { IfErr result (λ over. IfGaveUp over (news ≡ Ended)) }
    {
        match news {
            News::Connected(node, stream) => {
                match self.engine.connect(node, stream, window_behind(self.why)) {
                    Ok(()) => Ok(()),
                    Err(_) => Err(Over::OutOfMemory),
                }
            }
            News::Led(partition, node) => {
                self.engine.lead(partition, node);
                Ok(())
            }
            News::Dropped(node) => {
                self.engine.disconnect(node);
                Ok(())
            }
            News::Ended => Err(Over::GaveUp(self.why)),
        }
    }

    /// Drops a connection that was lost; where there is none, does one thing that is new, if there is one: whether there was
    /// either; or why the engine does not go on.
    fn poll_news(&mut self, cx: &mut Context<'_>) -> Result<bool, Over>
        ensures news { TakesNews C.moments self.old result self.new }
        ensures same { K.limit self.new.keeping ≡ K.limit self.old.keeping }
        ensures spent { IfErr result (λ over. IfGaveUp over (IsSpent (K.limit self.new.keeping) (K.made self.new.keeping))) }
        ensures registered { IfOk result (λ again. again ≡ false → (s : ℕ) → K.waits self.new.keeping s → Hears cx.new s) }
        ensures kept { Keeps cx.old cx.new }
    {
        if let Some(node) = self.engine.lost() {
            self.drop_lost(node);
            return Ok(true);
        }
        match self.keeping.poll_news(cx, self.engine.core()) {
            Poll::Pending => Ok(false),
            Poll::Ready(news) => match self.heed(news) {
                Ok(()) => Ok(true),
                Err(over) => Err(over),
            },
        }
    }

    /// A poll of the engine. Where it is pending and something was new, it asks to be polled again.
    fn poll_engine(&mut self, cx: &mut Context<'_>, again: bool) -> Poll<Over>
        ensures polls { (polled : Polled Stop) × PollsCluster S.answers C.moments self.old.engine polled self.new.engine × (result ≡ over_of polled) }
        ensures keeping { (self.new.keeping ≡ self.old.keeping) × (self.new.why ≡ self.old.why) }
        ensures again { OnPending result ((again ≡ false) ⊎ ((s : ℕ) → Hears cx.new s)) }
        ensures registered { OnPending result ((s : ℕ) → read_by_each S.reader self.new.engine.lines.items s → Hears cx.new s) }
        ensures kept { Keeps cx.old cx.new }
    {
        match self.engine.poll_turns(cx) {
            Poll::Ready(Stop::Done) => Poll::Ready(Over::Done),
            Poll::Ready(Stop::OutOfMemory) => Poll::Ready(Over::OutOfMemory),
            Poll::Ready(Stop::NeedStream(_)) => cx.yield_now(),
            Poll::Pending => {
                if again {
                    return cx.yield_now();
                }
                Poll::Pending
            }
        }
    }
}

impl<S: Stream, C: Clock, K: Keeping<Stream = S>> Turning for Fleet<S, C, K> {
    type Stop = Over;

    ghost polls = { FleetPolls S.answers C.moments K.limit K.made };

    ghost reader = { λ fleet s. K.waits fleet.keeping s ⊎ read_by_each S.reader fleet.engine.lines.items s };

    fn poll_turn(&mut self, cx: &mut Context<'_>) -> Poll<Over> {
        if self.engine.core().can_only_end() {
            return Poll::Ready(Over::Spent);
        }
        self.note_moves();
        match self.poll_news(cx) {
            Err(over) => Poll::Ready(over),
            Ok(again) => self.poll_engine(cx, again),
        }
    }

    fn has_moved(&self) -> bool {
        self.engine.moves().any()
    }

    fn has_served(&self, sender: usize) -> bool {
        self.engine.moves().serves(sender)
    }

    fn due_in(&self) -> Option<u64> {
        due_after(self.engine.moves().now(), self.engine.core().next_due())
    }
}

/// How many requests a connection begins with at a time, where the last one was lost for this.
fn window_behind(why: Cause) -> Option<u64>
    ensures { result ≡ window_behind why }
{
    match why {
        Cause::TimedOut => Some(1),
        Cause::Io | Cause::BadReply(_) => None,
    }
}
