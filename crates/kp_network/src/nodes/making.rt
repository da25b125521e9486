//! Connections are made.

ghost use Rattle.std.specs.Prelude.{◌≡◌, ℕ};
ghost use Rattle.futures.specs.Poll.{OnPending};
ghost use Rattle.futures.specs.Task.{Hears, Keeps};
ghost use Rattle.kp_network.specs.Links.{waited_by_each};
ghost use Rattle.kp_network.specs.News.{Makes, ready_of};

use crate::link::Link;
use crate::links::poll_links;
use crate::nodes::Nodes;
use futures::task::{Context, Poll};
use kp_connection::Stream;
use kp_dial::Dial;

impl<K: Drop, S: Stream, D: Dial<Dialing = K, Stream = S>> Nodes<D, K> {
    /// Goes on with the connections that are being made: the first that is made is for the engine, and its node's failures are
    /// forgotten.
    pub(crate) fn poll_made(&mut self, cx: &mut Context<'_>, now: u64) -> Poll<(u32, S)>
        ensures makes { Makes now self.old self.new (ready_of result) }
        ensures registered { OnPending result ((s : ℕ) → waited_by_each D.waits self.new.links.items s → Hears cx.new s) }
        ensures kept { Keeps cx.old cx.new }
    {
        match poll_links(&mut self.links, &mut self.dial, cx) {
            Poll::Pending => Poll::Pending,
            Poll::Ready((place, made)) => {
                let node = place as u32;
                match made {
                    None => {
                        self.lose(node, now);
                        cx.yield_now()
                    }
                    Some(stream) => {
                        self.links[place] = Link::Made;
                        self.cluster.connected(node);
                        self.cluster.answered(node);
                        Poll::Ready((node, stream))
                    }
                }
            }
        }
    }
}
