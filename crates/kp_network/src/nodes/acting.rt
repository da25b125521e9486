//! Connections are begun and closed as the cluster tells.

ghost use Rattle.std.specs.Prelude.{◌≡◌, ℕ, false, true};
ghost use Rattle.futures.specs.Task.{Keeps};
ghost use Rattle.kp_cluster.specs.Backoff.{Loses};
ghost use Rattle.kp_network.specs.Links.{OnlyAt, link_at};
ghost use Rattle.kp_network.specs.News.{Acts, Begins, Closes, Obeys, ready_of};

use crate::link::Link;
use crate::links::{has, make_place};
use crate::nodes::Nodes;
use futures::task::{Context, Poll};
use kp_cluster::Action;
use kp_connection::Stream;
use kp_dial::Dial;

impl<K: Drop, S: Stream, D: Dial<Dialing = K, Stream = S>> Nodes<D, K> {
    /// Does what the cluster tells next: the node to which the engine is to have no connection any more.
    pub(crate) fn poll_action(&mut self, cx: &mut Context<'_>, now: u64) -> Poll<u32>
        ensures acts { Acts now self.old self.new (ready_of result) }
        ensures kept { Keeps cx.old cx.new }
    {
        let Some(action) = self.cluster.next_action(now) else {
            return Poll::Pending;
        };
        match self.obey(action, now) {
            Some(node) => Poll::Ready(node),
            None => cx.yield_now(),
        }
    }

    /// Does what was told: the node to which the engine is to have no connection any more.
    fn obey(&mut self, action: Action, now: u64) -> Option<u32>
        ensures { Obeys now self.old self.new action result }
    {
        match action {
            Action::Close(node) => self.close(node, now),
            Action::Connect(node) => {
                if self.connect(node) {
                    return None;
                }
                self.close(node, now)
            }
        }
    }

    /// Begins to connect to the node, where there is no connection to it: whether it has begun.
    fn connect(&mut self, node: u32) -> bool
        ensures begins { result ≡ true → Begins node self.old self.new }
        ensures cluster { self.new.cluster ≡ self.old.cluster }
        ensures same { result ≡ false → (k : ℕ) → link_at k self.new.links.items ≡ link_at k self.old.links.items }
    {
        if !make_place(&mut self.links, node) {
            return false;
        }
        match &self.links[node as usize] {
            Link::Dialing(_) | Link::Made => return false,
            Link::Away => {}
        }
        match self.dial(node) {
            None => false,
            Some(dialing) => {
                self.links[node as usize] = Link::Dialing(dialing);
                true
            }
        }
    }

    /// There is no connection to the node any more: the node, where the engine had one.
    fn close(&mut self, node: u32, now: u64) -> Option<u32>
        ensures { Closes now node self.old result self.new }
    {
        let had = has(&self.links, node);
        self.lose(node, now);
        if had { Some(node) } else { None }
    }

    /// There is no connection to the node any more.
    pub(crate) fn lose(&mut self, node: u32, now: u64)
        ensures lost { Loses node now self.old.cluster self.new.cluster }
        ensures away { link_at node self.new.links.items ≡ Link.Away }
        ensures others { OnlyAt node self.old.links.items self.new.links.items }
    {
        let place = node as usize;
        if place < self.links.len() {
            self.links[place] = Link::Away;
        }
        self.cluster.lost(node, now);
    }
}
