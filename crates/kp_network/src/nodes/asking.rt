//! Which connections are wanted, and of whom Metadata is asked.

ghost use Rattle.std.specs.Prelude.{◌≡◌, ◌<◌, ℕ, IfSome, None, false, length, true};
ghost use Rattle.kp_cluster.specs.Metadata.{heeded, may_ask};
ghost use Rattle.kp_network.specs.News.{Asks, Hears as HearsAnswer, all_wanted, has_work_in, heeding_replies};

use crate::nodes::Nodes;
use crate::question::{Question, Stage};
use kp_cluster::Cluster;
use kp_connection::Stream;
use kp_core::Core;
use kp_dial::Dial;
use kp_engine::Moves;
use kp_hello::{Chart, HandshakeFault};

impl<K: Drop, S: Stream, D: Dial<Dialing = K, Stream = S>> Nodes<D, K> {
    /// The time is this. Connections are wanted to the nodes for which there is work.
    pub(crate) fn heed(&mut self, core: &Core, now: u64)
        ensures cluster { self.new.cluster ≡ all_wanted (has_work_in core.now) (length (heeded now self.old.cluster).slots) (heeded now self.old.cluster) }
        ensures links { self.new.links.items ≡ self.old.links.items }
    {
        self.cluster.heed(now);
        want_all(&mut self.cluster, core);
    }

    /// Metadata is wanted where replies told of no record: a leader may have moved.
    pub(crate) fn heed_moves(&mut self, moves: &Moves)
        ensures cluster { self.new.cluster ≡ heeding_replies moves.now.unreported_replies self.old.cluster }
        ensures links { self.new.links.items ≡ self.old.links.items }
    {
        if moves.unreported_replies() > 0 {
            self.cluster.ask_again();
        }
    }

    /// A node of which Metadata may be asked.
    pub(crate) fn to_be_asked(&self, now: u64) -> Option<u32>
        ensures may { IfSome result (λ node. may_ask node now self.now.cluster ≡ true) }
        ensures none { result ≡ None → (n : ℕ) → n < length self.now.cluster.slots → may_ask n now self.now.cluster ≡ false }
    {
        (0..self.cluster.nodes() as u32).find(|node| self.cluster.may_ask(*node, now))
    }

    /// A question of this node for Metadata, where it can be begun. The cluster is told.
    pub(crate) fn ask(&mut self, node: u32, now: u64) -> Option<Question<K, S>>
        requires { may_ask node now self.old.cluster ≡ true }
        ensures asks { Asks node now self.old.cluster result self.new.cluster }
        ensures links { self.new.links.items ≡ self.old.links.items }
    {
        self.cluster.asked(node, now);
        match self.dial(node) {
            Some(dialing) => Some(Question {
                node,
                stage: Stage::Dialing(dialing),
            }),
            None => {
                self.cluster.refuse_chart();
                None
            }
        }
    }

    /// Hears what the node answered.
    pub(crate) fn hear(&mut self, node: u32, answer: &Result<Chart, HandshakeFault>, now: u64)
        ensures hears { HearsAnswer node now answer.now self.old.cluster self.new.cluster }
        ensures links { self.new.links.items ≡ self.old.links.items }
    {
        match answer {
            Ok(chart) => {
                self.cluster.answered(node);
                if self.cluster.learn(chart, now).is_err() {
                    self.cluster.refuse_chart();
                }
            }
            Err(HandshakeFault::Refused(_)) => {
                self.cluster.answered(node);
                self.cluster.refuse_chart();
            }
            Err(_) => self.cluster.refuse_chart(),
        }
    }
}

/// The connections to the nodes for which there is work are wanted.
fn want_all(cluster: &mut Cluster, core: &Core)
    ensures { cluster.new ≡ all_wanted (has_work_in core.now) (length cluster.old.slots) cluster.old }
{
    for node in 0..cluster.nodes() as u32 {
        if core.has_work(node) {
            cluster.want(node);
        }
    }
}
