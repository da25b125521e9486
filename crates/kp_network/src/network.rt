//! A producer's connections to the nodes of a cluster.

ghost use Rattle.std.specs.Prelude.{◌≡◌, ◌≤◌, ◌+◌, ℕ, [], None, false, is_some};
ghost use Rattle.std.specs.Option.{option_map, option_map_or};
ghost use Rattle.futures.specs.Poll.{OnPending};
ghost use Rattle.futures.specs.Task.{Hears, Keeps};
ghost use Rattle.kp_cluster.specs.Backoff.{Loses};
ghost use Rattle.kp_network.specs.Links.{OnlyAt, has, waited_by_each};
ghost use Rattle.kp_network.specs.Asking.{waited_by_question};
ghost use Rattle.kp_network.specs.News.{ActsIf, GoesOn, Hears as HearsAnswer, IsToldNext, Makes, Renews, Tells, made_after, ready_of, told_after, while_open};
ghost use Rattle.kp_running.specs.Over.{IfEnded};

use crate::nodes::Nodes;
use crate::question::Question;
use futures::task::{Context, Poll};
use kp_cluster::Cluster;
use kp_connection::Stream;
use kp_core::Core;
use kp_dial::Dial;
use kp_engine::Moves;
use kp_hello::{Chart, HandshakeFault, PARTITION_LIMIT};
use kp_rules::Names;
use kp_running::{Keeping, News, Passed};
use std::alloc::Global;
use std::time::{Clock, Instant};

/// The node of a partition without a leader. There is no connection to it.
const NOBODY: u32 = u32::MAX;

/// Makes and keeps a producer's connections to the nodes of a cluster.
///
/// A connection is made only while something is not told, or no chart is known. What can't be made, or is lost, is tried again, for
/// ever. Metadata is asked for over a connection of its own, which is made for it and dropped behind the answer, or once the engine's
/// connection to that node is lost or given up; it is asked for again where a reply tells of no record, since a leader may have moved
/// then. A node's failures are forgotten once the engine has a connection to it, and once it has answered Metadata.
#[derive(Drop)]
pub struct Network<'r, R, D, K, S> {
    alloc: Global,
    rt: &'r R,
    clock: Passed,
    names: Names,
    nodes: Nodes<D, K>,
    question: Option<Question<K, S>>,
    /// Of so many partitions, from the first on, the engine was told who leads them by the last chart, or that nobody does.
    told: u32,
    /// How many connections the engine was given.
    made: u32,
}

impl<'r, R: Clock, K: Drop, S: Stream, D: Dial<Dialing = K, Stream = S>> Network<'r, R, D, K, S> {
    ghost use Rattle.kp_network.specs.Network.{cluster_of, links_of, made_of, may_connect, moment_of, next_led, told_of};

    /// Makes the connections of this cluster, of which none is open or being opened. Who leads by a chart that it knows is told
    /// first. Its moments are milliseconds since `start`.
    pub fn new(
        alloc: Global,
        rt: &'r R,
        dial: D,
        names: Names,
        cluster: Cluster,
        start: Instant,
    ) -> Network<'r, R, D, K, S>
        ensures cluster { cluster_of result ≡ cluster }
        ensures links { links_of result ≡ [] }
        ensures moment { moment_of result ≡ 0 }
        ensures told { told_of result ≡ 0 }
        ensures made { made_of result ≡ 0 }
    {
        Network {
            alloc,
            rt,
            clock: Passed::since(start),
            names,
            nodes: Nodes::new(alloc, dial, cluster),
            question: None,
            told: 0,
            made: 0,
        }
    }

    /// Of so many partitions the next of which the engine was not told who leads it, and that node.
    fn next_led(&mut self, count: usize) -> Option<(u32, u32)>
        ensures led { result ≡ next_led count self.old.told self.old.nodes.cluster }
        ensures told { self.new.told ≡ option_map_or (λ led. led.0 + 1) result self.old.told }
        ensures only { self.new ≡ record self.old { told = self.new.told } }
    {
        let partition = self.told;
        if partition as usize >= count.min(PARTITION_LIMIT) {
            return None;
        }
        self.told = partition + 1;
        let leader = self.nodes.cluster.leader(partition);
        Some((partition, leader.unwrap_or(NOBODY)))
    }

    /// Does what the cluster tells next, where a connection may be made: something is not told, or no chart is known.
    fn poll_action(&mut self, cx: &mut Context<'_>, core: &Core, now: u64) -> Poll<u32>
        ensures acts { ActsIf (may_connect core.now self.old.nodes.cluster) now self.old.nodes self.new.nodes (ready_of result) }
        ensures question { self.new.question ≡ self.old.question }
        ensures told { self.new.told ≡ self.old.told }
        ensures made { self.new.made ≡ self.old.made }
        ensures clock { self.new.clock ≡ self.old.clock }
        ensures kept { Keeps cx.old cx.new }
    {
        if core.untold() == 0 && self.nodes.cluster.partitions() > 0 {
            return Poll::Pending;
        }
        self.nodes.poll_action(cx, now)
    }

    /// Goes on with the connections that are being made: the first that is made is for the engine, and is counted.
    fn poll_made(&mut self, cx: &mut Context<'_>, now: u64) -> Poll<(u32, S)>
        ensures makes { Makes now self.old.nodes self.new.nodes (ready_of result) }
        ensures registered { OnPending result ((s : ℕ) → waited_by_each D.waits self.new.nodes.links.items s → Hears cx.new s) }
        ensures question { self.new.question ≡ self.old.question }
        ensures told { self.new.told ≡ self.old.told }
        ensures made { self.new.made ≡ made_after (option_map (λ it. News.Connected it.0 it.1) (ready_of result)) self.old.made }
        ensures clock { self.new.clock ≡ self.old.clock }
        ensures kept { Keeps cx.old cx.new }
    {
        let Poll::Ready(connected) = self.nodes.poll_made(cx, now) else {
            return Poll::Pending;
        };
        self.made = self.made.saturating_add(1);
        Poll::Ready(connected)
    }

    /// Where Metadata may be asked for, that is the question; an answer to the one before is not awaited any more.
    fn renew_question(&mut self, now: u64)
        ensures renews { Renews now self.old.nodes.cluster self.new.nodes.cluster self.old.question self.new.question }
        ensures links { self.new.nodes.links.items ≡ self.old.nodes.links.items }
        ensures told { self.new.told ≡ self.old.told }
        ensures made { self.new.made ≡ self.old.made }
        ensures clock { self.new.clock ≡ self.old.clock }
    {
        let Some(node) = self.nodes.to_be_asked(now) else {
            return;
        };
        self.question = self.nodes.ask(node, now);
    }

    /// Goes on with the question for Metadata, where there is one. It is dropped once the connection to its node is not open any more.
    fn poll_question(&mut self, cx: &mut Context<'_>, now: u64) -> Poll<News<S>>
        ensures pending { result ≡ Poll.Pending }
        ensures goes_on { GoesOn now self.old.nodes.cluster self.new.nodes.cluster self.old.told self.new.told self.old.question self.new.question }
        ensures links { self.new.nodes.links.items ≡ self.old.nodes.links.items }
        ensures registered { (s : ℕ) → waited_by_question D.waits S.reader S.writer self.new.question s → Hears cx.new s }
        ensures made { self.new.made ≡ self.old.made }
        ensures clock { self.new.clock ≡ self.old.clock }
        ensures kept { Keeps cx.old cx.new }
    {
        self.leave_question();
        let Some(question) = &mut self.question else {
            return Poll::Pending;
        };
        let node = question.node;
        match question.poll_answer(self.alloc, &self.names, &mut self.nodes.dial, cx) {
            Poll::Pending => Poll::Pending,
            Poll::Ready(answer) => {
                self.hear(node, &answer, now);
                cx.yield_now()
            }
        }
    }

    /// Whether there is a question, and the connection to its node is open.
    fn is_asking(&self) -> bool
        ensures { result ≡ is_some (while_open self.now.nodes.cluster self.now.question) }
    {
        match &self.question {
            Some(question) => self.nodes.cluster.is_open(question.node),
            None => false,
        }
    }

    /// The question is dropped once the connection to its node is not open any more.
    fn leave_question(&mut self)
        ensures question { self.new.question ≡ while_open self.old.nodes.cluster self.old.question }
        ensures only { self.new ≡ record self.old { question = self.new.question } }
    {
        if !self.is_asking() {
            self.question = None;
        }
    }

    /// Hears what the node of the question answered. Behind a chart nothing is told yet of who leads.
    fn hear(&mut self, node: u32, answer: &Result<Chart, HandshakeFault>, now: u64)
        ensures hears { HearsAnswer node now answer.now self.old.nodes.cluster self.new.nodes.cluster }
        ensures links { self.new.nodes.links.items ≡ self.old.nodes.links.items }
        ensures question { self.new.question ≡ None }
        ensures told { self.new.told ≡ told_after answer.now self.old.told }
        ensures made { self.new.made ≡ self.old.made }
        ensures clock { self.new.clock ≡ self.old.clock }
    {
        self.nodes.hear(node, answer, now);
        self.question = None;
        if answer.is_ok() {
            self.told = 0;
        }
    }
}

impl<R: Clock, K: Drop, S: Stream, D: Dial<Dialing = K, Stream = S>> Keeping
    for Network<'_, R, D, K, S> {
    type Stream = S;

    ghost use Rattle.kp_network.specs.Network.{Notes, cluster_of, links_of, made_of, moment_of, nodes_of, told_of, waits_of};

    ghost waits = { waits_of D.waits S.reader S.writer };

    ghost made = { made_of };

    ghost noted = { λ old moves new. Notes moves.unreported_replies old new };

    fn poll_news(&mut self, cx: &mut Context<'_>, core: &Core) -> Poll<News<S>>
        ensures tells { Tells (moment_of self.new) (nodes_of self.old) (ready_of result) (nodes_of self.new) }
        ensures told { IsToldNext (ready_of result) (told_of self.old) (told_of self.new) }
        ensures moment { moment_of self.old ≤ moment_of self.new }
        ensures registered { OnPending result ((s : ℕ) → waits_of D.waits S.reader S.writer self.new s → Hears cx.new s) }
        ensures spent { IfEnded result ⊥ }
        ensures made { made_of self.new ≡ made_after (ready_of result) (made_of self.old) }
        ensures kept { Keeps cx.old cx.new }
    {
        let now = self.clock.read(self.rt);
        self.nodes.heed(core, now);
        if let Some((partition, node)) = self.next_led(core.partitions()) {
            return Poll::Ready(News::Led(partition, node));
        }
        if let Poll::Ready(node) = self.poll_action(cx, core, now) {
            return Poll::Ready(News::Dropped(node));
        }
        if let Poll::Ready((node, stream)) = self.poll_made(cx, now) {
            return Poll::Ready(News::Connected(node, stream));
        }
        self.renew_question(now);
        self.poll_question(cx, now)
    }

    fn new_connections(&self) -> u32 {
        self.made
    }

    fn note_lost(&mut self, node: u32)
        ensures lost { Loses node (moment_of self.new) (cluster_of self.old) (cluster_of self.new) }
        ensures away { has node (links_of self.new) ≡ false }
        ensures others { OnlyAt node (links_of self.old) (links_of self.new) }
    {
        let now = self.clock.read(self.rt);
        self.nodes.lose(node, now);
    }

    fn note_moves(&mut self, moves: &Moves) {
        self.nodes.heed_moves(moves);
    }
}
