//! The engine over several connections.

ghost use Rattle.std.specs.Prelude.{◌≡◌, [], None, false, IfOk, IfErr, OnErr, OnOk};
ghost use Rattle.std.specs.List.{AllByRecursion};
ghost use Rattle.futures.specs.Poll.{OnPending};
ghost use Rattle.futures.specs.Task.{Covers, Keeps};
ghost use Rattle.kp_rules.specs.Calls.{End, Step};
ghost use Rattle.kp_engine.specs.Cluster.{DropsNow, LeadsNow, PollsCluster};
ghost use Rattle.kp_engine.specs.Engine.{IfOpen, IsNew};
ghost use Rattle.kp_engine.specs.Exchange.{OnlyCore};
ghost use Rattle.kp_engine.specs.Lines.{Connects, node_lost, stop_at};
ghost use Rattle.kp_engine.specs.Opening.{MayTurn};
ghost use Rattle.kp_engine.specs.Parts.{ArePartsOf};

use crate::clock::Clock;
use crate::exchange::Exchange;
use crate::lines::{first_lost, given_up, poll_rounds};
use crate::moves::Moves;
use crate::node_line::NodeLine;
use crate::parts::Parts;
use crate::stop::{Cause, Stop};
use crate::turn::away::turn_away;
use futures::task::{Context, Poll};
use kp_connection::Stream;
use kp_core::Core;
use kp_lanes::Intake;
use std::alloc::Global;

/// The node for which what no connection is looked at for is done. None goes there.
const NOBODY: u32 = u32::MAX;

/// A core, the lanes that it serves, and connections, each to a node. Each poll serves the lanes, and then has a round for each
/// connection.
#[derive(Drop)]
pub struct ClusterEngine<S, C> {
    alloc: Global,
    exchange: Exchange,
    clock: C,
    lines: Vec<NodeLine<S>>,
    /// What it has stopped for.
    over: Option<Stop>,
}

impl<S: Stream, C: Clock> ClusterEngine<S, C> {
    /// An engine over a fresh core and fresh lanes, that is connected to no node yet. Where memory is refused, the values
    /// come back.
    pub fn new(
        alloc: Global,
        core: Core,
        intake: Intake,
        clock: C,
    ) -> Result<ClusterEngine<S, C>, (Core, Intake, C)>
        requires { MayTurn core intake }
        ensures made { IfOk result (λ e. IsNew core intake false e.exchange) }
        ensures lines { IfOk result (λ e. (e.lines.items ≡ []) × (e.over ≡ None)) }
        ensures clock { IfOk result (λ e. e.clock ≡ clock) }
        ensures back { IfErr result (λ given. given ≡ (core, intake, clock)) }
    {
        match Exchange::new(alloc, core, intake, false) {
            Ok(exchange) => Ok(ClusterEngine {
                alloc,
                exchange,
                clock,
                lines: Vec::new(alloc),
                over: None,
            }),
            Err((core, intake)) => Err((core, intake, clock)),
        }
    }

    /// Goes on over this stream to the node: also in place of a connection to it that was given up. With a window so many requests are
    /// in flight over it at a time, until answers widen it; without one as many as the core allows. Where memory is refused the stream
    /// comes back, and nothing has changed.
    pub fn connect(&mut self, node: u32, stream: S, window: Option<u64>) -> Result<(), S>
        ensures lines { OnOk result (Connects node stream window self.old.lines.items self.new.lines.items) }
        ensures same { (self.new.exchange ≡ self.old.exchange) × (self.new.clock ≡ self.old.clock) × (self.new.over ≡ self.old.over) }
        ensures back { IfErr result (λ given. given ≡ stream) }
        ensures unchanged { OnErr result (self.new.lines.items ≡ self.old.lines.items) }
    {
        if self.lines.reserve(1).is_err() {
            return Err(stream);
        }
        self.lines.retain(|line| !line.is_given_up(node));
        self.lines
            .push_reserved(NodeLine::new(self.alloc, node, stream, window));
        Ok(())
    }

    /// This node leads the partition from now on: its batches go there. Where there is no such partition nothing changes.
    pub fn lead(&mut self, partition: u32, node: u32)
        ensures { LeadsNow C.moments partition node self.old self.new }
    {
        let now = self.clock.now();
        self.exchange.lead(partition, node, now);
    }

    /// The connections to this node are given up, and what was in flight there is sent again.
    pub fn disconnect(&mut self, node: u32)
        ensures { DropsNow C.moments node self.old self.new }
    {
        let now = self.clock.now();
        self.lines.retain(|line| !line.goes_to(node));
        self.exchange.lose(node, now);
    }

    /// Items, and the close; the tick; reports; and then the rounds of the connections that were not given up, in the order in
    /// which they were made. What they hear is told by the next poll. Ready where nothing is left to do, or memory was refused, and
    /// from then on; behind a pending one `stopped` tells which nodes need a stream.
    pub fn poll_turns(&mut self, cx: &mut Context<'_>) -> Poll<Stop>
        ensures polls { PollsCluster S.answers C.moments self.old result self.new }
        ensures registered { OnPending result (AllByRecursion (λ l. IfOpen l.line (λ wire. Covers cx.new (S.reader wire.stream))) self.new.lines.items) }
        ensures kept { Keeps cx.old cx.new }
    {
        match self.over {
            Some(stop) => return Poll::Ready(stop),
            None => {}
        }
        self.exchange.clear();
        let now = self.clock.now();
        match turn_away(&mut self.exchange, Cause::Io, NOBODY, now) {
            Stop::Done => self.stop(Stop::Done),
            Stop::OutOfMemory => self.stop(Stop::OutOfMemory),
            Stop::NeedStream(_) => match poll_rounds(&mut self.exchange, &mut self.lines, cx, now) {
                Ok(()) => Poll::Pending,
                Err(_) => self.stop(Stop::OutOfMemory),
            },
        }
    }

    /// It is over.
    fn stop(&mut self, stop: Stop) -> Poll<Stop>
        ensures ready { result ≡ Poll.Ready stop }
        ensures over { self.new ≡ record self.old { over = Some stop } }
    {
        self.over = Some(stop);
        Poll::Ready(stop)
    }

    /// A node to which a connection was given up, and which was given no stream since.
    pub fn lost(&self) -> Option<u32>
        ensures { result ≡ node_lost self.now.lines.items }
    {
        match first_lost(&self.lines) {
            Some(line) => Some(line.node()),
            None => None,
        }
    }

    /// What a connection to this node was given up for, where one was and no stream was given since.
    pub fn stopped(&self, node: u32) -> Option<Stop>
        ensures { result ≡ stop_at node self.now.lines.items }
    {
        given_up(&self.lines, node)?.stopped()
    }

    /// What the last poll has moved.
    pub fn moves(&self) -> &Moves
        ensures { result.now ≡ self.now.exchange.notes.moves }
    {
        &self.exchange.notes.moves
    }

    /// The core.
    pub fn core(&self) -> &Core
        ensures { result.now ≡ self.now.exchange.core }
    {
        &self.exchange.core
    }

    /// Gives up all that is left: how many items were told of.
    pub fn end(&mut self) -> usize
        ensures step { Step self.old.exchange.core (End result) self.new.exchange.core }
        ensures only { OnlyCore self.old.exchange self.new.exchange × (self.new.exchange.notes ≡ self.old.exchange.notes) }
        ensures same { (self.new.lines.items ≡ self.old.lines.items) × (self.new.clock ≡ self.old.clock) × (self.new.over ≡ self.old.over) }
    {
        self.exchange.end()
    }

    /// The core, the lanes' end and what is held between them.
    pub fn into_parts(self) -> Parts
        ensures { ArePartsOf self.exchange result }
    {
        let ClusterEngine { exchange, .. } = self;
        exchange.into_parts()
    }
}
