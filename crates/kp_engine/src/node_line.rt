//! A connection to a node.

ghost use Rattle.std.specs.Prelude.{◌≡◌, true, OnOk};
ghost use Rattle.futures.specs.Task.{Covers, Keeps};
ghost use Rattle.kp_engine.specs.Engine.{IfOpen, is_sound, stop_in};

use crate::engine::Line;
use crate::exchange::Exchange;
use crate::stop::Stop;
use crate::turn::round::round;
use crate::window::{is_full, may_widen, most_requests, wider};
use futures::task::Context;
use kp_connection::{Stream, Wire};
use std::alloc::{AllocError, Global};

/// The connection to a node.
#[derive(Drop)]
pub(crate) struct NodeLine<S> {
    node: u32,
    line: Line<S>,
    /// How many replies in a row, the last ones, named no request in flight.
    strays: u32,
    /// How many requests may be in flight at a time, where fewer may than the core allows.
    window: Option<u64>,
    ghost sound: { is_sound line ≡ true },
}

impl<S: Stream> NodeLine<S> {
    ghost use Rattle.kp_engine.specs.Lines.{IsFresh, LineRound, goes_to, is_given_up, is_lost};
    ghost use Rattle.kp_engine.specs.Window.{widened};

    /// A connection to this node, over which nothing was written or read, with so many requests in flight at a time.
    pub(crate) fn new(alloc: Global, node: u32, stream: S, window: Option<u64>) -> NodeLine<S>
        ensures { IsFresh node stream window result }
    {
        NodeLine {
            node,
            line: Line::Open(Wire::new(alloc, stream)),
            strays: 0,
            window,
        }
    }

    /// Whether it goes to this node.
    pub(crate) fn goes_to(&self, node: u32) -> bool
        ensures { result ≡ goes_to node self.now }
    {
        self.node == node
    }

    /// The node that it goes to.
    pub(crate) fn node(&self) -> u32
        ensures { result ≡ self.now.node }
    {
        self.node
    }

    /// Whether it was given up.
    pub(crate) fn is_lost(&self) -> bool
        ensures { result ≡ is_lost self.now }
    {
        self.stopped().is_some()
    }

    /// Whether it went to this node and was given up.
    pub(crate) fn is_given_up(&self, node: u32) -> bool
        ensures { result ≡ is_given_up node self.now }
    {
        self.goes_to(node) && self.is_lost()
    }

    /// What it was given up for, if it was.
    pub(crate) fn stopped(&self) -> Option<Stop>
        ensures { result ≡ stop_in self.now.line }
    {
        match &self.line {
            Line::Stopped(stop) => Some(*stop),
            Line::Open(_) => None,
        }
    }

    /// Its round in a poll at this moment, unless it was given up: then there is none. Its window is widened by an answer to one of as
    /// many requests as it has room for, of which none has waited for half of `request.timeout.ms`.
    pub(crate) fn poll_round(
        &mut self,
        exchange: &mut Exchange,
        cx: &mut Context<'_>,
        now: u64,
    ) -> Result<(), AllocError>
        ensures round { LineRound S.answers now self.old exchange.old result exchange.new self.new }
        ensures registered { OnOk result (IfOpen self.new.line (λ wire. Covers cx.new (S.reader wire.stream))) }
        ensures kept { Keeps cx.old cx.new }
    {
        let wire = match &mut self.line {
            Line::Stopped(_) => return Ok(()),
            Line::Open(wire) => wire,
        };
        exchange.hear_behind(self.strays);
        let most = most_requests(&exchange.core, self.node, self.window);
        let widens = may_widen(&exchange.core, self.node, now, self.window);
        match round(exchange, wire, cx, most, self.node, now) {
            Ok(None) => {
                self.note_replies(exchange, widens);
                Ok(())
            }
            Ok(Some(cause)) => {
                give_up(&mut self.line, Stop::NeedStream(cause));
                Ok(())
            }
            Err(refused) => {
                give_up(&mut self.line, Stop::OutOfMemory);
                Err(refused)
            }
        }
    }

    /// What a round's replies leave of it: how many in a row named no request in flight, and its window, which an answer has widened
    /// where it may, and fewer requests are in flight now than may.
    fn note_replies(&mut self, exchange: &Exchange, widens: bool)
        ensures strays { self.new.strays ≡ exchange.now.notes.strays }
        ensures window { self.new.window ≡ widened widens self.old.node exchange.now.core self.old.window }
        ensures node { self.new.node ≡ self.old.node }
        ensures line { self.new.line ≡ self.old.line }
    {
        self.strays = exchange.notes.strays;
        if widens && !is_full(&exchange.core, self.node, self.window) {
            self.window = wider(&exchange.core, self.window);
        }
    }
}

/// The connection is given up, for this.
fn give_up<S: Stream>(line: &mut Line<S>, stop: Stop)
    ensures { line.new ≡ Line.Stopped stop }
{
    *line = Line::Stopped(stop);
}
