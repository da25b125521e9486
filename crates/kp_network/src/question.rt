//! The question for Metadata, over a connection of its own.

ghost use Rattle.std.specs.Prelude.{◌≡◌, ℕ, IfOk};
ghost use Rattle.futures.specs.Poll.{IfReady, OnPending};
ghost use Rattle.futures.specs.Task.{Hears, Keeps};
ghost use Rattle.kp_network.specs.Asking.{Learns, waited_by_stage};

use crate::asking::{ask, poll_chart};
use futures::task::{Context, Poll};
use kp_connection::{Stream, Wire};
use kp_dial::Dial;
use kp_hello::{Chart, HandshakeFault};
use kp_rules::Names;
use std::alloc::Global;

/// A question for Metadata.
#[derive(Drop)]
pub(crate) struct Question<K, S> {
    pub(crate) node: u32,
    pub(crate) stage: Stage<K, S>,
}

/// How far a question has come.
#[derive(Drop)]
pub(crate) enum Stage<K, S> {
    /// Its connection is being made.
    Dialing(K),
    /// It goes out, and its answer is awaited.
    Asking(Wire<S>),
}

impl<K: Drop, S: Stream> Question<K, S> {
    /// What is to be heard of its node, once it has answered or failed: the chart, or why there is none.
    pub(crate) fn poll_answer<D: Dial<Dialing = K, Stream = S>>(
        &mut self,
        alloc: Global,
        names: &Names,
        dial: &mut D,
        cx: &mut Context<'_>,
    ) -> Poll<Result<Chart, HandshakeFault>>
        ensures learns { IfReady result (λ answer. IfOk answer (λ chart. Learns S.answers names.now.topic self.old.stage chart self.new.stage)) }
        ensures registered { OnPending result ((s : ℕ) → waited_by_stage D.waits S.reader S.writer self.new.stage s → Hears cx.new s) }
        ensures node { self.new.node ≡ self.old.node }
        ensures kept { Keeps cx.old cx.new }
    {
        match self.poll_chart(alloc, names, dial, cx) {
            Ok(Poll::Pending) => Poll::Pending,
            Ok(Poll::Ready(chart)) => Poll::Ready(Ok(chart)),
            Err(fault) => Poll::Ready(Err(fault)),
        }
    }

    /// The chart that the node answers, or why there is none.
    fn poll_chart<D: Dial<Dialing = K, Stream = S>>(
        &mut self,
        alloc: Global,
        names: &Names,
        dial: &mut D,
        cx: &mut Context<'_>,
    ) -> Result<Poll<Chart>, HandshakeFault>
        ensures learns { IfOk result (λ polled. IfReady polled (λ chart. Learns S.answers names.now.topic self.old.stage chart self.new.stage)) }
        ensures registered { IfOk result (λ polled. OnPending polled ((s : ℕ) → waited_by_stage D.waits S.reader S.writer self.new.stage s → Hears cx.new s)) }
        ensures node { self.new.node ≡ self.old.node }
        ensures kept { Keeps cx.old cx.new }
    {
        match &mut self.stage {
            Stage::Asking(wire) => poll_chart(alloc, &names.topic, wire, cx),
            Stage::Dialing(dialing) => match dial.poll_dial(cx, dialing) {
                Poll::Pending => Ok(Poll::Pending),
                Poll::Ready(None) => Err(HandshakeFault::Io),
                Poll::Ready(Some(stream)) => {
                    self.stage = Stage::Asking(ask(alloc, names, stream)?);
                    Ok(cx.yield_now())
                }
            },
        }
    }
}
