//! What a handshake says and hears.

ghost use Rattle.std.specs.Prelude.{◌≡◌, [], Err, IfOk};
ghost use Rattle.futures.specs.Task.{IsArmed, Keeps};
ghost use Rattle.futures.specs.Poll.{OnPending};
ghost use Rattle.kp_connection.specs.Talking.{IsSound, Opens, Learns, Talks};

use crate::handshake::listening::poll_answer;
use crate::handshake::stage::Stage;
use crate::stream::Stream;
use crate::wire::Wire;
use futures::task::{Context, Poll};
use kp_hello::{
    HandshakeFault, Hello, read_metadata, read_producer_id, write_metadata, write_producer_id,
};
use kp_rules::Names;
use std::alloc::Global;
use std::marker::Model;

/// The correlation id of the first request behind a handshake.
const NEXT_CORRELATION: u32 = 2;

/// A handshake that goes on, seen as its names, its stage and its wire.
#[derive(Drop)]
pub(crate) struct Talk<S> {
    alloc: Global,
    names: Names,
    stage: Stage,
    wire: Wire<S>,
}

impl<S> Model for Talk<S> {
    ghost use Rattle.kp_connection.specs.Handshake.{Talking};

    ghost Value = { Talking S };

    ghost view = { λ t. record { names = t.names; stage = t.stage; wire = t.wire } };
}

impl<S: Stream> Talk<S> {
    pub(crate) fn new(alloc: Global, stream: S, names: Names) -> Talk<S>
        ensures { result ≡ record {
          names = names;
          stage = Stage.Opening;
          wire = record { stream = stream; kept = []; held = [] };
        } }
    {
        Talk {
            alloc,
            names,
            stage: Stage::Opening,
            wire: Wire::new(alloc, stream),
        }
    }

    /// Goes on until it has its hello, or the stream waits.
    pub(crate) fn poll_hello(&mut self, cx: &mut Context<'_>) -> Result<Poll<Hello>, HandshakeFault>
        requires { IsSound self.old }
        ensures talks { Talks S.answers self.old result self.new }
        ensures registered { IfOk result (λ polled. OnPending polled (IsArmed cx.new)) }
        ensures kept { Keeps cx.old cx.new }
    {
        match self.stage {
            Stage::Opening => {
                self.open()?;
                self.poll_metadata(cx)
            }
            Stage::Metadata => self.poll_metadata(cx),
            Stage::ProducerId(partitions) => self.poll_producer_id(partitions, cx),
        }
    }

    pub(crate) fn into_stream(self) -> S
        ensures { result ≡ self.wire.stream }
    {
        let Talk { wire, .. } = self;
        wire.into_stream()
    }

    /// Asks for what the broker knows of the topic.
    fn open(&mut self) -> Result<(), HandshakeFault>
        requires sound { IsSound self.old }
        requires opening { self.old.stage ≡ Stage.Opening }
        ensures { Opens S.answers self.old result self.new }
    {
        let frame = write_metadata(self.alloc, &self.names)?;
        self.wire.send(frame);
        self.stage = Stage::Metadata;
        Ok(())
    }

    /// Goes on from the request for what the broker knows of the topic.
    fn poll_metadata(&mut self, cx: &mut Context<'_>) -> Result<Poll<Hello>, HandshakeFault>
        requires sound { IsSound self.old }
        requires metadata { self.old.stage ≡ Stage.Metadata }
        ensures talks { Talks S.answers self.old result self.new }
        ensures registered { IfOk result (λ polled. OnPending polled (IsArmed cx.new)) }
        ensures kept { Keeps cx.old cx.new }
    {
        let Poll::Ready(partitions) = self.poll_partitions(cx)? else {
            return Ok(Poll::Pending);
        };
        self.poll_producer_id(partitions, cx)
    }

    /// How many partitions the topic has. A producer id is then asked for.
    fn poll_partitions(&mut self, cx: &mut Context<'_>) -> Result<Poll<u32>, HandshakeFault>
        requires sound { IsSound self.old }
        requires metadata { self.old.stage ≡ Stage.Metadata }
        ensures learns { Learns S.answers self.old result self.new }
        ensures registered { IfOk result (λ polled. OnPending polled (IsArmed cx.new)) }
        ensures kept { Keeps cx.old cx.new }
    {
        let Poll::Ready(content) = poll_answer(&mut self.wire, cx)? else {
            return Ok(Poll::Pending);
        };
        let partitions = read_metadata(self.alloc, &self.names.topic, &content)?;
        let frame = write_producer_id(self.alloc, &self.names)?;
        self.wire.send(frame);
        self.stage = Stage::ProducerId(partitions);
        Ok(Poll::Ready(partitions))
    }

    /// The hello, once the request for a producer id is answered.
    fn poll_producer_id(
        &mut self,
        partitions: u32,
        cx: &mut Context<'_>,
    ) -> Result<Poll<Hello>, HandshakeFault>
        requires sound { IsSound self.old }
        requires producer_id { self.old.stage ≡ Stage.ProducerId partitions }
        ensures talks { Talks S.answers self.old result self.new }
        ensures registered { IfOk result (λ polled. OnPending polled (IsArmed cx.new)) }
        ensures kept { Keeps cx.old cx.new }
    {
        let Poll::Ready(content) = poll_answer(&mut self.wire, cx)? else {
            return Ok(Poll::Pending);
        };
        let producer_id = read_producer_id(self.alloc, &content)?;
        Ok(Poll::Ready(Hello {
            partitions,
            producer_id,
            next_correlation: NEXT_CORRELATION,
        }))
    }
}
