//! An open connection.

ghost use Rattle.std.specs.Prelude.{◌≡◌, ◌⊎◌, ◌∷◌, [], ℕ, IfOk};
ghost use Rattle.futures.specs.Task.{Covers, Keeps};
ghost use Rattle.kp_connection.specs.Answers.Answer.{Read_waits};
ghost use Rattle.kp_drive.specs.Flow.{ByFlow};
ghost use Rattle.kp_drive.specs.Serving.{Serves, Stops, fresh_pipe};
ghost use Rattle.kp_drive.specs.Waiting.{PipeWaits};
ghost use Rattle.kp_embed.specs.Producer.{Producer};

use crate::flow::Flow;
use crate::unwritten::Unwritten;
use futures::task::{Context, Poll};
use kp_connection::Stream;
use kp_embed::{Embed, Fault};
use std::alloc::{AllocError, Global};

/// An open connection: its stream, and the bytes that were taken of the producer and not written.
#[derive(Drop)]
pub(crate) struct Pipe<S> {
    stream: S,
    unwritten: Unwritten,
}

impl<S: Stream> Pipe<S> {
    /// Over a stream that was just made.
    pub(crate) fn new(alloc: Global, stream: S) -> Result<Pipe<S>, AllocError>
        ensures { IfOk result (λ pipe. pipe ≡ fresh_pipe stream) }
    {
        let unwritten = Unwritten::new(alloc)?;
        Ok(Pipe { stream, unwritten })
    }

    /// Takes, writes, reads and feeds, each once at most. It is idle where both a read and what is to be written wait.
    pub(crate) fn poll_serve(
        &mut self,
        embed: &mut Embed,
        room: &mut [u8],
        cx: &mut Context<'_>,
        node: u32,
        now: u64,
    ) -> Flow
        ensures serves { ByFlow result (Serves S.answers node now embed.old self.old embed.new self.new) (Stops S.answers node now embed.old self.old embed.new) }
        ensures waits { result ≡ Flow.Idle → PipeWaits S.reader S.writer S.answers cx.new self.new }
        ensures kept { Keeps cx.old cx.new }
    {
        if self.refill(embed, node, now).is_err() {
            return Flow::Ended;
        }
        match self.poll_write(cx) {
            Flow::Ended => Flow::Ended,
            Flow::Idle => self.poll_read(embed, room, cx, node, now),
            Flow::Moved => self.poll_read(embed, room, cx, node, now).moved(),
        }
    }

    /// Where nothing is unwritten, takes what the producer has to be written.
    fn refill(&mut self, embed: &mut Embed, node: u32, now: u64) -> Result<(), Fault>
        ensures { Serves S.answers node now embed.old self.old embed.new self.new }
    {
        if !self.unwritten.is_empty() {
            return Ok(());
        }
        self.unwritten.refill(embed, node, now)
    }

    /// One write of what is unwritten, if anything is. A write that takes no bytes is a failure.
    fn poll_write(&mut self, cx: &mut Context<'_>) -> Flow
        ensures serves { (node now : ℕ) (p : Producer) → Serves S.answers node now p self.old p self.new }
        ensures waits { result ≡ Flow.Idle → (self.new.unwritten ≡ []) ⊎ Covers cx.new (S.writer self.new.stream) }
        ensures kept { Keeps cx.old cx.new }
    {
        if self.unwritten.is_empty() {
            return Flow::Idle;
        }
        match self.stream.poll_give(cx, self.unwritten.as_slice()) {
            Poll::Pending => Flow::Idle,
            Poll::Ready(Ok(0)) => Flow::Ended,
            Poll::Ready(Err(_)) => Flow::Ended,
            Poll::Ready(Ok(count)) => {
                self.unwritten.advance(count);
                Flow::Moved
            }
        }
    }

    /// One read, of which the producer is fed what came.
    fn poll_read(
        &mut self,
        embed: &mut Embed,
        room: &mut [u8],
        cx: &mut Context<'_>,
        node: u32,
        now: u64,
    ) -> Flow
        ensures serves { ByFlow result (Serves S.answers node now embed.old self.old embed.new self.new) (Stops S.answers node now embed.old self.old embed.new) }
        ensures waits { result ≡ Flow.Idle → Covers cx.new (S.reader self.new.stream) }
        ensures told { result ≡ Flow.Idle → S.answers self.old.stream (Read_waits ∷ []) self.new.stream }
        ensures same { self.new.unwritten ≡ self.old.unwritten }
        ensures kept { Keeps cx.old cx.new }
    {
        match self.stream.poll_take(cx, room) {
            Poll::Pending => Flow::Idle,
            Poll::Ready(Ok(0)) => Flow::Ended,
            Poll::Ready(Err(_)) => Flow::Ended,
            Poll::Ready(Ok(count)) => match embed.feed(node, &room[..count], now) {
                Ok(()) => Flow::Moved,
                Err(_) => Flow::Ended,
            },
        }
    }
}
