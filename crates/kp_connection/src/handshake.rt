//! The handshake that introduces a producer to its broker.

ghost use Rattle.std.specs.Prelude.{◌≡◌, [], Some, None, IsSome, IfSome};
ghost use Rattle.futures.specs.Task.{IsArmed, Keeps};
ghost use Rattle.futures.specs.Poll.{IfReady, OnPending};
ghost use Rattle.kp_connection.specs.Handshake.{Ends, Waits};
ghost use Rattle.kp_connection.specs.declared.handshake.stage.Stage.TheVariants.{Opening};

mod listening;
mod stage;
mod talk;

use crate::handshake::talk::Talk;
use crate::stream::Stream;
use futures::Future;
use futures::task::{Context, Poll};
use kp_hello::{HandshakeFault, Hello};
use kp_rules::Names;
use std::alloc::Global;
use std::marker::Model;

/// A future that asks a broker how many partitions a topic has, and, once it is answered, for a producer id. It gives
/// the stream back, of which no byte was read behind the second answer; after a fault the stream is dropped. It is
/// polled until it is ready.
#[derive(Drop)]
pub struct Handshake<S> {
    talk: Option<Talk<S>>,
}

impl<S> Model for Handshake<S> {
    ghost use Rattle.std.specs.Prelude.{Option};
    ghost use Rattle.std.specs.Option.{ForSome};
    ghost use Rattle.kp_connection.specs.Handshake.{Talking};

    ghost Value = { Option (Talking S) };

    ghost use Rattle.kp_connection.specs.Talking.{IsSound};

    ghost view = { λ h. h.talk };

    ghost invariant = { λ h. ForSome h.talk IsSound };
}

impl<S: Stream> Handshake<S> {
    /// A handshake of which nothing was said. It takes no memory.
    pub fn new(alloc: Global, stream: S, names: Names) -> Handshake<S>
        ensures { result ≡ Some (record {
          names = names;
          stage = Opening;
          wire = record { stream = stream; kept = []; held = [] };
        }) }
    {
        Handshake {
            talk: Some(Talk::new(alloc, stream, names)),
        }
    }

    /// Goes on until it has its hello, or a fault, or the stream waits.
    pub fn poll_hello(&mut self, cx: &mut Context<'_>) -> Poll<Result<(Hello, S), HandshakeFault>>
        requires { IsSome self.old }
        // What was written and read, and what it gives.
        ensures ready { IfReady result (λ out. IfSome self.old (λ old. Ends S.answers old out)) }
        // While it waits.
        ensures pending { OnPending result (IfSome self.old (λ old. IfSome self.new (λ new. Waits S.answers old new))) }
        ensures again { OnPending result (IsSome self.new) }
        ensures over { IfReady result (λ _. self.new ≡ None) }
        ensures registered { OnPending result (IsArmed cx.new) }
        ensures kept { Keeps cx.old cx.new }
    {
        let mut talk = self.talk.take().unwrap();
        match talk.poll_hello(cx) {
            Ok(Poll::Ready(hello)) => Poll::Ready(Ok((hello, talk.into_stream()))),
            Ok(Poll::Pending) => {
                self.talk = Some(talk);
                Poll::Pending
            }
            Err(fault) => Poll::Ready(Err(fault)),
        }
    }
}

impl<S: Stream> Future for Handshake<S> {
    type Output = Result<(Hello, S), HandshakeFault>;

    ghost can_poll = { λ h. IsSome h };

    ghost gives = { λ h out. IfSome h (λ old. Ends S.answers old out) };

    fn poll(&mut self, cx: &mut Context<'_>) -> Poll<Result<(Hello, S), HandshakeFault>> {
        self.poll_hello(cx)
    }
}
