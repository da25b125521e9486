//! The connection to a node, as far as there is one.

ghost use Rattle.std.specs.Prelude.{◌≡◌, false};
ghost use Rattle.futures.specs.Task.{Keeps};
ghost use Rattle.kp_drive.specs.Links.{LinkTurns};
ghost use Rattle.kp_drive.specs.Waiting.{LinkWaits};

use crate::flow::Flow;
use crate::host::Host;
use crate::pipe::Pipe;
use futures::task::{Context, Poll};
use kp_connection::Stream;
use kp_dial::Dial;
use kp_embed::Embed;
use std::alloc::Global;

/// The connection to a node.
#[derive(Drop)]
pub(crate) enum Link<K, S> {
    /// There is none.
    Closed,
    /// It is being made.
    Dialing(K),
    Open(Pipe<S>),
}

impl<K: Drop, S: Stream> Link<K, S> {
    /// Its turn: whether anything has moved. Where nothing has, the poll has registered for all that it waits for.
    pub(crate) fn poll_turn<D: Dial<Dialing = K, Stream = S>>(
        &mut self,
        host: &mut Host<D>,
        cx: &mut Context<'_>,
        node: u32,
        now: u64,
    ) -> bool
        ensures turns { LinkTurns S.answers node now host.old.embed self.old host.new.embed self.new }
        ensures waits { result ≡ false → LinkWaits D.waits S.reader S.writer S.answers cx.new self.new }
        ensures kept { Keeps cx.old cx.new }
    {
        let next = match self {
            Link::Closed => return false,
            Link::Dialing(dialing) => match host.dial.poll_dial(cx, dialing) {
                Poll::Pending => return false,
                Poll::Ready(made) => open(host.alloc, &mut host.embed, made, node, now),
            },
            Link::Open(pipe) => {
                match pipe.poll_serve(&mut host.embed, &mut host.room, cx, node, now) {
                    Flow::Idle => return false,
                    Flow::Moved => return true,
                    Flow::Ended => {
                        host.embed.lost(node, now);
                        Link::Closed
                    }
                }
            }
        };
        *self = next;
        true
    }
}

/// The link over a connection that was made, where one was, the producer takes it and there is room for it; else the producer is
/// told that it is lost.
fn open<K: Drop, S: Stream>(
    alloc: Global,
    embed: &mut Embed,
    made: Option<S>,
    node: u32,
    now: u64,
) -> Link<K, S>
    ensures { (k : K) → LinkTurns S.answers node now embed.old (Link.Dialing k) embed.new result }
{
    if let Some(stream) = made {
        if let Ok(pipe) = Pipe::new(alloc, stream) {
            match embed.connected(node, now) {
                Ok(()) => return Link::Open(pipe),
                Err(_refused) => {}
            }
        }
    }
    embed.lost(node, now);
    Link::Closed
}
