//! One answer off a wire.

ghost use Rattle.std.specs.Prelude.{◌≡◌, [], Err, IfOk};
ghost use Rattle.futures.specs.Task.{IsArmed, Keeps};
ghost use Rattle.futures.specs.Poll.{OnPending};
ghost use Rattle.kp_frames.specs.Stream.{first};
ghost use Rattle.kp_connection.specs.Listening.{Listens};

use crate::fault::ReadFault;
use crate::stream::Stream;
use crate::wire::Wire;
use futures::task::{Context, Poll};
use kp_frames::FrameFault;
use kp_hello::HandshakeFault;

/// Writes what is kept, and reads the content of the next frame, and not a byte behind it.
pub(crate) fn poll_answer<S: Stream>(
    wire: &mut Wire<S>,
    cx: &mut Context<'_>,
) -> Result<Poll<Vec<u8>>, HandshakeFault>
    requires { first wire.old.held ≡ Err FrameFault.Short }
    ensures listens { Listens S.answers wire.old result wire.new }
    ensures registered { IfOk result (λ polled. OnPending polled (IsArmed cx.new)) }
    ensures kept { Keeps cx.old cx.new }
{
    match wire.poll_write(cx) {
        Poll::Pending => return Ok(Poll::Pending),
        Poll::Ready(Err(_)) => return Err(HandshakeFault::Io),
        Poll::Ready(Ok(())) => {}
    }
    poll_content(wire, cx)
}

/// Reads the content of the next frame, and not a byte behind it.
fn poll_content<S: Stream>(
    wire: &mut Wire<S>,
    cx: &mut Context<'_>,
) -> Result<Poll<Vec<u8>>, HandshakeFault>
    requires written { wire.old.kept ≡ [] }
    requires partial { first wire.old.held ≡ Err FrameFault.Short }
    ensures listens { Listens S.answers wire.old result wire.new }
    ensures registered { IfOk result (λ polled. OnPending polled (IsArmed cx.new)) }
    ensures kept { Keeps cx.old cx.new }
{
    loop {
        match wire.poll_read_once(cx, wire.wanted()) {
            Poll::Pending => return Ok(Poll::Pending),
            Poll::Ready(Ok(0)) => return Err(HandshakeFault::Io),
            Poll::Ready(Ok(_)) => {}
            Poll::Ready(Err(fault)) => return Err(HandshakeFault::from(fault)),
        }
        if let Some(content) = wire.next_frame()? {
            return Ok(Poll::Ready(content));
        }
    }
}
