//! The third part of a turn: requests.

ghost use Rattle.futures.specs.Task.{Keeps};
ghost use Rattle.kp_engine.specs.Talking.{WritesAll};

use crate::exchange::Exchange;
use futures::task::{Context, Poll};
use kp_connection::{Stream, Wire};
use std::alloc::AllocError;

/// The most requests that a turn asks for.
pub(crate) const MOST_REQUESTS: u32 = 16;

/// Writes what is kept, and requests, so many at most, until the writer waits or none is to go out. Whether the connection goes on.
pub(crate) fn write_requests<S: Stream>(
    exchange: &mut Exchange,
    wire: &mut Wire<S>,
    cx: &mut Context<'_>,
    most: u32,
    node: u32,
    now: u64,
) -> Result<bool, AllocError>
    ensures writes { WritesAll S.answers most node now exchange.old wire.old result exchange.new wire.new }
    ensures kept { Keeps cx.old cx.new }
{
    if most == 0 && wire.is_idle() {
        return Ok(true);
    }
    for _ in 0..most {
        match wire.poll_write(cx) {
            Poll::Pending => return Ok(true),
            Poll::Ready(Err(_)) => return Ok(false),
            Poll::Ready(Ok(())) => {}
        }
        match exchange.next_frame(node, now) {
            Err(refused) => return Err(refused),
            Ok(None) => return Ok(true),
            Ok(Some(frame)) => wire.send(frame),
        }
    }
    match wire.poll_write(cx) {
        Poll::Pending => Ok(true),
        Poll::Ready(Err(_)) => Ok(false),
        Poll::Ready(Ok(())) => Ok(true),
    }
}
