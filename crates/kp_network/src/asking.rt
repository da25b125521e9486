//! Metadata is asked for over a stream, and the answer read.

ghost use Rattle.std.specs.Prelude.{◌≡◌, ℕ, [], IfOk};
ghost use Rattle.futures.specs.Poll.{IfReady, OnPending};
ghost use Rattle.futures.specs.Task.{Hears, Keeps};
ghost use Rattle.kp_hello.specs.Asking.{frame_of, metadata_request};
ghost use Rattle.kp_network.specs.Asking.{HearsOne, LearnsOne, waited_by_wire};

use futures::task::{Context, Poll};
use kp_connection::{Stream, Wire};
use kp_hello::{Chart, HandshakeFault, read_chart, write_metadata};
use kp_rules::Names;
use kp_wire::Text;
use std::alloc::Global;

/// The most bytes that one read is asked for: 64 KiB.
const READ_ROOM: usize = 65_536;

/// The stream, and the request that waits to be written to it.
pub(crate) fn ask<S: Stream>(
    alloc: Global,
    names: &Names,
    stream: S,
) -> Result<Wire<S>, HandshakeFault>
    ensures { IfOk result (λ wire. wire ≡ record { stream = stream; kept = frame_of (metadata_request names.now); held = [] }) }
{
    let frame = write_metadata(alloc, names)?;
    let mut wire = Wire::new(alloc, stream);
    wire.send(frame);
    Ok(wire)
}

/// The chart that is answered. What was read behind it is of no use.
pub(crate) fn poll_chart<S: Stream>(
    alloc: Global,
    topic: &Text,
    wire: &mut Wire<S>,
    cx: &mut Context<'_>,
) -> Result<Poll<Chart>, HandshakeFault>
    ensures learns { IfOk result (λ polled. IfReady polled (λ chart. LearnsOne S.answers topic.now wire.old chart wire.new)) }
    ensures registered { IfOk result (λ polled. OnPending polled ((s : ℕ) → waited_by_wire S.reader S.writer wire.new s → Hears cx.new s)) }
    ensures kept { Keeps cx.old cx.new }
{
    match poll_content(wire, cx)? {
        Poll::Pending => Ok(Poll::Pending),
        Poll::Ready(content) => Ok(Poll::Ready(read_chart(alloc, topic, &content)?)),
    }
}

/// The content of the frame that is answered.
fn poll_content<S: Stream>(
    wire: &mut Wire<S>,
    cx: &mut Context<'_>,
) -> Result<Poll<Vec<u8>>, HandshakeFault>
    ensures hears { IfOk result (λ polled. IfReady polled (λ content. HearsOne S.answers wire.old content.items wire.new)) }
    ensures registered { IfOk result (λ polled. OnPending polled ((s : ℕ) → waited_by_wire S.reader S.writer wire.new s → Hears cx.new s)) }
    ensures kept { Keeps cx.old cx.new }
{
    match wire.poll_write(cx) {
        Poll::Pending => return Ok(Poll::Pending),
        Poll::Ready(Err(_)) => return Err(HandshakeFault::Io),
        Poll::Ready(Ok(())) => {}
    }
    match wire.poll_read_once(cx, READ_ROOM) {
        Poll::Pending => return Ok(Poll::Pending),
        Poll::Ready(Ok(0)) => return Err(HandshakeFault::Io),
        Poll::Ready(Ok(_)) => {}
        Poll::Ready(Err(fault)) => return Err(HandshakeFault::from(fault)),
    }
    match wire.next_frame()? {
        Some(content) => Ok(Poll::Ready(content)),
        None => Ok(cx.yield_now()),
    }
}
