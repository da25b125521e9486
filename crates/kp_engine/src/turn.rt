//! One turn: the core, the lanes and the connection.

ghost use Rattle.std.specs.Prelude.{◌≡◌, ◌≤◌, None, false, IfOk};
ghost use Rattle.futures.specs.Poll.{OnPending};
ghost use Rattle.futures.specs.Task.{Covers, Keeps};
ghost use Rattle.kp_frames.specs.Stream.{is_faulty};
ghost use Rattle.kp_engine.specs.Polls.{GoesOnBehind, IsUndone, TalksAll, Turns, stop_of};

pub(crate) mod away;
mod ending;
mod hearing;
pub(crate) mod round;
pub(crate) mod writing;

use crate::exchange::Exchange;
use crate::stop::{Cause, Stop};
use crate::turn::writing::MOST_REQUESTS;
use futures::task::{Context, Poll};
use kp_connection::{Stream, Wire};
use std::alloc::AllocError;

/// One turn for this node at this moment: items, and the close; the tick; requests; replies; reports.
pub(crate) fn turn<S: Stream>(
    exchange: &mut Exchange,
    wire: &mut Wire<S>,
    cx: &mut Context<'_>,
    node: u32,
    now: u64,
) -> Poll<Stop>
    requires { is_faulty wire.old.held ≡ false }
    ensures turns { Turns S.answers node now exchange.old wire.old result exchange.new wire.new }
    ensures undone { GoesOnBehind result → IsUndone exchange.old exchange.new }
    ensures registered { OnPending result (Covers cx.new (S.reader wire.new.stream)) }
    ensures kept { Keeps cx.old cx.new }
{
    let Ok(idle) = exchange.take_items() else {
        return Poll::Ready(Stop::OutOfMemory);
    };
    let Ok(ticked) = exchange.tick(node, now) else {
        return Poll::Ready(Stop::OutOfMemory);
    };
    let Ok(cut) = talk(
        exchange,
        wire,
        cx,
        MOST_REQUESTS,
        node,
        now,
        ticked.reconnect,
    ) else {
        return Poll::Ready(Stop::OutOfMemory);
    };
    let Ok(done) = ending::finish(exchange, cut, idle, node, now) else {
        return Poll::Ready(Stop::OutOfMemory);
    };
    stop_of(done, cut)
}

/// Requests, so many at most, and replies, unless a request has waited too long. Why the connection is of no use any more.
#[inline(always)]
fn talk<S: Stream>(
    exchange: &mut Exchange,
    wire: &mut Wire<S>,
    cx: &mut Context<'_>,
    most: u32,
    node: u32,
    now: u64,
    late: bool,
) -> Result<Option<Cause>, AllocError>
    requires sound { is_faulty wire.old.held ≡ false }
    requires few { most ≤ 16 }
    ensures talks { TalksAll S.answers most node now late exchange.old wire.old result exchange.new wire.new }
    ensures registered { IfOk result (λ cut. cut ≡ None → Covers cx.new (S.reader wire.new.stream)) }
    ensures kept { Keeps cx.old cx.new }
{
    if late {
        return Ok(Some(Cause::TimedOut));
    }
    converse(exchange, wire, cx, most, node, now)
}

/// The same, where none has.
#[inline(never)]
fn converse<S: Stream>(
    exchange: &mut Exchange,
    wire: &mut Wire<S>,
    cx: &mut Context<'_>,
    most: u32,
    node: u32,
    now: u64,
) -> Result<Option<Cause>, AllocError>
    requires sound { is_faulty wire.old.held ≡ false }
    requires few { most ≤ 16 }
    ensures talks { TalksAll S.answers most node now false exchange.old wire.old result exchange.new wire.new }
    ensures registered { IfOk result (λ cut. cut ≡ None → Covers cx.new (S.reader wire.new.stream)) }
    ensures kept { Keeps cx.old cx.new }
{
    match writing::write_requests(exchange, wire, cx, most, node, now) {
        Err(refused) => Err(refused),
        Ok(false) => Ok(Some(Cause::Io)),
        Ok(true) => hearing::listen(exchange, wire, cx, now),
    }
}

/// What a turn answers.
fn stop_of(done: bool, cut: Option<Cause>) -> Poll<Stop>
    ensures { result ≡ stop_of done cut }
{
    if done {
        return Poll::Ready(Stop::Done);
    }
    match cut {
        Some(cause) => Poll::Ready(Stop::NeedStream(cause)),
        None => Poll::Pending,
    }
}
