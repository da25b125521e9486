//! A connection's round in a poll over several.

ghost use Rattle.std.specs.Prelude.{◌≡◌, ◌≤◌, [], None, Some, Ok, false, IfOk, OnErr};
ghost use Rattle.futures.specs.Task.{Covers, Keeps};
ghost use Rattle.kp_engine.specs.Rounds.{Drops, HasRound, Makes, line_behind};
ghost use Rattle.kp_frames.specs.Stream.{is_faulty};

use crate::exchange::Exchange;
use crate::stop::Cause;
use crate::strays::STRAY_LIMIT;
use crate::turn::talk;
use futures::task::Context;
use kp_connection::{Stream, Wire};
use kp_frames::FrameFault;
use std::alloc::AllocError;

/// What a poll does over one of several connections at this moment: requests, so many at most, and replies, unless a request to its
/// node has waited too long. Why the connection is of no use any more; then what was in flight to its node is dropped.
pub(crate) fn round<S: Stream>(
    exchange: &mut Exchange,
    wire: &mut Wire<S>,
    cx: &mut Context<'_>,
    most: u32,
    node: u32,
    now: u64,
) -> Result<Option<Cause>, AllocError>
    requires sound { is_faulty wire.old.held ≡ false }
    requires few { most ≤ 16 }
    ensures rounds { HasRound S.answers most node now exchange.old wire.old exchange.new (line_behind result wire.new) }
    ensures sound { result ≡ Ok None → is_faulty wire.new.held ≡ false }
    ensures registered { IfOk result (λ cut. cut ≡ None → Covers cx.new (S.reader wire.new.stream)) }
    ensures kept { Keeps cx.old cx.new }
{
    let late = exchange.core.is_late(node, now);
    let Ok(cut) = talk(exchange, wire, cx, most, node, now, late) else {
        return Err(AllocError);
    };
    match cut {
        None if exchange.notes.strays < STRAY_LIMIT => Ok(None),
        None => give_up(exchange, node, now, Cause::BadReply(FrameFault::Mismatch)),
        Some(cause) => give_up(exchange, node, now, cause),
    }
}

/// A connection to this node is of no use any more, for this: what was in flight there is dropped.
fn give_up(
    exchange: &mut Exchange,
    node: u32,
    now: u64,
    cause: Cause,
) -> Result<Option<Cause>, AllocError>
    ensures drops { IfOk result (λ cut. (cut ≡ Some cause) × Drops node now exchange.old exchange.new) }
    ensures refused { OnErr result (Makes [] exchange.old exchange.new) }
{
    match exchange.disconnect(node, now) {
        Ok(()) => Ok(Some(cause)),
        Err(refused) => Err(refused),
    }
}
