//! The fourth part of a turn: replies.

ghost use Rattle.std.specs.Prelude.{◌≡◌, ◌<◌, [], None, false, IfOk};
ghost use Rattle.futures.specs.Task.{Covers, Keeps};
ghost use Rattle.kp_frames.specs.Stream.{is_faulty, stream};
ghost use Rattle.kp_engine.specs.Talking.{HearsNext, HearsAtHand, Listens, ListensOnce};

use crate::exchange::Exchange;
use crate::stop::Cause;
use futures::task::{Context, Poll};
use kp_connection::{ReadFault, Stream, Wire};
use kp_frames::FrameFault;
use std::alloc::AllocError;

/// The most replies that a turn hears.
const MOST_REPLIES: u32 = 16;

/// What asking for a frame at hand came to.
pub(crate) enum Next {
    /// There is none.
    None,
    Heard,
    Refused(FrameFault),
}

/// What asking for the frames at hand came to.
pub(crate) enum AtHand {
    /// All were heard, so many, and there are fewer than were asked for.
    All(u32),
    Enough,
    Refused(FrameFault),
}

/// What hearing and reading came to.
pub(crate) enum Listened {
    /// The stream gave bytes, and so many replies may still be heard.
    More(u32),
    /// The stream waits, or enough were heard.
    Waits,
    Cut(Cause),
}

/// Hears the oldest frame at hand.
#[inline(always)]
fn hear_next<S: Stream>(
    exchange: &mut Exchange,
    wire: &mut Wire<S>,
    now: u64,
) -> Result<Next, AllocError>
    ensures { HearsNext S.answers now exchange.old wire.old result exchange.new wire.new }
{
    let Ok(()) = exchange.notes.reserve() else {
        return Err(AllocError);
    };
    match wire.next_frame() {
        Err(refused) => Err(refused),
        Ok(None) => Ok(Next::None),
        Ok(Some(content)) => match exchange.hear(now, content) {
            Err(refused) => Err(refused),
            Ok(None) => Ok(Next::Heard),
            Ok(Some(fault)) => Ok(Next::Refused(fault)),
        },
    }
}

/// Hears the frames at hand, so many at most.
#[inline(always)]
fn hear_at_hand<S: Stream>(
    exchange: &mut Exchange,
    wire: &mut Wire<S>,
    now: u64,
    most: u32,
) -> Result<AtHand, AllocError>
    ensures { HearsAtHand S.answers now most exchange.old wire.old result exchange.new wire.new }
{
    for heard in 0..most {
        match hear_next(exchange, wire, now) {
            Err(refused) => return Err(refused),
            Ok(Next::None) => return Ok(AtHand::All(heard)),
            Ok(Next::Refused(fault)) => return Ok(AtHand::Refused(fault)),
            Ok(Next::Heard) => {}
        }
    }
    Ok(AtHand::Enough)
}

/// Hears the frames at hand, so many at most, and reads once where there are fewer.
fn listen_once<S: Stream>(
    exchange: &mut Exchange,
    wire: &mut Wire<S>,
    cx: &mut Context<'_>,
    now: u64,
    most: u32,
) -> Result<Listened, AllocError>
    requires some { 0 < most }
    requires sound { is_faulty wire.old.held ≡ false }
    ensures listens { ListensOnce S.answers now most exchange.old wire.old result exchange.new wire.new }
    ensures registered { IfOk result (λ listened. listened ≡ Listened.Waits → Covers cx.new (S.reader wire.new.stream)) }
    ensures kept { Keeps cx.old cx.new }
{
    match hear_at_hand(exchange, wire, now, most) {
        Err(refused) => Err(refused),
        Ok(AtHand::Refused(fault)) => Ok(Listened::Cut(Cause::BadReply(fault))),
        Ok(AtHand::Enough) => {
            let _: Poll<()> = cx.yield_now();
            Ok(Listened::Waits)
        }
        Ok(AtHand::All(heard)) => read_once(exchange, wire, cx, now, most - heard),
    }
}

/// Reads once, where no frame is at hand and so many replies may still be heard.
fn read_once<S: Stream>(
    exchange: &mut Exchange,
    wire: &mut Wire<S>,
    cx: &mut Context<'_>,
    now: u64,
    most: u32,
) -> Result<Listened, AllocError>
    requires some { 0 < most }
    requires sound { is_faulty wire.old.held ≡ false }
    requires none_left { (stream wire.old.held).frames ≡ [] }
    ensures listens { ListensOnce S.answers now most exchange.old wire.old result exchange.new wire.new }
    ensures registered { IfOk result (λ listened. listened ≡ Listened.Waits → Covers cx.new (S.reader wire.new.stream)) }
    ensures kept { Keeps cx.old cx.new }
{
    match wire.poll_read_once(cx, usize::MAX) {
        Poll::Pending => Ok(Listened::Waits),
        Poll::Ready(Ok(0)) => Ok(Listened::Cut(Cause::Io)),
        Poll::Ready(Ok(_)) => Ok(Listened::More(most)),
        Poll::Ready(Err(ReadFault::Io(_))) => Ok(Listened::Cut(Cause::Io)),
        Poll::Ready(Err(ReadFault::OutOfMemory)) => Err(AllocError),
        // The frames before the size of no frame are heard first.
        Poll::Ready(Err(ReadFault::TooLarge)) => match hear_at_hand(exchange, wire, now, most) {
            Err(refused) => Err(refused),
            Ok(AtHand::Refused(fault)) => Ok(Listened::Cut(Cause::BadReply(fault))),
            Ok(AtHand::All(_)) => Ok(Listened::Cut(Cause::BadReply(FrameFault::TooLarge))),
            Ok(AtHand::Enough) => Ok(Listened::Cut(Cause::BadReply(FrameFault::TooLarge))),
        },
    }
}

/// Hears the frames at hand, and what the stream gives, until it waits, fails or ends, a reply is refused, or enough
/// were heard. Why the connection is of no use any more; None where it goes on.
pub(crate) fn listen<S: Stream>(
    exchange: &mut Exchange,
    wire: &mut Wire<S>,
    cx: &mut Context<'_>,
    now: u64,
) -> Result<Option<Cause>, AllocError>
    requires { is_faulty wire.old.held ≡ false }
    ensures listens { Listens S.answers now 16 exchange.old wire.old result exchange.new wire.new }
    ensures registered { IfOk result (λ cause. cause ≡ None → Covers cx.new (S.reader wire.new.stream)) }
    ensures kept { Keeps cx.old cx.new }
{
    let mut most = MOST_REPLIES;
    loop {
        match listen_once(exchange, wire, cx, now, most) {
            Err(refused) => return Err(refused),
            Ok(Listened::Cut(cause)) => return Ok(Some(cause)),
            Ok(Listened::Waits) => return Ok(None),
            Ok(Listened::More(left)) => most = left,
        }
    }
}
