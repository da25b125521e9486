//! A stream with the bytes that wait to be written and the frames that were read and not heard.

ghost use Rattle.std.specs.Prelude.{◌≡◌, ◌↔◌, ◌+◌, ◌<◌, ◌≤◌, ℕ, List, [], ◌∷◌, length, max, vec_len, IsTrue, OnOk};
ghost use Rattle.futures.specs.Task.{Covers, Keeps};
ghost use Rattle.futures.specs.Poll.{OnPending};
ghost use Rattle.kp_frames.specs.Stream.{stream, wanted};
ghost use Rattle.tokio.specs.Io.Moved.{count_moved};
ghost use Rattle.kp_connection.specs.Answers.{write_answer};
ghost use Rattle.kp_connection.specs.Wire.{Wired, Goes, Writes, refusal, Reads, Hears};

use crate::fault::ReadFault;
use crate::kept::Kept;
use crate::stream::Stream;
use futures::task::{Context, Poll};
use kp_frames::{FrameFault, Splitter};
use std::alloc::{AllocError, Global};
use std::io;
use std::marker::Model;

/// The most bytes that one read is offered room for: 64 KiB.
const READ_ROOM: usize = 65_536;

/// A stream, seen as its state, the bytes that are kept for writing, and the bytes that were read and not heard.
///
/// What is read goes through one buffer, which is made at the first read and kept, and grows no further.
#[derive(Drop)]
pub struct Wire<S> {
    stream: S,
    kept: Kept,
    held: Splitter,
    buffer: Vec<u8>,
}

impl<S> Model for Wire<S> {
    ghost use Rattle.std.specs.Prelude.{◌≤◌, vec_len};
    ghost use Rattle.kp_connection.specs.Wire.{Wired};
    ghost use Rattle.kp_connection.specs.declared.wire.TheConstants.{READ_ROOM};

    ghost Value = { Wired S };

    ghost view = { λ w. record { stream = w.stream; kept = w.kept; held = w.held } };

    ghost invariant = { λ w. vec_len w.buffer ≤ READ_ROOM };
}

impl<S: Stream> Wire<S> {
    /// A wire over a stream. It takes no memory.
    pub fn new(alloc: Global, stream: S) -> Wire<S>
        ensures { result ≡ record { stream = stream; kept = []; held = [] } }
    {
        Wire {
            stream,
            kept: Kept::new(alloc),
            held: Splitter::new(alloc),
            buffer: Vec::new(alloc),
        }
    }

    /// Whether nothing waits to be written.
    pub fn is_idle(&self) -> bool
        ensures { IsTrue result ↔ (self.now.kept ≡ []) }
    {
        self.kept.is_empty()
    }

    /// Takes a whole frame, its size included, to be written. Its bytes are moved.
    pub fn send(&mut self, frame: Vec<u8>)
        requires { self.old.kept ≡ [] }
        ensures goes { Goes S.answers self.old (frame.items ∷ []) [] [] self.new }
        ensures kept { self.new ≡ record self.old { kept = frame.items } }
    {
        self.kept = Kept::of(frame);
    }

    /// Writes until nothing waits to be written. Its error is that of a write, or WriteZero where one took no bytes.
    #[inline(always)]
    pub fn poll_write(&mut self, cx: &mut Context<'_>) -> Poll<io::Result<()>>
        ensures writes { Writes S.answers self.old result self.new }
        ensures registered { OnPending result (Covers cx.new (S.writer self.new.stream)) }
        ensures kept { Keeps cx.old cx.new }
    {
        if self.kept.is_empty() {
            return Poll::Ready(Ok(()));
        }
        self.poll_write_all(cx)
    }

    /// One read of at most `most` bytes: how many came, 0 at the stream's end. The frames among them can then be asked
    /// for.
    pub fn poll_read_once(
        &mut self,
        cx: &mut Context<'_>,
        most: usize,
    ) -> Poll<Result<usize, ReadFault>>
        requires { 0 < most }
        ensures reads { Reads S.answers most self.old result self.new }
        ensures registered { OnPending result (Covers cx.new (S.reader self.new.stream)) }
        ensures kept { Keeps cx.old cx.new }
    {
        let most = most.min(READ_ROOM);
        if grow(&mut self.buffer, most).is_err() {
            return Poll::Ready(Err(ReadFault::OutOfMemory));
        }
        poll_feed(&mut self.stream, &mut self.held, cx, &mut self.buffer, most)
    }

    /// How many bytes the frame at hand still wants, as far as its size is known: of the size first, then of the
    /// content. 0 where its size is that of no frame.
    pub fn wanted(&self) -> usize
        ensures { result ≡ wanted (stream self.now.held).rest }
    {
        self.held.wanted()
    }

    /// The content of the oldest whole frame that was read and not heard.
    #[inline]
    pub fn next_frame(&mut self) -> Result<Option<Vec<u8>>, AllocError>
        ensures { Hears S.answers self.old result self.new }
    {
        self.held.next_frame().map_err(|_fault| AllocError)
    }

    /// Gives up the bytes that wait to be written and those that were not heard.
    pub fn into_stream(self) -> S
        ensures { result ≡ self.stream }
    {
        let Wire { stream, .. } = self;
        stream
    }
}

impl<S: Stream> Wire<S> {
    /// As `poll_write`, where something may be kept.
    #[inline(never)]
    fn poll_write_all(&mut self, cx: &mut Context<'_>) -> Poll<io::Result<()>>
        ensures writes { Writes S.answers self.old result self.new }
        ensures registered { OnPending result (Covers cx.new (S.writer self.new.stream)) }
        ensures kept { Keeps cx.old cx.new }
    {
        while !self.kept.is_empty() {
            match self.poll_write_once(cx) {
                Poll::Pending => return Poll::Pending,
                Poll::Ready(Ok(0)) => return Poll::Ready(Err(io::ErrorKind::WriteZero.into())),
                Poll::Ready(Ok(_)) => {}
                Poll::Ready(Err(e)) => return Poll::Ready(Err(e)),
            }
        }
        Poll::Ready(Ok(()))
    }

    /// One write of what is kept.
    fn poll_write_once(&mut self, cx: &mut Context<'_>) -> Poll<io::Result<usize>>
        requires { self.old.kept ≡ [] → ⊥ }
        ensures goes { Goes S.answers self.old [] [] (write_answer result self.old.kept ∷ []) self.new }
        ensures less { length self.new.kept + count_moved result ≡ length self.old.kept }
        ensures held { self.new.held ≡ self.old.held }
        ensures registered { OnPending result (Covers cx.new (S.writer self.new.stream)) }
        ensures kept { Keeps cx.old cx.new }
    {
        let polled = self.stream.poll_give(cx, self.kept.as_slice());
        if let Poll::Ready(Ok(count)) = &polled {
            self.kept.advance(*count);
        }
        polled
    }
}

/// Makes a buffer so long, where it is shorter.
fn grow(buffer: &mut Vec<u8>, len: usize) -> Result<(), AllocError>
    ensures long { OnOk result (len ≤ vec_len buffer.new) }
    ensures bound { vec_len buffer.new ≤ max len (vec_len buffer.old) }
{
    if buffer.len() < len {
        buffer.resize(len, 0)?;
    }
    Ok(())
}

/// One read of at most `most` bytes into the buffer, of which what came is held. What is kept has no part in it.
fn poll_feed<S: Stream>(
    stream: &mut S,
    held: &mut Splitter,
    cx: &mut Context<'_>,
    buffer: &mut Vec<u8>,
    most: usize,
) -> Poll<Result<usize, ReadFault>>
    requires { most ≤ vec_len buffer.old }
    ensures buffer { vec_len buffer.new ≡ vec_len buffer.old }
    ensures reads { (kept : List ℕ) → Reads S.answers most
        (record { stream = stream.old; kept = kept; held = held.old }) result
        (record { stream = stream.new; kept = kept; held = held.new }) }
    ensures registered { OnPending result (Covers cx.new (S.reader stream.new)) }
    ensures kept { Keeps cx.old cx.new }
{
    let room = &mut buffer[..most];
    let count = match stream.poll_take(cx, room) {
        Poll::Pending => return Poll::Pending,
        Poll::Ready(Ok(count)) => count,
        Poll::Ready(Err(e)) => return Poll::Ready(Err(ReadFault::Io(e))),
    };
    match held.feed(&room[..count]) {
        Ok(()) => Poll::Ready(Ok(count)),
        Err(fault) => Poll::Ready(Err(refusal(fault))),
    }
}

/// A splitter's refusal as the reader's, of which there are two.
fn refusal(fault: FrameFault) -> ReadFault
    ensures { result ≡ refusal fault }
{
    match fault {
        FrameFault::TooLarge => ReadFault::TooLarge,
        _ => ReadFault::OutOfMemory,
    }
}
