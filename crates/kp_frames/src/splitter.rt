//! A stream of bytes cut into frames (protocol guide, "Protocol Structure": every request and response is
//! size-delimited).

ghost use Rattle.std.specs.Prelude.{◌≡◌, ◌≤◌, ◌++◌, [], false, length, IfOk, OnOk};
ghost use Rattle.kp_wire.specs.Reading.{IsRead};
ghost use Rattle.kp_frames.specs.Stream.{frame, is_no_size, first, wanted, stream, is_faulty, is_faulty_rest};
ghost use Rattle.kp_frames.specs.Life.{Feeds, Next};
ghost use Rattle.kp_frames.specs.Held.{is_stopped, IsDropped};

use crate::fault::FrameFault;
use crate::frame::{CONTENT_LIMIT, SIZE_LENGTH};
use kp_wire::{read_bytes, read_i32};
use std::alloc::Global;
use std::marker::Model;

/// What the bytes are that are in no whole frame.
#[derive(Clone, Copy, Debug)]
enum Tail {
    /// The first bytes of a frame, or none.
    Open,
    /// The size of no frame: nothing is taken any more.
    Stopped,
}

/// The bytes of a stream that were taken and not yet given, seen as their list.
///
/// A byte is read and moved a bounded number of times, however small the pieces are and however many frames wait.
#[derive(Debug, Drop)]
pub struct Splitter {
    alloc: Global,
    bytes: Vec<u8>,
    /// Where the bytes begin that were not given.
    given: usize,
    /// Where the bytes begin that are in no whole frame.
    whole: usize,
    tail: Tail,
}

impl Model for Splitter {
    ghost use Rattle.std.specs.Prelude.{List, ℕ, drop};

    ghost Value = { List ℕ };

    ghost use Rattle.kp_frames.specs.Held.{IsInOrder};

    ghost view = { λ s. drop s.given s.bytes.items };

    ghost invariant = { λ s. IsInOrder s.bytes.items s.given s.whole s.tail };
}

impl Splitter {
    /// A splitter of a stream of which nothing was taken. It takes no memory.
    pub fn new(alloc: Global) -> Splitter
        ensures { result ≡ [] }
    {
        Splitter {
            alloc,
            bytes: Vec::new(alloc),
            given: 0,
            whole: 0,
            tail: Tail::Open,
        }
    }

    /// Takes the next piece of the stream. Once a size is that of no frame, nothing more is taken: this feed and each
    /// later one answers TooLarge, and the frames before that size can still be asked for.
    pub fn feed(&mut self, piece: &[u8]) -> Result<(), FrameFault>
        ensures fed { Feeds self.old piece.now result self.new }
        ensures whole { OnOk result (self.new ≡ self.old ++ piece.now) }
    {
        if let Tail::Stopped = self.tail {
            return Err(FrameFault::TooLarge);
        }
        self.append(piece)
    }

    /// The content of the oldest whole frame that was not given. Its only fault is OutOfMemory.
    #[inline]
    pub fn next_frame(&mut self) -> Result<Option<Vec<u8>>, FrameFault>
        ensures { Next self.old result self.new }
    {
        // (most asks find none, which is told without a look at the bytes)
        if self.given == self.whole {
            return Ok(None);
        }
        let Ok((content, _)) = first_frame(&self.bytes[self.given..]) else {
            return Ok(None);
        };
        let frame = Vec::from_slice(self.alloc, content)?;
        let given = self.given + (SIZE_LENGTH + frame.len());
        (self.given, self.whole) = drop_given(&mut self.bytes, given, self.whole);
        Ok(Some(frame))
    }

    /// How many bytes are in no whole frame.
    pub fn rest_len(&self) -> usize
        ensures { result ≡ length (stream self.now).rest }
    {
        self.bytes.len() - self.whole
    }

    /// How many bytes the frame wants that begins the bytes in no whole frame, as far as its size is known: of its size
    /// first, then of its content. 0 where its size is that of no frame.
    pub fn wanted(&self) -> usize
        ensures { result ≡ wanted (stream self.now).rest }
    {
        wanted_by(&self.bytes[self.whole..])
    }

    fn append(&mut self, piece: &[u8]) -> Result<(), FrameFault>
        requires { is_faulty self.old ≡ false }
        ensures { Feeds self.old piece.now result self.new }
    {
        self.bytes.extend_from_slice(piece)?;
        let (rest_len, tail) = rest_of(&self.bytes[self.whole..]);
        self.whole = self.bytes.len() - rest_len;
        self.tail = tail;
        match tail {
            Tail::Open => Ok(()),
            Tail::Stopped => {
                self.bytes.truncate(self.whole + SIZE_LENGTH);
                (self.given, self.whole) = drop_given(&mut self.bytes, self.given, self.whole);
                Err(FrameFault::TooLarge)
            }
        }
    }
}

/// Drops the bytes that were given, once no more are held than were given: what is held then stands at the front. Gives
/// where the bytes that were not given begin, and those that are in no whole frame.
fn drop_given(bytes: &mut Vec<u8>, given: usize, whole: usize) -> (usize, usize)
    requires before { given ≤ whole }
    requires within { whole ≤ length bytes.old.items }
    ensures { IsDropped bytes.old.items given whole bytes.new.items result.0 result.1 }
{
    let held = bytes.len() - given;
    if held > given {
        return (given, whole);
    }
    bytes.copy_within(given.., 0);
    bytes.truncate(held);
    (0, whole - given)
}

/// Whether no frame has this size.
#[tactic(auto, unfolding(crate::specs::Stream::is_no_size))]
fn is_no_size(size: i32) -> bool
    ensures { result ≡ is_no_size size }
{
    size < 0 || size as usize > CONTENT_LIMIT
}

/// The content of the frame at the front, and the bytes behind it.
#[tactic(auto, unfolding(crate::specs::Stream::first, crate::specs::Stream::is_no_size))]
fn first_frame(bytes: &[u8]) -> Result<(&[u8], &[u8]), FrameFault>
    ensures first { IsRead (λ x. (x.0.now, x.1.now)) result (first bytes.now) }
    ensures spelled { IfOk result (λ x. bytes.now ≡ frame.spell x.0.now ++ x.1.now) }
{
    let (size, behind) = read_i32(bytes)?;
    if is_no_size(size) {
        return Err(FrameFault::TooLarge);
    }
    Ok(read_bytes(behind, size as usize)?)
}

/// How many bytes the frame wants that begins here.
#[tactic(auto, unfolding(crate::specs::Stream::wanted, crate::specs::Stream::is_no_size))]
fn wanted_by(bytes: &[u8]) -> usize
    ensures { result ≡ wanted bytes.now }
{
    let Ok((size, behind)) = read_i32(bytes) else {
        return SIZE_LENGTH.saturating_sub(bytes.len());
    };
    if is_no_size(size) {
        return 0;
    }
    (size as usize).saturating_sub(behind.len())
}

/// What bytes are that begin with no whole frame, by the fault of reading one there.
fn tail_of(fault: FrameFault) -> Tail
    ensures { is_stopped result ≡ is_faulty_rest (Err fault) }
{
    match fault {
        FrameFault::TooLarge => Tail::Stopped,
        _ => Tail::Open,
    }
}

/// How many bytes are behind the whole frames, and what they are.
fn rest_of(bytes: &[u8]) -> (usize, Tail)
    ensures len { result.0 ≡ length (stream bytes.now).rest }
    ensures tail { is_stopped result.1 ≡ is_faulty bytes.now }
{
    let mut rest = bytes;
    loop {
        match first_frame(rest) {
            Ok((_, behind)) => rest = behind,
            Err(fault) => return (rest.len(), tail_of(fault)),
        }
    }
}
