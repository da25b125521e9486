//! Streams of frames, in pieces.

use crate::fault::{Done, Fault, Left, Played};
use crate::told::{Told, put_hex};
use kp_cases::{StepFault, Words, put, put_debug, refused};
use kp_frames::{FrameFault, Splitter};
use kp_wire::put_i32;
use std::alloc::{AllocError, Global};

/// Writes a frame's content behind its size.
fn put_content(out: &mut Vec<u8>, content: &[u8]) -> Result<(), AllocError> {
    put_i32(out, i32::try_from(content.len()).unwrap_or(-1))?;
    out.extend_from_slice(content)
}

/// Takes the frames that are whole, so many at most, and writes each: how many there were.
fn take_frames(splitter: &mut Splitter, most: usize, out: &mut Vec<u8>) -> Result<u32, Fault> {
    let mut count = 0u32;
    for _ in 0..most {
        let Some(content) = splitter.next_frame()? else {
            break;
        };
        put_content(out, &content)?;
        count = count.saturating_add(1);
    }
    Ok(count)
}

/// A stream, given to a splitter in one piece: how many frames it has whole.
pub(crate) fn read_stream<'a>(bytes: &'a [u8], told: &mut Told) -> Left<'a> {
    let mut splitter = Splitter::new(told.alloc);
    splitter.feed(bytes)?;
    let count = take_frames(&mut splitter, bytes.len(), &mut told.written)?;
    write!(told.text, "{count} frames")?;
    let given = bytes.len().saturating_sub(splitter.rest_len());
    Ok(bytes.get(given..).unwrap_or(&[]))
}

/// A splitter that is given a stream, piece by piece.
#[derive(Drop)]
pub(crate) struct Splitting {
    alloc: Global,
    splitter: Splitter,
}

impl Splitting {
    pub(crate) fn new(alloc: Global) -> Splitting {
        Splitting {
            alloc,
            splitter: Splitter::new(alloc),
        }
    }

    /// Feeds a piece, and tells the fault where one comes.
    fn feed(&mut self, piece: &[u8], came: &mut String) -> Done {
        let waited = self.splitter.rest_len();
        match self.splitter.feed(piece) {
            Ok(()) => Ok(()),
            Err(fault) => self.tell_fault(fault, waited, came),
        }
    }

    /// Tells a fault, behind which as many bytes have to wait as waited before where memory was refused.
    fn tell_fault(&self, fault: FrameFault, waited: usize, came: &mut String) -> Done {
        if fault == FrameFault::OutOfMemory {
            return Err(refused(self.splitter.rest_len() == waited));
        }
        put_debug(came, &fault)
    }

    /// Feeds each word as a piece.
    fn feed_words(&mut self, words: &mut Words<'_>, came: &mut String) -> Done {
        for word in words.rest().split_whitespace() {
            let piece = hex::decode(self.alloc, word)?;
            self.feed(&piece, came)?;
        }
        Ok(())
    }

    /// Tells the content of the next frame.
    fn tell_next(&mut self, came: &mut String) -> Done {
        let waited = self.splitter.rest_len();
        match self.splitter.next_frame() {
            Ok(Some(content)) => Ok(put_hex(came, &content)?),
            Ok(None) => put(came, &"none"),
            Err(fault) => self.tell_fault(fault, waited, came),
        }
    }

    /// Plays a step about a stream; false where it is none.
    pub(crate) fn play(&mut self, step: &str, words: &mut Words<'_>, came: &mut String) -> Played {
        let done = match step {
            "feed" => self.feed_words(words, came),
            "next" => self.tell_next(came),
            "waits" => put(came, &self.splitter.rest_len()),
            _ => return Ok(false),
        };
        done.map(|()| true)
    }
}
