//! The streams of the cases.

use futures::task::{Context, Poll};
use kp_cases::{StepFault, Words};
use kp_connection::script::{Script, Step};
use kp_connection::{Plain, Stream};
use std::alloc::Global;
use std::io::{self, ErrorKind};
use tokio::io::DuplexStream;

/// A stream over memory, whose calls tell nothing of their bytes.
#[derive(Drop)]
pub(crate) enum Memory {
    Script(Script),
    /// One of two joined ends.
    Duplex(Plain<DuplexStream>),
}

impl Stream for Memory {
    ghost use Rattle.std.specs.Prelude.{⊤};

    ghost answers = { λ _ _ _. ⊤ };

    ghost answers_nothing = { λ _. tt };

    ghost answers_in_order = { λ _ _ _ _ _ _ _. tt };

    fn poll_take(&mut self, cx: &mut Context<'_>, buf: &mut [u8]) -> Poll<io::Result<usize>> {
        match self {
            Memory::Script(script) => script.poll_take(cx, buf),
            Memory::Duplex(end) => end.poll_take(cx, buf),
        }
    }

    fn poll_give(&mut self, cx: &mut Context<'_>, buf: &[u8]) -> Poll<io::Result<usize>> {
        match self {
            Memory::Script(script) => match script.poll_give(cx, buf) {
                // (what keeps the bytes was refused memory, which a stream has no need of)
                Poll::Ready(Err(e)) if e.kind() == ErrorKind::OutOfMemory => {
                    script.poll_give(cx, buf)
                }
                given => given,
            },
            Memory::Duplex(end) => end.poll_give(cx, buf),
        }
    }
}

/// A number of bytes; `all` is more than any stream has.
pub(crate) fn count_of(word: &str) -> Result<usize, StepFault> {
    if word == "all" {
        return Ok(usize::MAX);
    }
    word.parse().map_err(|_| StepFault::NotUnderstood)
}

fn step_of(word: &str) -> Result<Step, StepFault> {
    match word {
        "wait" => Ok(Step::Wait),
        "fail" => Ok(Step::Fail),
        "end" => Ok(Step::End),
        _ => Ok(Step::Move(count_of(word)?)),
    }
}

/// What the calls on a script do, a word each.
pub(crate) fn steps_of(alloc: Global, words: &mut Words<'_>) -> Result<Vec<Step>, StepFault> {
    let mut steps = Vec::new(alloc);
    for word in words.rest().split_whitespace() {
        steps.push(step_of(word)?)?;
    }
    Ok(steps)
}

/// A frame of so many bytes, all of them this one.
pub(crate) fn long_frame(alloc: Global, words: &mut Words<'_>) -> Result<Vec<u8>, StepFault> {
    let count: u32 = words.number()?;
    let byte = words.number()?;
    let mut frame = count.to_be_bytes().to_vec(alloc)?;
    frame.resize(frame.len().saturating_add(count as usize), byte)?;
    Ok(frame)
}
