//! What the stream over memory does at each call, and what it tells of it.

ghost use Rattle.std.specs.Prelude.{◌≡◌, ◌-◌, ◌≤◌, ◌++◌, ◌∷◌, [], length, take};
ghost use Rattle.kp_connection.specs.Script.{Tells};
ghost use Rattle.kp_connection.specs.ScriptLaws.{tells_in_order, tells_nothing};

use super::{Met, Script, Step, next_step};
use crate::stream::Stream;
use futures::task::{Context, Poll};
use std::io;

impl Stream for Script {
    ghost answers = { Tells };

    ghost answers_nothing = { tells_nothing };

    ghost answers_in_order = { tells_in_order };

    fn poll_take(&mut self, cx: &mut Context<'_>, buf: &mut [u8]) -> Poll<io::Result<usize>> {
        let most = match next_step(&mut self.reads) {
            Step::Fail => {
                self.note(Met::ReadFailed);
                return Poll::Ready(Err(io::ErrorKind::ConnectionReset.into()));
            }
            Step::Wait => None,
            Step::End => Some(0),
            Step::Move(most) => self.most_read(most),
        };
        let Some(most) = most else {
            self.note(Met::ReadWaits);
            return cx.yield_now();
        };
        self.note(Met::Came);
        Poll::Ready(Ok(self.take(buf, most)))
    }

    fn poll_give(&mut self, cx: &mut Context<'_>, buf: &[u8]) -> Poll<io::Result<usize>> {
        let most = match next_step(&mut self.writes) {
            Step::Fail => {
                self.note(Met::WriteFailed);
                return Poll::Ready(Err(io::ErrorKind::ConnectionReset.into()));
            }
            Step::Wait => {
                self.note(Met::WriteWaits);
                return cx.yield_now();
            }
            Step::End => 0,
            Step::Move(most) => most,
        };
        let count = most.min(self.left).min(buf.len());
        if let Err(e) = self.output.extend_from_slice(&buf[..count]) {
            self.note(Met::WriteFailed);
            return Poll::Ready(Err(e.into()));
        }
        self.left -= count;
        self.note(Met::Went);
        Poll::Ready(Ok(count))
    }
}

impl Script {
    fn note(&mut self, met: Met)
        ensures { self.new ≡ record self.old { met = self.old.met ++ (met, tt) ∷ [] } }
    {
        self.met = self.met.and(&met, &());
    }

    /// How many bytes a read may take; it waits where no input is left before the end.
    fn most_read(&self, most: usize) -> Option<usize> {
        if self.left > 0 && self.input.is_empty() {
            return None;
        }
        Some(most.min(self.left))
    }

    /// Moves at most so many bytes of input to the front of `buf`.
    fn take(&mut self, buf: &mut [u8], most: usize) -> usize
        ensures bound { result ≤ length buf.new }
        ensures given { self.old.unread ≡ take result buf.new ++ self.new.unread }
        ensures same { self.new ≡ record self.old { unread = self.new.unread; left = self.old.left - result } }
    {
        let unread = self.input.as_slice();
        let count = most.min(unread.len()).min(buf.len());
        buf[..count].copy_from_slice(&unread[..count]);
        self.input.advance(count);
        self.left = self.left.saturating_sub(count);
        count
    }
}
