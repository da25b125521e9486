//! The bytes of a frame that were not written.

ghost use Rattle.std.specs.Prelude.{◌≡◌, ◌≤◌, ◌↔◌, IsTrue, [], length, drop};

use std::alloc::Global;
use std::marker::Model;

/// The bytes of a frame that wait to be written, seen as their list.
#[derive(Debug, Drop)]
pub(crate) struct Kept {
    frame: Vec<u8>,
    /// How many of the frame's bytes were written.
    written: usize,
}

impl Model for Kept {
    ghost use Rattle.std.specs.Prelude.{ℕ, List, ◌≤◌, length, drop};

    ghost Value = { List ℕ };

    ghost view = { λ k. drop k.written k.frame.items };

    ghost invariant = { λ k. k.written ≤ length k.frame.items };
}

impl Kept {
    pub(crate) fn new(alloc: Global) -> Kept
        ensures { result ≡ [] }
    {
        Kept::of(Vec::new(alloc))
    }

    /// A whole frame, of which nothing was written. Its bytes are moved in.
    pub(crate) fn of(frame: Vec<u8>) -> Kept
        ensures { result ≡ frame.items }
    {
        Kept { frame, written: 0 }
    }

    pub(crate) fn is_empty(&self) -> bool
        ensures { IsTrue result ↔ (self.now ≡ []) }
    {
        self.as_slice().is_empty()
    }

    pub(crate) fn as_slice(&self) -> &[u8]
        ensures { result.now ≡ self.now }
    {
        &self.frame[self.written..]
    }

    /// The first `count` bytes were written.
    pub(crate) fn advance(&mut self, count: usize)
        requires { count ≤ length self.old }
        ensures { self.new ≡ drop count self.old }
    {
        self.written += count;
    }
}
