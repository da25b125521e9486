//! The bytes of a frame that wait to be taken.

ghost use Rattle.std.specs.Prelude.{◌≡◌, ◌≤◌, ◌++◌, ◌↔◌, [], length, take, drop, min, IsTrue};

use std::alloc::Global;
use std::marker::Model;

/// The bytes of a frame that wait to be taken, seen as their list.
#[derive(Debug, Drop)]
pub(crate) struct Bytes {
    frame: Vec<u8>,
    /// How many of the frame's bytes were taken.
    taken: usize,
}

impl Model for Bytes {
    ghost use Rattle.std.specs.Prelude.{ℕ, List, ◌≤◌, length, drop};

    ghost Value = { List ℕ };

    ghost view = { λ k. drop k.taken k.frame.items };

    ghost invariant = { λ k. k.taken ≤ length k.frame.items };
}

impl Bytes {
    pub(crate) fn new(alloc: Global) -> Bytes
        ensures { result ≡ [] }
    {
        Bytes::of(Vec::new(alloc))
    }

    /// A whole frame, of which nothing was taken.
    pub(crate) fn of(frame: Vec<u8>) -> Bytes
        ensures { result ≡ frame.items }
    {
        Bytes { frame, taken: 0 }
    }

    pub(crate) fn is_empty(&self) -> bool
        ensures { IsTrue result ↔ (self.now ≡ []) }
    {
        self.as_slice().is_empty()
    }

    fn as_slice(&self) -> &[u8]
        ensures { result.now ≡ self.now }
    {
        &self.frame[self.taken..]
    }

    /// Takes as many bytes as there are and there is room for, into the front of `room`: how many.
    pub(crate) fn take_into(&mut self, room: &mut [u8]) -> usize
        ensures count { result ≡ min (length self.old) (length room.old) }
        ensures rest { self.new ≡ drop result self.old }
        ensures taken { room.new ≡ take result self.old ++ drop result room.old }
    {
        let count = self.as_slice().len().min(room.len());
        room[..count].copy_from_slice(&self.frame[self.taken..self.taken + count]);
        self.taken += count;
        count
    }
}
