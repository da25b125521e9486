//! Bytes that were taken of the producer and not written.

ghost use Rattle.std.specs.Prelude.{◌≡◌, ◌≤◌, ◌↔◌, [], drop, length, IfOk, IsTrue, OnErr, OnOk};
ghost use Rattle.kp_embed.specs.Taking.{CarriesNone, CarriesOut};

use kp_embed::{Embed, Fault};
use std::alloc::{AllocError, Global};
use std::marker::Model;

/// The most bytes that are taken at a time: 64 KiB.
const ROOM: usize = 65_536;

/// Bytes that were taken and not written, seen as their list.
#[derive(Debug, Drop)]
pub(crate) struct Unwritten {
    buffer: Vec<u8>,
    /// Where the first of them stands.
    from: usize,
    /// Where they end.
    to: usize,
}

impl Model for Unwritten {
    ghost use Rattle.std.specs.Prelude.{ℕ, List, ◌≤◌, length, take, drop};

    ghost Value = { List ℕ };

    ghost view = { λ u. drop u.from (take u.to u.buffer.items) };

    ghost invariant = { λ u. (u.from ≤ u.to) × (u.to ≤ length u.buffer.items) };
}

impl Unwritten {
    /// Room for bytes, and none in it.
    pub(crate) fn new(alloc: Global) -> Result<Unwritten, AllocError>
        ensures { IfOk result (λ unwritten. unwritten ≡ []) }
    {
        let mut buffer = Vec::new(alloc);
        buffer.resize(ROOM, 0)?;
        Ok(Unwritten {
            buffer,
            from: 0,
            to: 0,
        })
    }

    pub(crate) fn is_empty(&self) -> bool
        ensures { IsTrue result ↔ (self.now ≡ []) }
    {
        self.as_slice().is_empty()
    }

    pub(crate) fn as_slice(&self) -> &[u8]
        ensures { result.now ≡ self.now }
    {
        &self.buffer[self.from..self.to]
    }

    /// The first `count` bytes were written.
    pub(crate) fn advance(&mut self, count: usize)
        requires { count ≤ length self.old }
        ensures { self.new ≡ drop count self.old }
    {
        self.from += count;
    }

    /// Takes what the producer has for the node, as far as there is room.
    pub(crate) fn refill(&mut self, embed: &mut Embed, node: u32, now: u64) -> Result<(), Fault>
        requires { self.old ≡ [] }
        ensures taken { OnOk result (CarriesOut node now embed.old self.new embed.new) }
        ensures refused { OnErr result (CarriesNone node now embed.old embed.new) }
        ensures none { OnErr result (self.new ≡ []) }
    {
        self.from = 0;
        self.to = 0;
        match embed.take_into(node, &mut self.buffer, now) {
            Ok(count) => {
                self.to = count;
                Ok(())
            }
            Err(fault) => Err(fault),
        }
    }
}
