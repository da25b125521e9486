//! A record that was accepted, and whose it is.

ghost use Rattle.std.specs.Prelude.{◌≡◌, ◌≤◌, IfOk};
ghost use Rattle.kp_batch.specs.Spelling.{measured};
ghost use Rattle.kp_accum.specs.Queue.{charge_of};

use kp_batch::{AsRecord, Record, SIZE_LIMIT, charge};
use std::alloc::{AllocError, Global};

/// A record that was accepted, and whose it is.
#[derive(Debug, Drop)]
pub struct Item {
    /// Which of the producer's senders accepted it, from 0.
    pub sender: u32,
    /// The partition that it goes to, from 0.
    pub partition: u32,
    /// How many records of this sender were accepted for this partition before it.
    pub number: u64,
    /// When it was accepted, in milliseconds of the caller's clock.
    pub at: u64,
    pub body: Record,
}

impl Item {
    /// An equal item of its own memory.
    pub fn copy(&self, alloc: Global) -> Result<Item, AllocError>
        ensures { IfOk result (λ item. item ≡ self.now) }
    {
        Ok(Item {
            sender: self.sender,
            partition: self.partition,
            number: self.number,
            at: self.at,
            body: self.body.copy(alloc)?,
        })
    }

    /// The memory that it takes: the size of the batch that holds it alone; u64::MAX where that is above the limit.
    #[inline]
    pub fn charge(&self) -> u64
        ensures value { result ≡ measured (charge_of self.now) }
        ensures exact { charge_of self.now ≤ SIZE_LIMIT → result ≡ charge_of self.now }
        ensures told { result ≤ SIZE_LIMIT → result ≡ charge_of self.now }
    {
        charge(&self.body)
    }
}

impl AsRecord for Item {
    ghost body = { λ item. item.body };

    fn as_record(&self) -> &Record {
        &self.body
    }
}
