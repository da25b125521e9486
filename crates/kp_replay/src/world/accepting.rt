//! A sender has a record accepted.

ghost use Rattle.std.specs.Prelude.{◌≡◌, ◌<◌, ◌^◌, ◌||◌, nat_lt, true, Ok, OnOk};
ghost use Rattle.kp_accum.specs.Config.{checked};
ghost use Rattle.kp_accum.specs.Queue.{charge_of};
ghost use Rattle.kp_replay.specs.Shown.{LeadsOn, is_there};
ghost use Rattle.kp_world.specs.Events.{record_at};
ghost use Rattle.kp_world.specs.declared.event.Event.TheVariants as event;

use crate::line::Line;
use crate::world::World;
use kp_accum::{Config, Item};
use kp_batch::{Record, Timestamp};
use kp_wire::{Blob, Seq};
use std::alloc::{AllocError, Global};

impl World {
    /// The sender has a record with this value accepted for the partition, where the gate is not shut and it is not too
    /// large.
    pub fn accept(&mut self, sender: u64, partition: u64, value: Blob) -> Result<(), AllocError>
        requires { is_there (event.Accept sender partition value) self.old ≡ true }
        ensures { OnOk result (LeadsOn (event.Accept sender partition value) self.old self.new) }
    {
        let was_flushed = self.core.flushed();
        if self.is_shut {
            return self.note(was_flushed, Some(Line::Closed { sender, partition }));
        }
        let place = sender as usize;
        let item = Item {
            sender: sender as u32,
            partition: partition as u32,
            number: self.accepted[place].number(partition as u32),
            at: self.moment,
            body: record_of(self.alloc, self.moment, value),
        };
        if is_large(&item, self.core.config()) {
            return self.note(was_flushed, Some(Line::Large { sender, partition }));
        }
        self.accepted[place].push(item)?;
        self.note(was_flushed, None)
    }
}

/// The record without a key that has this value, at this moment.
pub(super) fn record_of(alloc: Global, moment: u64, value: Blob) -> Record
    requires { moment < 2 ^ 63 }
    ensures { result ≡ record_at moment value }
{
    let Some(timestamp) = Timestamp::from_millis(moment as i64) else {
        unreachable!()
    };
    Record {
        timestamp,
        key: None,
        value: Some(value),
        headers: Seq::new(Vec::new(alloc)),
    }
}

/// Whether no request can hold the item, or the memory can't.
fn is_large(item: &Item, config: &Config) -> bool
    requires { checked config.now ≡ Ok tt }
    ensures { result ≡ (nat_lt config.now.max_request_size (charge_of item.now)
        || nat_lt config.now.buffer_memory (charge_of item.now)) }
{
    item.charge() > config.max_request_size.min(config.buffer_memory)
}
