//! What a sender had accepted.

ghost use Rattle.std.specs.Prelude.{◌≡◌, ℕ, ◌+◌, ◌<◌, ◌≤◌, ◌^◌, ◌++◌, ◌∷◌, [], length, slice_get, slice_index_or, IfSome, OnOk};
ghost use Rattle.std.specs.Option.{option_copied};
ghost use Rattle.kp_world.specs.Accepting.{for_partition};

use kp_accum::Item;
use std::alloc::{AllocError, Global};
use std::marker::Model;

/// The items that a sender had accepted, in order.
#[derive(Debug, Drop)]
pub(crate) struct Accepted {
    items: Vec<Item>,
    /// By partition, how many of them are for it. Behind the last one with an item a count may be missing.
    counts: Vec<u64>,
}

impl Model for Accepted {
    ghost use Rattle.std.specs.Prelude.{List};
    ghost use Rattle.kp_accum.specs.declared.item.Item.{Item};
    ghost use Rattle.kp_replay.specs.Accepted.{AreCounts};

    ghost Value = { List Item };

    ghost view = { λ a. a.items.items };

    ghost invariant = { λ a. AreCounts a.items.items a.counts.items };
}

impl Accepted {
    /// Nothing was accepted.
    pub(crate) fn new(alloc: Global) -> Accepted
        ensures { result ≡ [] }
    {
        Accepted {
            items: Vec::new(alloc),
            counts: Vec::new(alloc),
        }
    }

    /// How many of the items are for this partition: the number of the next.
    pub(crate) fn number(&self, partition: u32) -> u64
        ensures { result ≡ length (for_partition partition self.now) }
    {
        match self.counts.get(partition as usize) {
            None => 0,
            Some(count) => *count,
        }
    }

    /// The item at this place.
    pub(crate) fn get(&self, place: usize) -> Option<&Item>
        ensures item { option_copied result ≡ slice_get self.now place }
        ensures place { IfSome result (λ item. place + 1 < 2 ^ 64) }
    {
        self.items.get(place)
    }

    /// Puts one more item behind the others.
    pub(crate) fn push(&mut self, item: Item) -> Result<(), AllocError>
        ensures { OnOk result (self.new ≡ self.old ++ item ∷ []) }
    {
        let place = item.partition as usize;
        count_as_far(&mut self.counts, place + 1)?;
        self.items.push(item)?;
        self.counts[place] += 1;
        Ok(())
    }
}

/// Counts so many partitions at least.
fn count_as_far(counts: &mut Vec<u64>, partitions: usize) -> Result<(), AllocError>
    ensures same { (p : ℕ) → slice_index_or counts.new.items p 0 ≡ slice_index_or counts.old.items p 0 }
    ensures all { OnOk result (partitions ≤ length counts.new.items) }
{
    while counts.len() < partitions {
        counts.push(0)?;
    }
    Ok(())
}
