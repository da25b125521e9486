//! The batches of one partition that wait, oldest first.

ghost use Rattle.std.specs.Prelude.{◌≡◌, ◌≤◌, ◌<◌, ◌-◌, ◌++◌, ◌∷◌, [], length, map, drop, Ok, Some, IfOk, IfSome, OnOk, OnErr, IsSome, is_some, slice_get, slice_index_or, vec_capacity};
ghost use Rattle.std.specs.Option.{option_copied};
ghost use Rattle.std.specs.VecDeque.{deque_len, deque_capacity};
ghost use Rattle.kp_accum.specs.Config.{checked};
ghost use Rattle.kp_accum.specs.Queue as seen;
ghost use Rattle.kp_accum.specs.Queue.{charge_of, size_of, joins, with_item, marked_by_flush, marked_in};
ghost use Rattle.kp_accum.specs.Ready.{is_ready, expired, unexpired};

use crate::config::Config;
use crate::flags::Flags;
use crate::item::Item;
use crate::pending::Pending;
use kp_batch::SIZE_LIMIT;
use std::alloc::{AllocError, Global};
use std::collections::VecDeque;
use std::marker::Model;

/// The batches of one partition that wait, oldest first: seen as a list of them.
#[derive(Debug, Drop)]
pub struct Queue {
    alloc: Global,
    batches: VecDeque<Pending>,
    /// How many batches are marked: those at the front.
    marked: usize,
    /// How many items the batch had that was closed last. The next one begins with room for as many: under load a
    /// batch is mostly as long as the one before it.
    room: usize,
}

impl Model for Queue {
    ghost use Rattle.std.specs.Prelude.{List};
    ghost use Rattle.kp_accum.specs.Queue as seen;
    ghost use Rattle.kp_accum.specs.Marks.{MarksAreFirst};

    ghost Value = { List seen.Pending };

    ghost view = { λ q. q.batches.items };

    ghost invariant = { λ q. MarksAreFirst q.marked q.batches.items };
}

/// The size of the last batch with the item, where the item joins it.
#[inline(always)]
fn last_size_with(batches: &VecDeque<Pending>, config: &Config, item: &Item) -> Option<u64>
    requires { checked config.now ≡ Ok tt }
    ensures some { IsSome result → 0 < length batches.now.items }
    ensures joins { (d : seen.Pending) → 0 < length batches.now.items
        → is_some result ≡ joins config.now item.now (slice_index_or batches.now.items (length batches.now.items - 1) d) }
    ensures size { (d : seen.Pending) → IfSome result (λ size.
        size ≡ size_of ((slice_index_or batches.now.items (length batches.now.items - 1) d).items ++ item.now ∷ [])) }
    ensures fits { IfSome result (λ size. size ≤ SIZE_LIMIT) }
{
    batches.back()?.size_with(config, item)
}

/// Room for one batch more, and memory for so many items of it.
fn room_for_a_batch(
    alloc: Global,
    batches: &mut VecDeque<Pending>,
    room: usize,
) -> Result<Vec<Item>, AllocError>
    ensures same { batches.new.items ≡ batches.old.items }
    ensures place { OnOk result (deque_len batches.new < deque_capacity batches.new) }
    ensures none { IfOk result (λ items. items.items ≡ []) }
    ensures room { IfOk result (λ items. room ≤ vec_capacity items) }
{
    batches.reserve(1)?;
    Vec::with_capacity(alloc, room)
}

impl Queue {
    /// A queue with no batch. It takes no memory.
    pub fn new(alloc: Global) -> Queue
        ensures { result ≡ [] }
    {
        Queue {
            alloc,
            batches: VecDeque::new(alloc),
            marked: 0,
            room: 0,
        }
    }

    /// How many batches there are.
    pub fn len(&self) -> usize
        ensures { result ≡ length self.now }
    {
        self.batches.len()
    }

    /// Puts the item, which has this charge, last: into the last batch, or into a new one. Where memory is refused, it is
    /// put into `refused`: a result that held it would be moved, and filled where it holds nothing, at each return.
    #[inline(always)]
    pub fn append(
        &mut self,
        config: &Config,
        charge: u64,
        item: Item,
        refused: &mut Option<Item>,
    ) -> Result<(), AllocError>
        requires allowed { checked config.now ≡ Ok tt }
        requires is_its { charge ≡ charge_of item }
        requires fits { charge ≤ SIZE_LIMIT }
        ensures ok { OnOk result (self.new ≡ with_item config.now item self.old) }
        ensures err { OnErr result (self.new ≡ self.old) }
        ensures back { OnErr result (refused.new ≡ Some item) }
        ensures still { OnOk result (refused.new ≡ refused.old) }
    {
        if let Some(size) = last_size_with(&self.batches, config, &item) {
            let last = self.batches.len() - 1;
            return self.batches[last].join(size, charge, item, refused);
        }
        let room = self
            .batches
            .back()
            .map_or(self.room, |last| last.items().len());
        match room_for_a_batch(self.alloc, &mut self.batches, room.max(1)) {
            Ok(items) => {
                let batch = Pending::begun_by(items, charge, item);
                self.batches.push_back_reserved(batch);
                Ok(())
            }
            Err(AllocError) => {
                *refused = Some(item);
                Err(AllocError)
            }
        }
    }

    /// Whether the front batch is ready to be sent at the moment `now`; not where there is none.
    #[tactic(auto, unfolding(crate::specs::Ready::is_ready))]
    pub fn is_ready(&self, config: &Config, flags: Flags, now: u64) -> bool
        ensures { result ≡ is_ready config.now flags now self.now }
    {
        match self.batches.front() {
            None => false,
            Some(front) => {
                front.is_full(config)
                    || self.batches.len() > 1
                    || front.has_lingered(config, now)
                    || flags.is_pressed()
            }
        }
    }

    /// The front batch.
    pub fn front(&self) -> Option<&Pending>
        ensures { option_copied result ≡ slice_get self.now 0 }
    {
        self.batches.front()
    }

    /// Takes the front batch away.
    pub fn take_front(&mut self) -> Option<Pending>
        ensures front { result ≡ slice_get self.old 0 }
        ensures rest { self.new ≡ drop 1 self.old }
    {
        let front = self.batches.pop_front()?;
        self.room = front.items().len();
        if front.is_marked() {
            self.marked -= 1;
        }
        Some(front)
    }

    /// Takes the front batch away where its delivery timeout is over at the moment `now`.
    #[tactic(auto, unfolding(crate::specs::Ready::expired, crate::specs::Ready::unexpired))]
    pub fn expire(&mut self, config: &Config, now: u64) -> Option<Pending>
        ensures front { result ≡ expired config.now now self.old }
        ensures rest { self.new ≡ unexpired config.now now self.old }
    {
        if self.front()?.is_late(config, now) {
            self.take_front()
        } else {
            None
        }
    }

    /// Marks all batches. Each batch is marked once, however often this is called.
    pub fn mark(&mut self)
        ensures { self.new ≡ map marked_by_flush self.old }
    {
        let len = self.batches.len();
        for k in self.marked..len {
            self.batches[k].mark();
        }
        self.marked = len;
    }

    /// How many batches are marked.
    pub fn marked(&self) -> usize
        ensures { result ≡ marked_in self.now }
    {
        self.marked
    }
}
