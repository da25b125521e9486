//! A batch that waits to be sent.

ghost use Rattle.std.specs.Prelude.{◌≡◌, ◌≤◌, ◌<◌, ◌++◌, ◌∷◌, [], length, Ok, Some, IfSome, OnOk, OnErr, is_some, sum_by, vec_capacity, vec_len};
ghost use Rattle.kp_accum.specs.Config.{checked};
ghost use Rattle.kp_accum.specs.Queue.{size_of, charge_of, joins, joined_by, begun_by, marked_by_flush};
ghost use Rattle.kp_accum.specs.Ready.{is_over, is_full, is_late};
ghost use Rattle.kp_accum.specs.Measured.{IsMeasured};

use crate::config::Config;
use crate::item::Item;
use kp_batch::{SIZE_LIMIT, size_with};
use std::alloc::AllocError;
use std::marker::Model;

/// A batch that waits to be sent: some items, the moment at which the first of them was accepted, and a flush's mark.
#[derive(Debug, Drop)]
pub struct Pending {
    begun: u64,
    items: Vec<Item>,
    size: u64,
    charge: u64,
    marked: bool,
}

impl Model for Pending {
    ghost use Rattle.kp_accum.specs.Queue as queue;
    ghost use Rattle.kp_accum.specs.Measured.{IsMeasured};

    ghost Value = { queue.Pending };

    ghost view = { λ b. record { begun = b.begun; items = b.items.items; marked = b.marked } };

    ghost invariant = { λ b. IsMeasured b.size b.charge b.items.items };
}

/// Whether so long has passed since then. The sum does not wrap.
#[inline]
#[tactic(auto, unfolding(crate::specs::Ready::is_over))]
fn is_over(since: u64, wait: u64, now: u64) -> bool
    ensures { result ≡ is_over since wait now }
{
    since <= now && wait <= now - since
}

impl Pending {
    /// When its first item was accepted, in milliseconds of the caller's clock.
    pub fn begun(&self) -> u64
        ensures { result ≡ self.now.begun }
    {
        self.begun
    }

    /// Its items, in the order in which they were appended.
    pub fn items(&self) -> &[Item]
        ensures value { result.now ≡ self.now.items }
        ensures some { 0 < length self.now.items }
    {
        self.items.as_slice()
    }

    /// The size of the batch, in bytes.
    pub fn size(&self) -> u64
        ensures value { result ≡ size_of self.now.items }
        ensures fits { result ≤ SIZE_LIMIT }
    {
        self.size
    }

    /// The memory that its items take: the sum of their charges.
    pub fn charge(&self) -> u64
        ensures { result ≡ sum_by charge_of self.now.items }
    {
        self.charge
    }

    /// Whether a flush waits for it.
    pub fn is_marked(&self) -> bool
        ensures { result ≡ self.now.marked }
    {
        self.marked
    }

    /// Its items, without a copy.
    pub fn into_items(self) -> Vec<Item>
        ensures value { result.items ≡ self.items }
        ensures some { 0 < length self.items }
    {
        let Pending { items, .. } = self;
        items
    }

    /// A batch that this item begins, which has this charge. The memory for its items has room for this one at least.
    #[inline(always)]
    pub(crate) fn begun_by(mut items: Vec<Item>, charge: u64, item: Item) -> Pending
        requires none { items.items ≡ [] }
        requires room { vec_len items < vec_capacity items }
        requires is_its { charge ≡ charge_of item }
        requires fits { charge ≤ SIZE_LIMIT }
        ensures { result ≡ begun_by item }
    {
        let begun = item.at;
        items.push_reserved(item);
        Pending {
            begun,
            items,
            size: charge,
            charge,
            marked: false,
        }
    }

    /// Its size with the item, where the item joins it.
    #[inline(always)]
    pub(crate) fn size_with(&self, config: &Config, item: &Item) -> Option<u64>
        requires { checked config.now ≡ Ok tt }
        ensures joins { is_some result ≡ joins config.now item.now self.now }
        ensures size { IfSome result (λ size. (size ≡ size_of (self.now.items ++ item.now ∷ [])) × (size ≤ SIZE_LIMIT)) }
    {
        if self.items.len() as u64 >= config.sequence_limit {
            return None;
        }
        let size = size_with(self.size, self.items.as_slice(), &item.body);
        if size <= config.batch_size {
            Some(size)
        } else {
            None
        }
    }

    /// Puts the item last, where the size with it is this, and it has this charge. Where memory is refused, it is put into
    /// `refused`.
    #[inline(always)]
    pub(crate) fn join(
        &mut self,
        size: u64,
        charge: u64,
        item: Item,
        refused: &mut Option<Item>,
    ) -> Result<(), AllocError>
        requires size_is { size ≡ size_of (self.old.items ++ item ∷ []) }
        requires size_fits { size ≤ SIZE_LIMIT }
        requires charge_is { charge ≡ charge_of item }
        requires charge_fits { charge ≤ SIZE_LIMIT }
        ensures ok { OnOk result (self.new ≡ joined_by item self.old) }
        ensures err { OnErr result (self.new ≡ self.old) }
        ensures back { OnErr result (refused.new ≡ Some item) }
        ensures still { OnOk result (refused.new ≡ refused.old) }
        ensures mark { self.new.marked ≡ self.old.marked }
    {
        if self.items.reserve(1).is_err() {
            *refused = Some(item);
            return Err(AllocError);
        }
        self.items.push_reserved(item);
        self.size = size;
        self.charge += charge;
        Ok(())
    }

    pub(crate) fn is_full(&self, config: &Config) -> bool
        ensures { result ≡ is_full config.now self.now }
    {
        config.batch_size <= self.size
    }

    /// Whether it has waited for more records as long as it may.
    #[tactic(auto, unfolding(crate::specs::Ready::is_over))]
    pub(crate) fn has_lingered(&self, config: &Config, now: u64) -> bool
        ensures { result ≡ is_over self.now.begun config.now.linger_ms now }
    {
        is_over(self.begun, config.linger_ms, now)
    }

    /// Whether its delivery timeout is over.
    #[tactic(auto, unfolding(crate::specs::Ready::is_late))]
    pub(crate) fn is_late(&self, config: &Config, now: u64) -> bool
        ensures { result ≡ is_late config.now now self.now }
    {
        is_over(self.begun, config.delivery_timeout_ms, now)
    }

    pub(crate) fn mark(&mut self)
        ensures { self.new ≡ marked_by_flush self.old }
    {
        self.marked = true;
    }
}
