//! An item joins the queue of a partition, which has something to do from then on.

ghost use Rattle.std.specs.Prelude.{◌≡◌, ◌≤◌, ◌<◌, ◌++◌, ◌∷◌, ℕ, List, Ok, Some, length, slice_set, vec_capacity, vec_len, OnOk, OnErr};
ghost use Rattle.std.specs.List.{AllByRecursion};
ghost use Rattle.kp_accum.specs.Config.{checked};
ghost use Rattle.kp_accum.specs.Queue.{charge_of};
ghost use Rattle.kp_rules.specs.Appending.{enqueue};
ghost use Rattle.kp_rules.specs.Partitions.{partition_at};

use crate::machine::partitions::Partitions;
use crate::machine::partitions::leaders::put_led;
use kp_accum::{Config, Item};
use kp_batch::SIZE_LIMIT;
use std::alloc::AllocError;

impl Partitions {
    /// Puts the item, which has this charge, last in its partition's queue. Where memory is refused, or no more items can
    /// be counted, it is put into `refused`.
    #[inline(always)]
    pub(crate) fn enqueue(
        &mut self,
        config: &Config,
        charge: u64,
        item: Item,
        refused: &mut Option<Item>,
    ) -> Result<(), AllocError>
        requires there { item.partition < length self.old }
        requires allowed { checked config.now ≡ Ok tt }
        requires is_its { charge ≡ charge_of item }
        requires fits { charge ≤ SIZE_LIMIT }
        ensures ok { OnOk result (self.new ≡
            slice_set self.old item.partition (enqueue config.now item (partition_at item.partition self.old))) }
        ensures err { OnErr result (self.new ≡ self.old) }
        ensures back { OnErr result (refused.new ≡ Some item) }
        ensures still { OnOk result (refused.new ≡ refused.old) }
    {
        let place = item.partition;
        let partition = &mut self.all[place as usize];
        let was_idle = partition.is_idle();
        partition.enqueue(config, charge, item, refused)?;
        if was_idle {
            put_in(&mut self.busy, place);
            put_led(&mut self.by_leader, &self.all, place);
        }
        Ok(())
    }
}

/// The number joins those, which rise, at its place.
fn put_in(places: &mut Vec<u32>, place: u32)
    requires { vec_len places.old < vec_capacity places.old }
    ensures items { (below above : List ℕ) → places.old.items ≡ below ++ above
        → AllByRecursion (λ p. p < place) below → AllByRecursion (λ p. place ≤ p) above
        → places.new.items ≡ below ++ place ∷ above }
    ensures capacity { vec_capacity places.new ≡ vec_capacity places.old }
{
    if places.last().is_none_or(|last| *last < place) {
        places.push_reserved(place);
        return;
    }
    let at = places.partition_point(|other| *other < place);
    // There is room, so it is never refused.
    let _inserted = places.insert(at, place);
}
