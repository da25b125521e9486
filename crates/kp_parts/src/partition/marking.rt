//! A flush's marks on the batches of a partition.

ghost use Rattle.std.specs.Prelude.{◌≡◌, map, vec_capacity};
ghost use Rattle.std.specs.List.{list_any};
ghost use Rattle.kp_rules.specs.Flush.{has_marks, mark, mark_open};

use crate::open::Open;
use crate::partition::Partition;

impl Partition {
    /// A flush waits for all that is queued or open.
    pub fn mark(&mut self)
        ensures { self.new ≡ mark self.old }
    {
        self.queue.mark();
        mark_all(&mut self.open_batches);
    }

    /// Whether a flush waits for one of its batches.
    #[inline]
    pub fn has_marks(&self) -> bool
        ensures { result ≡ has_marks self.now }
    {
        if self.is_idle() {
            return false;
        }
        self.is_awaited()
    }

    /// The same, where something waits.
    fn is_awaited(&self) -> bool
        ensures { result ≡ has_marks self.now }
    {
        self.queue.marked() > 0 || any_marked(&self.open_batches)
    }
}

fn mark_all(open_batches: &mut Vec<Open>)
    ensures items { open_batches.new.items ≡ map mark_open open_batches.old.items }
    ensures capacity { vec_capacity open_batches.new ≡ vec_capacity open_batches.old }
{
    for place in 0..open_batches.len() {
        let open = &mut open_batches[place];
        open.mark();
    }
}

fn any_marked(open_batches: &[Open]) -> bool
    ensures { result ≡ list_any (λ o. o.marked) open_batches.now }
{
    open_batches.iter().any(|open| open.is_marked())
}
