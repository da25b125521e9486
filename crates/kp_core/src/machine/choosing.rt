//! What the next request asks for.

ghost use Rattle.std.specs.Prelude.{◌≡◌, ◌<◌, ℕ, [], not, take, length, min, IfOk, IfErr};
ghost use Rattle.std.specs.List.{AllByRecursion};
ghost use Rattle.kp_rules.specs.Next.{flags_of, fitting, next_asking, next_batches, used_up_to};
ghost use Rattle.kp_rules.specs.Partitions.{is_empty};
ghost use Rattle.kp_core.specs.ByLeader.{work_in};

use crate::machine::Core;
use crate::requests::any_asks_for_id;
use crate::turns::used_up_to;
use kp_accum::Flags;
use kp_parts::{Sending, is_over};
use std::alloc::AllocError;

impl Core {
    /// What makes every front batch ready.
    pub(super) fn flags(&self) -> Flags
        ensures { result ≡ flags_of self.now }
    {
        Flags {
            exhausted: self.exhausted,
            closing: self.closing,
            flushing: !self.flushed(),
        }
    }

    /// The partition for which a fresh producer id is asked for: one of these, which a node leads and which have work.
    pub(super) fn next_asking(&self, places: &[u32], now: u64) -> Option<u32>
        requires { AllByRecursion (λ p. p < length self.now.partitions) places.now }
        ensures { (node : ℕ) → places.now ≡ work_in node self.now.partitions → result ≡ next_asking node now self.now }
    {
        if any_asks_for_id(&self.requests) {
            return None;
        }
        if let Some(since) = self.id_waits {
            if !is_over(since, self.config.retry_backoff_ms, now) {
                return None;
            }
        }
        self.partitions.first_wanting(places, &self.config)
    }

    /// The place of the first partition behind the last one used for this node.
    fn first_in_turn(&self, node: u32) -> usize
        ensures { result ≡ min (used_up_to node self.now.turns) (length self.now.partitions) }
    {
        used_up_to(&self.turns, node).min(self.partitions.len())
    }

    /// The batches of all partitions that may send to this node, cyclically after the last one used for it, as far as
    /// they fit into a request. It takes memory only where there are some.
    pub(super) fn next_batches(&self, node: u32, now: u64) -> Result<Vec<Sending<'_>>, AllocError>
        ensures all { IfOk result (λ sendings. sendings.items ≡ next_batches node now self.now) }
        ensures some { IfErr result (λ e. next_batches node now self.now ≡ [] → ⊥) }
    {
        let flags = self.flags();
        let first = self.first_in_turn(node);
        let mut sendings = Vec::new(self.alloc);
        self.partitions
            .gather_from(&mut sendings, first, node, &self.config, flags, now)?;
        let count = count_fitting(&sendings, self.config.max_request_size);
        sendings.truncate(count);
        Ok(sendings)
    }

    /// Whether there are batches that would go out.
    pub(super) fn has_batches(&self, node: u32, now: u64) -> bool
        ensures { result ≡ not (is_empty (next_batches node now self.now)) }
    {
        match self.next_batches(node, now) {
            Ok(sendings) => !sendings.is_empty(),
            // Memory is asked for only where there are some.
            Err(_) => true,
        }
    }
}

/// How many of them fit into so many bytes, up to the first that does not.
fn count_fitting(sendings: &[Sending<'_>], room: u64) -> usize
    ensures { take result sendings.now ≡ fitting room sendings.now }
{
    let mut left = room;
    for place in 0..sendings.len() {
        let sending = &sendings[place];
        let size = sending.batch.size();
        if size > left {
            return place;
        }
        left -= size;
    }
    sendings.len()
}
