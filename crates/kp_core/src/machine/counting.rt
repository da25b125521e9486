//! What is to be seen of a core, and counted, without memory.

ghost use Rattle.std.specs.Prelude.{◌≡◌, ◌<◌, length, min};
ghost use Rattle.std.specs.List.{list_any};
ghost use Rattle.std.specs.Option.{option_copied};
ghost use Rattle.kp_rules.specs.Attempts.{to_node};
ghost use Rattle.kp_rules.specs.Counts.{all_queued, attempts_sent, batches_handed_over, batches_in_flight};
ghost use Rattle.kp_rules.specs.Flush.{is_flushed};
ghost use Rattle.kp_rules.specs.Partitions.{all_untold, partition_at, used};
ghost use Rattle.kp_rules.specs.Requesting.{is_spent};
ghost use Rattle.kp_core.specs.Busy.{busy_in, has_work_for};
ghost use Rattle.kp_core.specs.Requests.{oldest_to};
ghost use Rattle.kp_core.specs.Spent.{can_only_end};

use crate::machine::Core;
use crate::requests::{count_to, first_to};
use kp_accum::Config;
use kp_rules::{Names, Run};

/// The last correlation id: the greatest int32.
const CORRELATION_LIMIT: u32 = 2_147_483_647;

impl Core {
    pub fn config(&self) -> &Config
        ensures { result.now ≡ self.now.config }
    {
        &self.config
    }

    pub fn names(&self) -> &Names
        ensures { result.now ≡ self.now.names }
    {
        &self.names
    }

    /// How many partitions there are.
    pub fn partitions(&self) -> usize
        ensures { result ≡ length self.now.partitions }
    {
        self.partitions.len()
    }

    /// The numbers of the partitions of which something is queued or open, upwards.
    pub fn busy(&self) -> &[u32]
        ensures { result.now ≡ busy_in self.now.partitions }
    {
        self.partitions.busy()
    }

    /// Whether something is queued or open of a partition that this node leads.
    pub fn has_work(&self, node: u32) -> bool
        ensures { result ≡ list_any (has_work_for node) self.now.partitions }
    {
        self.partitions.have_work(node)
    }

    /// How many senders there are.
    pub fn senders(&self) -> usize
        ensures { result ≡ length self.now.reports }
    {
        self.desk.senders()
    }

    pub fn is_closing(&self) -> bool
        ensures { result ≡ self.now.closing }
    {
        self.closing
    }

    pub fn has_ended(&self) -> bool
        ensures { result ≡ self.now.ended }
    {
        self.ended
    }

    /// Whether each correlation id was used, so that no further request can go out.
    pub fn is_spent(&self) -> bool
        ensures { result ≡ is_spent self.now }
    {
        self.correlation > CORRELATION_LIMIT
    }

    /// Whether its end is all that is left: each correlation id was used, nothing that went out is open any more, so that what is
    /// queued can only be given up, and it has not ended.
    pub fn can_only_end(&self) -> bool
        ensures { result ≡ can_only_end self.now }
    {
        !self.ended && self.is_spent() && self.untold() == self.items_queued()
    }

    /// The memory that is used: the charges of the items that are not told.
    pub fn used(&self) -> u64
        ensures { result ≡ used self.now }
    {
        self.desk.used()
    }

    /// How many items were appended and are not told.
    pub fn untold(&self) -> u64
        ensures { result ≡ length (all_untold self.now) }
    {
        self.desk.untold()
    }

    /// How many requests are in flight.
    pub fn requests_in_flight(&self) -> usize
        ensures { result ≡ length self.now.requests }
    {
        self.requests.len()
    }

    /// How many requests are in flight to this node.
    pub fn requests_to(&self, node: u32) -> usize
        ensures { result ≡ length (to_node node self.now.requests) }
    {
        count_to(&self.requests, node)
    }

    /// The moment at which the oldest request went out that is in flight to this node.
    pub fn oldest_to(&self, node: u32) -> Option<u64>
        ensures { result ≡ oldest_to node self.now }
    {
        Some(first_to(&self.requests, node)?.sent())
    }

    /// How many batches await a reply; the greatest number, where there are more.
    #[tactic(auto, unfolding(kp_rules::specs::Counts::batches_in_flight))]
    pub fn batches_in_flight(&self) -> u64
        ensures { result ≡ min (batches_in_flight self.now) u64.MAX }
    {
        let mut sum: u64 = 0;
        for partition in self.partitions.all() {
            sum = sum.saturating_add(partition.batches_in_flight());
        }
        sum
    }

    /// How many batches were handed over; the greatest number, where there were more.
    #[tactic(auto, unfolding(kp_rules::specs::Counts::batches_handed_over))]
    pub fn batches_handed_over(&self) -> u64
        ensures { result ≡ min (batches_handed_over self.now) u64.MAX }
    {
        let mut sum: u64 = 0;
        for partition in self.partitions.all() {
            sum = sum.saturating_add(partition.batches_handed_over());
        }
        sum
    }

    /// How often batches went out, first or again; the greatest number, where it was oftener.
    #[tactic(auto, unfolding(kp_rules::specs::Counts::attempts_sent))]
    pub fn attempts_sent(&self) -> u64
        ensures { result ≡ min (attempts_sent self.now) u64.MAX }
    {
        let mut sum: u64 = 0;
        for partition in self.partitions.all() {
            sum = sum.saturating_add(partition.attempts_sent());
        }
        sum
    }

    /// How many items are queued, in batches that were not handed over; the greatest number, where there are more.
    #[tactic(auto, unfolding(kp_rules::specs::Counts::all_queued))]
    pub fn items_queued(&self) -> u64
        ensures { result ≡ min (all_queued self.now) u64.MAX }
    {
        let mut sum: u64 = 0;
        for partition in self.partitions.all() {
            sum = sum.saturating_add(partition.items_queued() as u64);
        }
        sum
    }

    /// Whether everything that was appended before the last flush is told.
    #[tactic(auto, unfolding(kp_rules::specs::Flush::is_flushed))]
    pub fn flushed(&self) -> bool
        ensures { result ≡ is_flushed self.now }
    {
        !self.partitions.any_marked()
    }

    /// The partition's producer ids, the present one last.
    pub fn ids(&self, partition: u32) -> &[u64]
        requires { partition < length self.now.partitions }
        ensures { result.now ≡ (partition_at partition self.now.partitions).ids }
    {
        self.partitions.at(partition).ids()
    }

    /// The items that were handed over for the partition, in order: neighbours of one sender with successive numbers
    /// are one run. None where no audit is kept.
    pub fn audit(&self, partition: u32) -> Option<&[Run]>
        requires { partition < length self.now.partitions }
        ensures { option_copied result ≡ (partition_at partition self.now.partitions).audit }
    {
        self.partitions.at(partition).audit()
    }
}
