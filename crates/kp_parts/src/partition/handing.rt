//! A batch of a partition goes out.

ghost use Rattle.std.specs.Prelude.{◌≡◌, ◌<◌, ◌^◌, true, None, vec_capacity};
ghost use Rattle.kp_rules.specs.Attempts.{lowest_waiting};
ghost use Rattle.kp_rules.specs.HandingOver.{hand_over_in, send_again_in, send_in, sent_again};
ghost use Rattle.kp_parts.specs.PartitionRooms.{front_fits, has_place};

use crate::audit::audit_all;
use crate::open::Open;
use crate::partition::sending::last_id;
use crate::partition::{OPEN_LIMIT, Partition};

/// How often batches of a partition may go out. No core gets so far, since a correlation id is below 2^31.
const ATTEMPT_LIMIT: u64 = 1 << 63;

/// How many batches of a partition may be handed over. No core gets so far, since a correlation id is below 2^31.
const NUMBER_LIMIT: u64 = 1 << 31;

/// How many sequence numbers there are.
const SEQUENCE_LIMIT: u64 = 1 << 31;

impl Partition {
    /// Whether its counts and its open batches allow that one batch more goes out.
    #[tactic(auto, unfolding(crate::specs::PartitionRooms::has_place))]
    pub fn has_place(&self) -> bool
        ensures { result ≡ has_place self.now }
    {
        self.attempts_sent < ATTEMPT_LIMIT
            && self.open_batches.len() < OPEN_LIMIT
            && self.next_number < NUMBER_LIMIT
            && self.front_fits()
    }

    /// Whether the sequence numbers of the front batch are below those that a broker wraps at.
    fn front_fits(&self) -> bool
        ensures { result ≡ front_fits self.now.next_sequence self.now.queue }
    {
        match self.queue.front() {
            None => true,
            Some(front) => {
                let count = front.items().len() as u64;
                count <= SEQUENCE_LIMIT && self.next_sequence <= SEQUENCE_LIMIT - count
            }
        }
    }

    /// What it may send goes out in this request.
    pub fn send_in(&mut self, correlation: u32)
        requires attempts { self.old.attempts_sent < 2 ^ 63 }
        requires place { lowest_waiting self.old ≡ None → has_place self.old ≡ true }
        ensures { self.new ≡ send_in correlation self.old }
    {
        if self.lowest_waiting().is_some() {
            self.send_again(correlation);
        } else {
            self.hand_over(correlation);
        }
    }

    /// The lowest batch that waits goes out again.
    fn send_again(&mut self, correlation: u32)
        requires { self.old.attempts_sent < 2 ^ 63 }
        ensures { self.new ≡ sent_again correlation self.old }
    {
        send_lowest(&mut self.open_batches, correlation);
        self.attempts_sent += 1;
    }

    /// The front batch goes out for the first time. Its items have their places in the audit since they were queued.
    fn hand_over(&mut self, correlation: u32)
        requires { has_place self.old ≡ true }
        ensures { self.new ≡ hand_over_in correlation self.old self.old.queue }
    {
        let Some(front) = self.queue.take_front() else {
            return;
        };
        let count = front.items().len();
        audit_all(&mut self.audit, front.items());
        self.queued -= count;
        let id = last_id(&self.ids);
        let open = Open::first_sent(self.next_number, id, self.next_sequence, front, correlation);
        self.open_batches.push_reserved(open);
        self.next_number += 1;
        self.next_sequence += count as u64;
        self.attempts_sent += 1;
    }
}

/// The first of the batches that waits goes out again.
fn send_lowest(open_batches: &mut Vec<Open>, correlation: u32)
    ensures items { open_batches.new.items ≡ send_again_in correlation open_batches.old.items }
    ensures capacity { vec_capacity open_batches.new ≡ vec_capacity open_batches.old }
{
    for place in 0..open_batches.len() {
        if open_batches[place].is_waiting() {
            open_batches[place].send_again(correlation);
            return;
        }
    }
}
