//! An event happens.

ghost use Rattle.std.specs.Prelude.{◌≡◌, true, length, nat_lt, OnOk};
ghost use Rattle.kp_replay.specs.Shown.{LeadsOn, is_there};
ghost use Rattle.kp_schedule.specs.Grammar.{MayBeSaid};

use crate::world::World;
use kp_world::Event;
use std::alloc::AllocError;

/// The node of what names none; it leads each partition at first.
const FIRST_NODE: u32 = 0;

impl World {
    /// Whether what the event names is there.
    pub fn is_there(&self, event: &Event) -> bool
        ensures { result ≡ is_there event.now self.now }
    {
        match event {
            Event::Accept {
                sender,
                partition,
                ..
            } => self.has_sender(*sender) && self.has_partition(*partition),
            Event::Take { sender } => self.has_sender(*sender),
            Event::Deliver { packet, .. } => *packet < self.packets.len() as u64,
            Event::Reply { reply } => *reply < self.replies.len() as u64,
            Event::Leader { partition, .. } | Event::Other { partition, .. } => {
                self.has_partition(*partition)
            }
            Event::Now { .. }
            | Event::Tick
            | Event::TickNode { .. }
            | Event::Send
            | Event::SendNode { .. }
            | Event::Drop
            | Event::DropNode { .. }
            | Event::Close
            | Event::End
            | Event::Flush => true,
        }
    }

    fn has_sender(&self, sender: u64) -> bool
        ensures { result ≡ nat_lt sender (length self.now.accepted) }
    {
        sender < self.accepted.len() as u64
    }

    fn has_partition(&self, partition: u64) -> bool
        ensures { result ≡ nat_lt partition (length self.now.logs) }
    {
        partition < self.logs.len() as u64
    }

    /// The event happens.
    pub fn happen(&mut self, event: Event) -> Result<(), AllocError>
        requires may_be { MayBeSaid event }
        requires there { is_there event self.old ≡ true }
        ensures { OnOk result (LeadsOn event self.old self.new) }
    {
        match event {
            Event::Accept {
                sender,
                partition,
                value,
            } => self.accept(sender, partition, value),
            Event::Take { sender } => self.take(sender),
            Event::Now { moment } => self.now(moment),
            Event::Tick => self.tick(FIRST_NODE),
            Event::TickNode { node } => self.tick(node),
            Event::Send => self.send(FIRST_NODE),
            Event::SendNode { node } => self.send(node),
            Event::Deliver { packet, treatment } => self.deliver(packet, treatment),
            Event::Reply { reply } => self.reply(reply),
            Event::Drop => self.drop_connection(FIRST_NODE),
            Event::DropNode { node } => self.drop_connection(node),
            Event::Leader { partition, node } => self.lead(partition, node),
            Event::Other { partition, count } => self.other(partition, count),
            Event::Close => self.close(),
            Event::End => self.end(),
            Event::Flush => self.flush(),
        }
    }
}
