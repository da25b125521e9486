//! Which node leads which partition.

ghost use Rattle.std.specs.Prelude.{◌≡◌, ◌<◌, ◌≤◌, length, map, IfOk};
ghost use Rattle.std.specs.List.{range_with_len};
ghost use Rattle.kp_broker.specs.Broker.{first_leader, leader_after, leads, moved, NODE_LIMIT};

use crate::broker::Broker;
use std::alloc::{AllocError, Global};

impl Broker {
    /// Whether the node leads the partition.
    pub(super) fn leads(&self, node: u16, partition: usize) -> bool
        requires { partition < length self.now.logs }
        ensures { result ≡ leads node self.now partition }
    {
        self.leaders[partition] == node
    }

    /// All that a node leads goes to another, if that is there.
    pub(crate) fn move_lead(&mut self, node: u16, to: u16)
        ensures { self.new ≡ moved node to self.old }
    {
        if usize::from(to) < self.ports.len() {
            replace(&mut self.leaders, node, to);
        }
    }
}

/// Puts one leader in the place of another.
fn replace(leaders: &mut [u16], node: u16, to: u16)
    ensures { leaders.new ≡ map (leader_after node to) leaders.old }
{
    for leader in leaders.iter_mut() {
        if *leader == node {
            *leader = to;
        }
    }
}

/// Which nodes lead so many partitions at first: in turn.
pub(super) fn first_leaders(
    alloc: Global,
    partitions: u32,
    ports: &[u16],
) -> Result<Vec<u16>, AllocError>
    requires some_nodes { 1 ≤ length ports.now }
    requires few_nodes { length ports.now ≤ NODE_LIMIT }
    ensures { IfOk result (λ leaders. leaders.items ≡ map (first_leader ports.now) (range_with_len 0 partitions)) }
{
    let mut leaders = Vec::with_capacity(alloc, partitions as usize)?;
    for partition in 0..partitions {
        leaders.push((partition as usize % ports.len()) as u16)?;
    }
    Ok(leaders)
}
