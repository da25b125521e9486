//! The nodes of a cluster, and the connections to them.

ghost use Rattle.std.specs.Prelude.{◌≡◌, ◌≤◌, [], length};
ghost use Rattle.kp_cluster.specs.declared.learning.TheConstants.{SLOT_LIMIT};

mod acting;
mod asking;
mod making;

use crate::link::Link;
use kp_cluster::Cluster;
use kp_dial::Dial;
use std::alloc::Global;

/// The nodes of a cluster, and the connections to them.
#[derive(Drop)]
pub(crate) struct Nodes<D, K> {
    pub(crate) cluster: Cluster,
    pub(crate) dial: D,
    /// By node.
    links: Vec<Link<K>>,
    ghost few: { length links.items ≤ SLOT_LIMIT },
}

impl<K: Drop, D: Dial<Dialing = K>> Nodes<D, K> {
    /// With no connection.
    pub(crate) fn new(alloc: Global, dial: D, cluster: Cluster) -> Nodes<D, K>
        ensures cluster { result.cluster ≡ cluster }
        ensures links { result.links.items ≡ [] }
    {
        Nodes {
            cluster,
            dial,
            links: Vec::new(alloc),
        }
    }

    /// Begins to make a connection to the node's address.
    fn dial(&mut self, node: u32) -> Option<K>
        ensures cluster { self.new.cluster ≡ self.old.cluster }
        ensures links { self.new.links.items ≡ self.old.links.items }
    {
        let Some((host, port)) = self.cluster.address(node) else {
            return None;
        };
        self.dial.dial(host, port)
    }
}
