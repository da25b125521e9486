//! Who leads the partitions, as the core is told.

ghost use Rattle.std.specs.Prelude.{◌≡◌};
ghost use Rattle.kp_embed.specs.Going.{Becomes};
ghost use Rattle.kp_embed.specs.Hearing.{leads, told_leader};
ghost use Rattle.kp_cluster.specs.Cluster.{leader_of};

use kp_cluster::Cluster;
use kp_core::Core;

/// The node of a partition without a leader. There is no connection to it.
const NOBODY: u32 = u32::MAX;

/// The core is told of each of the first partitions who leads it.
pub(crate) fn lead_all(core: &mut Core, cluster: &Cluster, count: u32, now: u64)
    ensures { Becomes core.old (leads now cluster.now count) core.new }
{
    for partition in 0..count {
        core.lead(partition, leader_of(cluster, partition), now);
    }
}

fn leader_of(cluster: &Cluster, partition: u32) -> u32
    ensures { result ≡ told_leader (leader_of partition cluster.now) }
{
    cluster.leader(partition).unwrap_or(NOBODY)
}

/// The connections of the nodes that lead a partition with something to do are wanted.
pub(crate) fn want_all(core: &Core, cluster: &mut Cluster)
    ensures { cluster.new.leaders ≡ cluster.old.leaders }
{
    for partition in core.busy() {
        if let Some(node) = cluster.leader(*partition) {
            cluster.want(node);
        }
    }
}
