//! Where a service's brokers are.

use crate::again::Again;
use crate::connecting::Way;
use kp_cluster::Cluster;
use kp_core::Names;

/// Where a service's brokers are.
#[derive(Drop)]
pub(crate) enum Brokers {
    /// The only one, to which connections are made as often as a policy has it.
    One(Way, Again),
    /// A cluster's, to each of which connections are made as often as it takes, and what is said to them of the producer.
    Cluster(Cluster, Names),
}
