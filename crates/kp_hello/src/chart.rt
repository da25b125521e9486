//! A cluster's nodes, and who leads the partitions of a topic.

ghost use Rattle.std.specs.Prelude.{◌≤◌, length};

use kp_wire::Text;

/// A broker of a cluster, and where it listens.
#[derive(Debug, Drop)]
pub struct Node {
    /// The broker's id, an int32.
    pub id: i32,
    /// An address, or a name that can be looked up.
    pub host: Text,
    pub port: u16,
}

/// What a broker says of its cluster.
#[derive(Debug, Drop)]
pub struct Chart {
    pub nodes: Vec<Node>,
    /// The id of the node that leads each partition of the topic, from partition 0 on; None where there is no leader now, or
    /// it is none of the nodes.
    pub leaders: Vec<Option<i32>>,
    pub ghost some_partitions: { 1 ≤ length leaders.items },
    pub ghost partition_limit: { length leaders.items ≤ 1024 },
}
