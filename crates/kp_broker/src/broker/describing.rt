//! What a broker says of its nodes and its topic.

ghost use Rattle.std.specs.Prelude.{◌≡◌, ◌<◌, ◌≤◌, ◌∷◌, [], length, map, IfOk};
ghost use Rattle.std.specs.List.{AllByRecursion};
ghost use Rattle.kp_broker.specs.Broker.{NODE_LIMIT};
ghost use Rattle.kp_frames.specs.Metadata.{broker, metadata_request, metadata_response};
ghost use Rattle.kp_broker.specs.Answers.{metadata_answer, node_metadata, nodes_metadata, own_topic, partition_metadata, topic_metadata, topics_metadata, unknown_topic};

use crate::broker::Broker;
use kp_frames::{
    Broker as Node, MetadataRequest, MetadataResponse, PartitionMetadata, TopicMetadata,
};
use kp_wire::{Seq, Text};
use std::alloc::{AllocError, Global};

/// The host on which the nodes of a loopback broker listen.
const HOST: &str = "127.0.0.1";

/// The first node.
const CONTROLLER: i32 = 0;

/// Kafka's UNKNOWN_TOPIC_OR_PARTITION.
const UNKNOWN_TOPIC_OR_PARTITION: i16 = 3;

impl Broker {
    /// The cluster, and the topics that are asked for.
    pub(super) fn describe(&self, request: &MetadataRequest) -> Result<MetadataResponse, AllocError>
        requires { metadata_request.Fits request.now }
        ensures answer { IfOk result (λ response. response ≡ metadata_answer self.now request.now) }
        ensures fits { IfOk result metadata_response.Fits }
    {
        Ok(MetadataResponse {
            brokers: describe_nodes(self.alloc, &self.ports)?,
            controller_id: CONTROLLER,
            topics: self.describe_topics(&request.topics)?,
        })
    }

    fn describe_topics(&self, names: &Option<Seq<Text>>) -> Result<Seq<TopicMetadata>, AllocError>
        ensures { IfOk result (λ topics. topics ≡ topics_metadata self.now names.now) }
    {
        match names {
            None => one(self.alloc, self.own_topic()?),
            Some(names) => self.describe_each(names.as_slice()),
        }
    }

    fn describe_each(&self, names: &[Text]) -> Result<Seq<TopicMetadata>, AllocError>
        ensures { IfOk result (λ topics. topics ≡ map (topic_metadata self.now) names.now) }
    {
        let mut topics = Vec::with_capacity(self.alloc, names.len())?;
        for name in names {
            topics.push(self.describe_topic(name)?)?;
        }
        Ok(Seq::new(topics))
    }

    fn describe_topic(&self, name: &Text) -> Result<TopicMetadata, AllocError>
        ensures { IfOk result (λ topic. topic ≡ topic_metadata self.now name.now) }
    {
        if name.as_str() == self.topic.as_str() {
            return self.own_topic();
        }
        Ok(TopicMetadata {
            error_code: UNKNOWN_TOPIC_OR_PARTITION,
            name: Text::from_str(self.alloc, name.as_str())?,
            is_internal: false,
            partitions: Seq::new(Vec::new(self.alloc)),
        })
    }

    fn own_topic(&self) -> Result<TopicMetadata, AllocError>
        ensures { IfOk result (λ topic. topic ≡ own_topic self.now) }
    {
        let mut partitions = Vec::with_capacity(self.alloc, self.logs.len())?;
        for partition in 0..self.logs.len() {
            partitions.push(self.describe_partition(partition)?)?;
        }
        Ok(TopicMetadata {
            error_code: 0,
            name: Text::from_str(self.alloc, self.topic.as_str())?,
            is_internal: false,
            partitions: Seq::new(partitions),
        })
    }

    /// A partition whose leader has the one replica.
    fn describe_partition(&self, partition: usize) -> Result<PartitionMetadata, AllocError>
        requires { partition < length self.now.logs }
        ensures { IfOk result (λ m. m ≡ partition_metadata self.now partition) }
    {
        let leader = i32::from(self.leaders[partition]);
        Ok(PartitionMetadata {
            error_code: 0,
            partition: partition as i32,
            leader,
            replicas: one(self.alloc, leader)?,
            isr: one(self.alloc, leader)?,
        })
    }
}

/// The nodes that listen at these ports.
fn describe_nodes(alloc: Global, ports: &[u16]) -> Result<Seq<Node>, AllocError>
    requires { length ports.now ≤ NODE_LIMIT }
    ensures answer { IfOk result (λ nodes. nodes ≡ nodes_metadata ports.now) }
    ensures fits { IfOk result (λ nodes. AllByRecursion broker.Fits nodes) }
{
    let mut nodes = Vec::with_capacity(alloc, ports.len())?;
    for node in 0..ports.len() {
        nodes.push(describe_node(alloc, ports, node)?)?;
    }
    Ok(Seq::new(nodes))
}

fn describe_node(alloc: Global, ports: &[u16], node: usize) -> Result<Node, AllocError>
    requires there { node < length ports.now }
    requires few { length ports.now ≤ NODE_LIMIT }
    ensures answer { IfOk result (λ n. n ≡ node_metadata ports.now node) }
    ensures fits { IfOk result broker.Fits }
{
    Ok(Node {
        node_id: node as i32,
        host: Text::from_str(alloc, HOST)?,
        port: i32::from(ports[node]),
        rack: None,
    })
}

/// The list of this one element.
fn one<T: Drop>(alloc: Global, item: T) -> Result<Seq<T>, AllocError>
    ensures { IfOk result (λ items. items ≡ item ∷ []) }
{
    let mut items = Vec::with_capacity(alloc, 1)?;
    items.push(item)?;
    Ok(Seq::new(items))
}
