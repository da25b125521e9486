//! What the answer to Metadata says of the cluster.

ghost use Rattle.std.specs.Prelude.{◌≡◌, true, IfOk, None, replicate};
ghost use Rattle.kp_hello.specs.Chart.{Gives, brokers_of, chart_given, chart_judged, is_listed, leader_of, leaders_of, node_of, nodes_of, seen};
ghost use Rattle.kp_hello.specs.Hello.{are_numbered};

use crate::chart::{Chart, Node};
use crate::fault::HandshakeFault;
use crate::judging::{judge_partitions, place_of};
use kp_frames::{Api, Broker, PartitionMetadata, Response, ResponseBody, read_response};
use kp_wire::Text;
use std::alloc::{AllocError, Global};

/// Where a partition has no leader now (protocol guide, "Error Codes": LEADER_NOT_AVAILABLE).
const NO_LEADER: i16 = 5;

/// What the cluster looks like, by the content of the answer to Metadata. Brokers whose port is none are left out.
pub fn read_chart(alloc: Global, topic: &Text, content: &[u8]) -> Result<Chart, HandshakeFault>
    ensures { Gives seen result (chart_given topic.now content.now) }
{
    let response = read_response(alloc, Api::Metadata, content)?;
    judge_chart(alloc, topic, &response)
}

/// What it looks like, by the answer to Metadata.
#[tactic(auto, unfolding(crate::specs::Chart::chart_judged))]
fn judge_chart(alloc: Global, topic: &Text, response: &Response) -> Result<Chart, HandshakeFault>
    ensures { Gives seen result (chart_judged topic.now response.now) }
{
    let partitions = judge_partitions(topic, response)?;
    let nodes = nodes_of(alloc, brokers_of(&response.body))?;
    let leaders = leaders_of(alloc, nodes.as_slice(), partitions)?;
    Ok(Chart { nodes, leaders })
}

fn brokers_of(body: &ResponseBody) -> &[Broker]
    ensures { result.now ≡ brokers_of body.now }
{
    match body {
        ResponseBody::Metadata(metadata) => metadata.brokers.as_slice(),
        ResponseBody::Produce(_) => &[],
        ResponseBody::InitProducerId(_) => &[],
    }
}

fn nodes_of(alloc: Global, brokers: &[Broker]) -> Result<Vec<Node>, AllocError>
    ensures { IfOk result (λ nodes. nodes.items ≡ nodes_of brokers.now) }
{
    let mut nodes = Vec::with_capacity(alloc, brokers.len())?;
    for broker in brokers {
        if let Some(node) = node_of(alloc, broker)? {
            nodes.push(node)?;
        }
    }
    Ok(nodes)
}

fn node_of(alloc: Global, broker: &Broker) -> Result<Option<Node>, AllocError>
    ensures { IfOk result (λ node. node ≡ node_of broker.now) }
{
    if broker.port < 1 || broker.port > u16::MAX as i32 {
        return Ok(None);
    }
    Ok(Some(Node {
        id: broker.node_id,
        host: Text::from_str(alloc, broker.host.as_str())?,
        port: broker.port as u16,
    }))
}

/// Who leads each partition, by its number.
fn leaders_of(
    alloc: Global,
    nodes: &[Node],
    partitions: &[PartitionMetadata],
) -> Result<Vec<Option<i32>>, AllocError>
    requires { are_numbered partitions.now ≡ true }
    ensures { IfOk result (λ leaders. leaders.items ≡ leaders_of nodes.now partitions.now) }
{
    let count = partitions.len();
    let mut leaders = no_leaders(alloc, count)?;
    for partition in partitions {
        if let Some(place) = place_of(partition, count) {
            leaders[place] = leader_of(nodes, partition);
        }
    }
    Ok(leaders)
}

fn no_leaders(alloc: Global, count: usize) -> Result<Vec<Option<i32>>, AllocError>
    ensures { IfOk result (λ leaders. leaders.items ≡ replicate count None) }
{
    let mut leaders = Vec::with_capacity(alloc, count)?;
    for _ in 0..count {
        leaders.push(None)?;
    }
    Ok(leaders)
}

fn leader_of(nodes: &[Node], partition: &PartitionMetadata) -> Option<i32>
    ensures { result ≡ leader_of nodes.now partition.now }
{
    if partition.error_code == NO_LEADER || partition.leader < 0 {
        return None;
    }
    if !is_listed(nodes, partition.leader) {
        return None;
    }
    Some(partition.leader)
}

fn is_listed(nodes: &[Node], id: i32) -> bool
    ensures { result ≡ is_listed nodes.now id }
{
    nodes.iter().any(|node| node.id == id)
}
