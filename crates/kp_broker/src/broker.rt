//! A broker of one topic, which answers as each node of a cluster.

ghost use Rattle.std.specs.Prelude.{◌≡◌, ◌≤◌, length, replicate, slice_get, IfOk};
ghost use Rattle.std.specs.Option.{option_copied};
ghost use Rattle.kp_log.specs.Log.{empty};
ghost use Rattle.kp_broker.specs.Broker.{clustered, opened, NODE_LIMIT, TOPIC_LIMIT, PARTITION_LIMIT};

mod appending;
mod describing;
mod giving;
mod leading;
mod responding;

use self::leading::first_leaders;
use crate::fault::BrokerFault;
use kp_frames::{RequestBody, read_request};
use kp_log::PartitionLog;
use kp_wire::Text;
use std::alloc::{AllocError, Global};
use std::marker::Model;

/// The first producer id that a broker gives.
const FIRST_PRODUCER_ID: u64 = 1000;

/// A broker of one topic, which keeps the logs of its partitions in memory and gives producer ids. It answers as each
/// node of a cluster, with one set of logs; a node is its place among the ports.
#[derive(Debug, Drop)]
pub struct Broker {
    alloc: Global,
    topic: Text,
    ports: Vec<u16>,
    leaders: Vec<u16>,
    logs: Vec<PartitionLog>,
    next_id: u64,
    produced: u64,
}

impl Model for Broker {
    ghost use Rattle.kp_broker.specs.Broker.{Broker, IsSound};

    ghost Value = { Broker };

    ghost view = { λ b. record {
      topic = b.topic;
      ports = b.ports.items;
      leaders = b.leaders.items;
      logs = b.logs.items;
      next_id = b.next_id;
      produced = b.produced;
    } };

    ghost invariant = { λ b. IsSound b.topic b.ports.items b.leaders.items b.logs.items };
}

impl Broker {
    ghost use Rattle.kp_broker.specs.Broker.{counted};
    ghost use Rattle.kp_broker.specs.Answering.{Answers, AnswersAs};

    /// A broker of this topic, with so many partitions, whose one node listens at this port. Its logs are empty.
    pub fn new(alloc: Global, topic: &str, partitions: u32, port: u16) -> Result<Broker, AllocError>
        requires name { length topic.now ≤ TOPIC_LIMIT }
        requires some_partitions { 1 ≤ partitions }
        requires few_partitions { partitions ≤ PARTITION_LIMIT }
        ensures { IfOk result (λ broker. broker ≡ opened topic.now partitions port) }
    {
        Broker::cluster(alloc, topic, partitions, &[port])
    }

    /// A broker of this topic, with so many partitions, whose nodes listen at these ports and lead the partitions in turn.
    /// Its logs are empty.
    pub fn cluster(
        alloc: Global,
        topic: &str,
        partitions: u32,
        ports: &[u16],
    ) -> Result<Broker, AllocError>
        requires name { length topic.now ≤ TOPIC_LIMIT }
        requires some_partitions { 1 ≤ partitions }
        requires few_partitions { partitions ≤ PARTITION_LIMIT }
        requires some_nodes { 1 ≤ length ports.now }
        requires few_nodes { length ports.now ≤ NODE_LIMIT }
        ensures { IfOk result (λ broker. broker ≡ clustered topic.now partitions ports.now) }
    {
        let topic = Text::from_str(alloc, topic)?;
        let leaders = first_leaders(alloc, partitions, ports)?;
        let ports = ports.to_vec(alloc)?;
        let logs = empty_logs(alloc, partitions)?;
        Ok(Broker {
            alloc,
            topic,
            ports,
            leaders,
            logs,
            next_id: FIRST_PRODUCER_ID,
            produced: 0,
        })
    }

    /// The log of this partition, if it is there.
    pub fn log(&self, partition: u32) -> Option<&PartitionLog>
        ensures { option_copied result ≡ slice_get self.now.logs partition }
    {
        self.logs.get(partition as usize)
    }

    /// The frame of the first node's answer to a request that is a frame's content, or why there is none. Where the content
    /// is no request, the broker is as it was. Where the answer is too large, or a growth was refused, what the request had
    /// appended by then stays: asked again, a producer gets the offsets of its batches.
    pub fn answer(&mut self, content: &[u8]) -> Result<Vec<u8>, BrokerFault>
        ensures { Answers (λ bytes. bytes.items) content.now self.old result self.new }
    {
        self.answer_as(0, content)
    }

    /// The same as this node. One that is not there leads no partition.
    pub fn answer_as(&mut self, node: u16, content: &[u8]) -> Result<Vec<u8>, BrokerFault>
        ensures { AnswersAs (λ bytes. bytes.items) node content.now self.old result self.new }
    {
        let request = read_request(self.alloc, content)?;
        self.count(&request.body);
        self.respond(node, &request, None)
    }

    /// What memory is taken from.
    pub(crate) fn alloc(&self) -> Global {
        self.alloc
    }

    /// How many Produce requests came.
    pub(crate) fn produced(&self) -> u64
        ensures { result ≡ self.now.produced }
    {
        self.produced
    }

    /// Counts a Produce request.
    pub(crate) fn count(&mut self, body: &RequestBody)
        ensures { self.new ≡ counted body.now self.old }
    {
        if let RequestBody::Produce(_) = body {
            self.produced = self.produced.saturating_add(1);
        }
    }
}

/// The logs of so many partitions, to which nothing was appended.
fn empty_logs(alloc: Global, partitions: u32) -> Result<Vec<PartitionLog>, AllocError>
    ensures { IfOk result (λ logs. logs.items ≡ replicate partitions empty) }
{
    let mut logs = Vec::with_capacity(alloc, partitions as usize)?;
    for _ in 0..partitions {
        logs.push(PartitionLog::new(alloc))?;
    }
    Ok(logs)
}
