//! A Produce request's parts are taken, each by the log of its partition.

ghost use Rattle.std.specs.Prelude.{◌≡◌, ◌<◌, ◌^◌, pos, negsuc, nat_abs, length, slice_get, IfOk, IfErr, OnOk, OnErr, IfSome, IfNone, MatchResult};
ghost use Rattle.kp_batch.specs.Reading.{batch_at};
ghost use Rattle.kp_frames.specs.Produce.{produce_request, topic_data, produce_response, topic_response, partition_response};
ghost use Rattle.kp_log.specs.BrokerStep.{answered, error_of};
ghost use Rattle.kp_broker.specs.Answers.{after_parts, code_by, entry_of, is_idempotent, log_for, offered_by, part_answer, part_in, parts_in, parts_of, produce_answer, taken, topic_answer};
ghost use Rattle.kp_broker.specs.Answering.{TakesSome};

use crate::broker::Broker;
use crate::fault::BrokerFault;
use kp_frames::{
    PartitionProduceData, PartitionProduceResponse, ProduceRequest, ProduceResponse,
    TopicProduceData, TopicProduceResponse,
};
use kp_log::{Answer, LogFault, PartitionLog, Whim};
use kp_wire::{Seq, Text};

/// The acks of a request that waits for all replicas.
const ALL_REPLICAS: i16 = -1;

/// Kafka's UNKNOWN_TOPIC_OR_PARTITION.
const UNKNOWN_TOPIC_OR_PARTITION: i16 = 3;

/// Kafka's NOT_LEADER_OR_FOLLOWER.
const NOT_LEADER_OR_FOLLOWER: i16 = 6;

/// Kafka's INVALID_REQUEST.
const INVALID_REQUEST: i16 = 42;

impl Broker {
    /// Takes the parts of a request to a node, one after the other, and says what became of them. An `Err` leaves those that
    /// were taken by then.
    pub(super) fn take_all(
        &mut self,
        node: u16,
        request: &ProduceRequest,
        whim: Option<Whim>,
    ) -> Result<ProduceResponse, BrokerFault>
        requires { produce_request.Fits request.now }
        ensures answer { IfOk result (λ response. response ≡ produce_answer whim node request.now self.old) }
        ensures fits { IfOk result produce_response.Fits }
        ensures after { OnOk result (self.new ≡ after_parts whim node request.now self.old (parts_of request.now)) }
        ensures fault { IfErr result (λ fault. fault ≡ BrokerFault.OutOfMemory) }
        ensures refused { OnErr result (TakesSome whim node request.now self.old (parts_of request.now) self.new) }
    {
        let mut topics = Vec::with_capacity(self.alloc, request.topics.len())?;
        for topic in request.topics.as_slice() {
            topics.push(self.take_topic(node, request, topic, whim)?)?;
        }
        Ok(ProduceResponse {
            topics: Seq::new(topics),
            throttle_time_ms: 0,
        })
    }

    /// Takes the parts of one topic.
    fn take_topic(
        &mut self,
        node: u16,
        request: &ProduceRequest,
        topic: &TopicProduceData,
        whim: Option<Whim>,
    ) -> Result<TopicProduceResponse, BrokerFault>
        requires { topic_data.Fits topic.now }
        ensures answer { IfOk result (λ answer. answer ≡ topic_answer whim node request.now self.old topic.now) }
        ensures fits { IfOk result topic_response.Fits }
        ensures after { OnOk result (self.new ≡ after_parts whim node request.now self.old (parts_in topic.now)) }
        ensures fault { IfErr result (λ fault. fault ≡ BrokerFault.OutOfMemory) }
        ensures refused { OnErr result (TakesSome whim node request.now self.old (parts_in topic.now) self.new) }
    {
        let name = Text::from_str(self.alloc, topic.topic.as_str())?;
        let mut partitions = Vec::with_capacity(self.alloc, topic.partitions.len())?;
        for part in topic.partitions.as_slice() {
            partitions.push(self.take_part(node, request, &topic.topic, part, whim)?)?;
        }
        Ok(TopicProduceResponse {
            topic: name,
            partitions: Seq::new(partitions),
        })
    }

    /// Takes one part: it is offered to its log, where the request may be, the log is there and the node leads it.
    fn take_part(
        &mut self,
        node: u16,
        request: &ProduceRequest,
        topic: &Text,
        part: &PartitionProduceData,
        whim: Option<Whim>,
    ) -> Result<PartitionProduceResponse, LogFault>
        ensures answer { IfOk result (λ entry.
            entry ≡ part_answer whim node request.now self.old (part_in topic.now part.now)) }
        ensures fits { IfOk result partition_response.Fits }
        ensures after { OnOk result (self.new ≡
            (taken whim node request.now self.old (part_in topic.now part.now)).broker) }
        ensures refused { OnErr result (self.new ≡ self.old) }
    {
        if !is_idempotent(request) {
            return Ok(refused(part.partition, whim, INVALID_REQUEST));
        }
        let Some(place) = self.place_of(topic, part.partition) else {
            return Ok(refused(part.partition, whim, UNKNOWN_TOPIC_OR_PARTITION));
        };
        if !self.leads(node, place) {
            return Ok(entry_of(part.partition, NOT_LEADER_OR_FOLLOWER, -1));
        }
        let log = &mut self.logs[place];
        let answer = offer_to(log, part.records.as_slice(), whim)?;
        Ok(entry_by(part.partition, answer))
    }

    /// Where the log of a topic's partition stands, if it is there.
    fn place_of(&self, topic: &Text, partition: i32) -> Option<usize>
        ensures found { IfSome result (λ place. (partition ≡ pos place) × (place < length self.now.logs)
            × (log_for self.now topic.now partition ≡ slice_get self.now.logs place)) }
        ensures missing { IfNone result (log_for self.now topic.now partition ≡ None) }
    {
        if topic.as_str() != self.topic.as_str() || partition < 0 {
            return None;
        }
        let place = partition as usize;
        if place < self.logs.len() {
            Some(place)
        } else {
            None
        }
    }
}

/// Whether the request is one of an idempotent producer without transactions.
fn is_idempotent(request: &ProduceRequest) -> bool
    ensures { result ≡ is_idempotent request.now }
{
    request.transactional_id.is_none() && request.acks == ALL_REPLICAS
}

/// What the log does with a batch.
fn offer_to(log: &mut PartitionLog, bytes: &[u8], whim: Option<Whim>) -> Result<Answer, LogFault>
    ensures { MatchResult result
        (λ a. offered_by whim log.old (batch_at bytes.now) ≡ record { answer = a; log = log.new })
        (λ _. log.new ≡ log.old) }
{
    match whim {
        None => log.offer(bytes),
        Some(whim) => log.offer_then(bytes, whim),
    }
}

/// The code, or the one that the broker is told to answer.
fn code_by(whim: Option<Whim>, code: i16) -> i16
    ensures { result ≡ code_by whim code }
{
    match whim {
        None => code,
        Some(Whim::Refuse(error) | Whim::Late(error)) => error.get(),
    }
}

/// The entry of a part that no log was asked to take.
fn refused(partition: i32, whim: Option<Whim>, code: i16) -> PartitionProduceResponse
    ensures answer { result ≡ entry_of partition (error_of (code_by whim code)) }
    ensures fits { partition_response.Fits result }
{
    entry_of(partition, code_by(whim, code), -1)
}

#[tactic(auto, unfolding(kp_frames::specs::Produce::partition_response))]
fn entry_of(partition: i32, error_code: i16, base_offset: i64) -> PartitionProduceResponse
    ensures answer { result ≡ entry_of partition (record { code = error_code; base = base_offset }) }
    ensures fits { partition_response.Fits result }
{
    PartitionProduceResponse {
        partition,
        error_code,
        base_offset,
        log_append_time_ms: -1,
    }
}

/// The entry of a part that a log answered.
fn entry_by(partition: i32, answer: Answer) -> PartitionProduceResponse
    ensures answer { result ≡ entry_of partition (answered answer) }
    ensures fits { partition_response.Fits result }
{
    entry_of(partition, answer.code(), answer.base_offset())
}
