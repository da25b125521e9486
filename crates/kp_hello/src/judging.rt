//! What a broker's answers give.

ghost use Rattle.std.specs.Prelude.{◌≡◌, ◌<◌, ◌≤◌, ◌^◌, ℕ, true, pos, IfOk, IfSome, IfNone};
ghost use Rattle.kp_hello.specs.Hello.{are_numbered, partitions_judged, metadata_judged, producer_id_judged, metadata_given, producer_id_given, UnlessMemory, only_topic, topics_of};
ghost use Rattle.kp_wire.specs.Reading.{IsRead};

use crate::fault::HandshakeFault;
use crate::hello::PARTITION_LIMIT;
use kp_frames::{
    Api, InitProducerIdResponse, PartitionMetadata, Response, ResponseBody, TopicMetadata,
    read_response,
};
use kp_wire::Text;
use std::alloc::Global;

/// The correlation id of the Metadata request.
pub const METADATA_CORRELATION: i32 = 0;

/// The correlation id of the InitProducerId request.
pub const PRODUCER_ID_CORRELATION: i32 = 1;

/// How many partitions the topic has, by the content of the answer to Metadata.
pub fn read_metadata(alloc: Global, topic: &Text, content: &[u8]) -> Result<u32, HandshakeFault>
    ensures given { UnlessMemory result (metadata_given topic.now content.now) }
    ensures some { IfOk result (λ n. 1 ≤ n) }
    ensures limit { IfOk result (λ n. n ≤ 1024) }
{
    let response = read_response(alloc, Api::Metadata, content)?;
    judge_metadata(topic, &response)
}

/// The producer id, by the content of the answer to InitProducerId.
pub fn read_producer_id(alloc: Global, content: &[u8]) -> Result<u64, HandshakeFault>
    ensures given { UnlessMemory result (producer_id_given content.now) }
    ensures known { IfOk result (λ id. id < 2 ^ 63) }
{
    let response = read_response(alloc, Api::InitProducerId, content)?;
    judge_producer_id(&response)
}

/// How many partitions the topic has, by the answer to Metadata.
#[tactic(auto, unfolding(crate::specs::Hello::metadata_judged))]
fn judge_metadata(topic: &Text, response: &Response) -> Result<u32, HandshakeFault>
    ensures judged { result ≡ metadata_judged topic.now response.now }
    ensures some { IfOk result (λ n. 1 ≤ n) }
    ensures limit { IfOk result (λ n. n ≤ 1024) }
{
    let partitions = judge_partitions(topic, response)?;
    Ok(partitions.len() as u32)
}

/// The topic's partitions, by the answer to Metadata: from 1 to `PARTITION_LIMIT`, with the numbers from 0 on in any order.
#[tactic(auto, unfolding(crate::specs::Hello::partitions_judged))]
pub(crate) fn judge_partitions<'a>(
    topic: &Text,
    response: &'a Response,
) -> Result<&'a [PartitionMetadata], HandshakeFault>
    ensures judged { IsRead (λ partitions. partitions.now) result (partitions_judged topic.now response.now) }
    ensures numbered { IfOk result (λ partitions. are_numbered partitions.now ≡ true) }
{
    if response.correlation != METADATA_CORRELATION {
        return Err(HandshakeFault::BadAnswer);
    }
    let topic = only_topic(topic, &response.body)?;
    if topic.error_code != 0 {
        return Err(HandshakeFault::Refused(topic.error_code));
    }
    let partitions = topic.partitions.as_slice();
    if !are_numbered(partitions) {
        return Err(HandshakeFault::BadAnswer);
    }
    Ok(partitions)
}

/// The one topic of an answer to Metadata, which has this name.
fn only_topic<'a>(name: &Text, body: &'a ResponseBody) -> Result<&'a TopicMetadata, HandshakeFault>
    ensures { IsRead (λ topic. topic.now) result (only_topic name.now (topics_of body.now)) }
{
    let ResponseBody::Metadata(metadata) = body else {
        return Err(HandshakeFault::BadAnswer);
    };
    match metadata.topics.as_slice() {
        [only] if only.name.as_str() == name.as_str() => Ok(only),
        _ => Err(HandshakeFault::BadAnswer),
    }
}

/// Whether there are from 1 to `PARTITION_LIMIT` partitions, and their numbers are those from 0 on, in any order.
fn are_numbered(partitions: &[PartitionMetadata]) -> bool
    ensures { result ≡ are_numbered partitions.now }
{
    let count = partitions.len();
    if count == 0 || count > PARTITION_LIMIT {
        return false;
    }
    let mut seen = [false; PARTITION_LIMIT];
    for partition in partitions {
        let Some(place) = place_of(partition, count) else {
            return false;
        };
        if seen[place] {
            return false;
        }
        seen[place] = true;
    }
    true
}

/// The partition's number, where it is below how many there are.
pub(crate) fn place_of(partition: &PartitionMetadata, count: usize) -> Option<usize>
    ensures some { IfSome result (λ place. (partition.now.partition ≡ pos place) × (place < count)) }
    ensures none { IfNone result ((k : ℕ) → k < count → partition.now.partition ≡ pos k → ⊥) }
{
    let number = partition.partition;
    if number < 0 || number as usize >= count {
        return None;
    }
    Some(number as usize)
}

/// The producer id, by the answer to InitProducerId.
#[tactic(auto, unfolding(crate::specs::Hello::producer_id_judged))]
fn judge_producer_id(response: &Response) -> Result<u64, HandshakeFault>
    ensures judged { result ≡ producer_id_judged response.now }
    ensures known { IfOk result (λ id. id < 2 ^ 63) }
{
    if response.correlation != PRODUCER_ID_CORRELATION {
        return Err(HandshakeFault::BadAnswer);
    }
    let ResponseBody::InitProducerId(given) = &response.body else {
        return Err(HandshakeFault::BadAnswer);
    };
    if given.error_code != 0 {
        return Err(HandshakeFault::Refused(given.error_code));
    }
    if given.producer_id < 0 || given.producer_epoch != 0 {
        return Err(HandshakeFault::BadAnswer);
    }
    Ok(given.producer_id as u64)
}
