//! A request as bytes: the whole frame of its message (protocol guide, "Produce API" and "InitProducerId API").

ghost use Rattle.std.specs.Prelude.{◌≡◌, ◌<◌, ◌≤◌, ◌^◌, ℕ, length, map, pos, Some, IfOk};
ghost use Rattle.std.specs.List.{AllByRecursion};
ghost use Rattle.std.specs.Str.{IsUtf8};
ghost use Rattle.kp_accum.specs.declared.config.Config.{Config as Configuration};
ghost use Rattle.kp_frames.specs.Request.{FitsRequest, spelling};
ghost use Rattle.kp_frames.specs.Stream.{frame};
ghost use Rattle.kp_rules.specs.Records as seen;
ghost use Rattle.kp_rules.specs.Framing.{data_of, body_for, frame_of, FitsPacket};
ghost use Rattle.kp_parts.specs.Written.{IsWritable, produce_packet, id_packet};

use crate::sending::Sending;
use kp_accum::Config;
use kp_frames::{
    CONTENT_LIMIT, FrameFault, InitProducerIdRequest, PartitionProduceData, ProduceRequest,
    Request, RequestBody, TopicProduceData, write_request,
};
use kp_rules::Names;
use kp_wire::{Blob, Seq, Text};
use std::alloc::{AllocError, Global};

/// An answer comes once all replicas in sync have the batches.
const ACKS: i16 = -1;

/// In milliseconds, the longest that can be said: there are no transactions.
const TRANSACTION_TIMEOUT: i32 = i32::MAX;

/// What the message says of the batches, in their order.
fn data_of_all(
    alloc: Global,
    sendings: &[Sending<'_>],
) -> Result<Seq<PartitionProduceData>, AllocError>
    requires { AllByRecursion IsWritable sendings.now }
    ensures { IfOk result (λ all. all ≡ map data_of sendings.now) }
{
    let mut all = Vec::with_capacity(alloc, sendings.len())?;
    for sending in sendings {
        all.push(sending.partition_data(alloc)?)?;
    }
    Ok(Seq::new(all))
}

/// What a request for these batches asks for.
fn produce_body(
    alloc: Global,
    config: &Config,
    names: &Names,
    sendings: &[Sending<'_>],
) -> Result<RequestBody, AllocError>
    requires timeout { config.now.request_timeout_ms < 2 ^ 31 }
    requires batches { AllByRecursion IsWritable sendings.now }
    ensures { IfOk result (λ body.
        body ≡ body_for config.now names.now (seen.Produce sendings.now)) }
{
    let topic = TopicProduceData {
        topic: Text::from_str(alloc, names.topic.as_str())?,
        partitions: data_of_all(alloc, sendings)?,
    };
    Ok(RequestBody::Produce(ProduceRequest {
        transactional_id: None,
        acks: ACKS,
        timeout_ms: config.request_timeout_ms as i32,
        topics: Seq::new(vec![in alloc; topic]?),
    }))
}

/// This client's message.
fn message_with(
    alloc: Global,
    names: &Names,
    correlation: u32,
    body: RequestBody,
) -> Result<Request, AllocError>
    requires { correlation < 2 ^ 31 }
    ensures value { IfOk result (λ m. m ≡ record {
      correlation = pos correlation;
      client = Some names.now.client;
      body = body;
    }) }
    ensures utf8 { IfOk result (λ _. IsUtf8 names.now.client) }
{
    Ok(Request {
        correlation: correlation as i32,
        client: Some(Text::from_str(alloc, names.client.as_str())?),
        body,
    })
}

/// The frame of a message that fits: memory alone can be refused.
fn frame_with(alloc: Global, message: &Request) -> Result<Blob, AllocError>
    requires message { FitsRequest message.now }
    requires content { length (spelling message.now) ≤ CONTENT_LIMIT }
    ensures { IfOk result (λ bytes. bytes ≡ frame.spell (spelling message.now)) }
{
    match write_request(alloc, message) {
        Ok(bytes) => Ok(Blob::new(bytes)),
        Err(FrameFault::OutOfMemory) => Err(AllocError),
        Err(_) => unreachable!(),
    }
}

/// The frame of a request for these batches, each of which is copied once, into the frame. The message fits a frame, as
/// that of a producer's request always does.
pub fn produce_frame(
    alloc: Global,
    config: &Config,
    names: &Names,
    correlation: u32,
    sendings: &[Sending<'_>],
) -> Result<Blob, AllocError>
    requires { FitsPacket config.now names.now (produce_packet correlation sendings.now) }
    ensures { IfOk result (λ bytes.
        bytes ≡ frame_of config.now names.now (produce_packet correlation sendings.now)) }
{
    let body = produce_body(alloc, config, names, sendings)?;
    let message = message_with(alloc, names, correlation, body)?;
    frame_with(alloc, &message)
}

/// The frame of a request for a fresh producer id: the same under each configuration, and for each partition.
pub fn id_frame(alloc: Global, names: &Names, correlation: u32) -> Result<Blob, AllocError>
    requires correlation { correlation < 2 ^ 31 }
    requires client { length names.now.client < 2 ^ 15 }
    ensures { IfOk result (λ bytes. (c : Configuration) (partition : ℕ) →
        bytes ≡ frame_of c names.now (id_packet correlation partition)) }
{
    let body = RequestBody::InitProducerId(InitProducerIdRequest {
        transactional_id: None,
        transaction_timeout_ms: TRANSACTION_TIMEOUT,
    });
    let message = message_with(alloc, names, correlation, body)?;
    frame_with(alloc, &message)
}
