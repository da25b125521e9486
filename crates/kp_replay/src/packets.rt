//! Packets, read as the requests that they are.

ghost use Rattle.std.specs.Prelude.{◌≡◌, drop, IfOk};
ghost use Rattle.kp_frames.specs.declared.request.RequestBody.{RequestBody};
ghost use Rattle.kp_replay.specs.Line.{line_of};
ghost use Rattle.kp_replay.specs.Packets.{AreParts, IsAsked, IsPart, Tells};
ghost use Rattle.kp_replay.specs.Shown.{Each};

use crate::line::{Line, SentPart};
use kp_batch_reading::read_batch;
use kp_frames::{PartitionProduceData, ProduceRequest, RequestBody, read_request};
use kp_wire::Seq;
use std::alloc::{AllocError, Global};

/// How many bytes a frame's size takes.
const SIZE_LENGTH: usize = 4;

/// What stands in a frame.
pub(crate) fn content_of(frame: &[u8]) -> &[u8]
    ensures { result.now ≡ drop 4 frame.now }
{
    &frame[SIZE_LENGTH.min(frame.len())..]
}

/// What a packet asks for. Its frame is that of a request, so that only memory may be wanting.
pub(crate) fn read_packet(alloc: Global, frame: &[u8]) -> Result<RequestBody, AllocError>
    ensures { IfOk result (λ body. IsAsked frame.now body) }
{
    match read_request(alloc, content_of(frame)) {
        Ok(request) => Ok(request.body),
        Err(_) => Err(AllocError),
    }
}

/// What is told of a packet that goes out.
pub(crate) fn sent_line(alloc: Global, packet: u64, frame: &[u8]) -> Result<Line, AllocError>
    ensures { IfOk result (λ line.
        (body : RequestBody) × IsAsked frame.now body × Tells packet body (line_of line)) }
{
    match read_packet(alloc, frame)? {
        RequestBody::Produce(request) => Ok(Line::SentBatches {
            packet,
            parts: sent_parts(alloc, &request)?,
        }),
        RequestBody::InitProducerId(_) | RequestBody::Metadata(_) => Ok(Line::SentInit { packet }),
    }
}

/// The parts of a request, which are for one topic.
fn sent_parts(alloc: Global, request: &ProduceRequest) -> Result<Seq<SentPart>, AllocError>
    ensures { IfOk result (λ parts. AreParts request.now.topics parts) }
{
    match request.topics.as_slice() {
        [topic] => parts_in(alloc, topic.partitions.as_slice()),
        _ => Err(AllocError),
    }
}

/// What is told of the batches of a request.
fn parts_in(alloc: Global, partitions: &[PartitionProduceData]) -> Result<Seq<SentPart>, AllocError>
    ensures { IfOk result (λ parts. Each IsPart partitions.now parts) }
{
    let mut parts = Vec::with_capacity(alloc, partitions.len())?;
    for partition in partitions {
        parts.push(part_of(alloc, partition)?)?;
    }
    Ok(Seq::new(parts))
}

/// A part of a packet. Its bytes are a batch.
fn part_of(alloc: Global, partition: &PartitionProduceData) -> Result<SentPart, AllocError>
    ensures { IfOk result (λ part. IsPart partition.now part) }
{
    match read_batch(alloc, partition.records.as_slice()) {
        Ok(batch) => Ok(SentPart {
            partition: partition.partition.unsigned_abs(),
            sequence: u64::from(batch.head.base_sequence.unsigned_abs()),
            count: batch.records.len() as u64,
        }),
        Err(_) => Err(AllocError),
    }
}
