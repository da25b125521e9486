//! The broker of a world: what becomes of a request at its logs, and what it answers.

ghost use Rattle.std.specs.Prelude.{◌≡◌, pos, map, IfOk, OnOk};
ghost use Rattle.kp_batch.specs.Reading.{batch_at};
ghost use Rattle.kp_frames.specs.Response.{FitsResponse, spelling};
ghost use Rattle.kp_frames.specs.Stream.{frame};
ghost use Rattle.kp_frames.specs.declared.request.RequestBody.{RequestBody};
ghost use Rattle.kp_log.specs.SequenceRule.{offered};
ghost use Rattle.kp_replay.specs.Line.{answer_part, line_of};
ghost use Rattle.kp_replay.specs.Packets.{IsAsked};
ghost use Rattle.kp_replay.specs.Serving.{AreServed, IsIdServed, IsServed, Serves, batches_body, entries_after, entry_line, entry_of, id_body, logs_after, taken, taken_at, with_taken};
ghost use Rattle.kp_world.specs.Line as line;

use crate::line::{AnswerPart, Line};
use crate::packets::read_packet;
use kp_frames::{
    InitProducerIdResponse, PartitionProduceData, PartitionProduceResponse, ProduceRequest,
    ProduceResponse, RequestBody, Response, ResponseBody, TopicProduceResponse, write_response,
};
use kp_log::{Answer, LogFault, PartitionLog};
use kp_rules::Outgoing;
use kp_wire::{Blob, Seq, Text};
use kp_world::Treatment;
use std::alloc::{AllocError, Global};

/// The first producer id: those that are drawn follow it.
pub(crate) const FIRST_ID: u64 = 1000;

/// The packet comes to the broker, which does with it as it is told; the reply that has this number is its answer.
pub(crate) fn serve(
    alloc: Global,
    logs: &mut [PartitionLog],
    drawn: &mut u64,
    packet: &Outgoing,
    reply: u64,
    treatment: Treatment,
) -> Result<(Blob, Line), AllocError>
    ensures { IfOk result (λ x. Serves treatment reply logs.old drawn.old packet.now
        logs.new drawn.new x.0 (line_of x.1)) }
{
    let frame = packet.bytes.as_slice();
    let (body, line) = serve_frame(alloc, logs, drawn, frame, reply, treatment)?;
    let bytes = reply_frame(alloc, packet.correlation, body)?;
    Ok((bytes, line))
}

/// The request in this frame comes to the broker.
fn serve_frame(
    alloc: Global,
    logs: &mut [PartitionLog],
    drawn: &mut u64,
    frame: &[u8],
    reply: u64,
    treatment: Treatment,
) -> Result<(ResponseBody, Line), AllocError>
    ensures { IfOk result (λ x. (request : RequestBody) × IsAsked frame.now request
        × IsServed treatment reply logs.old drawn.old request logs.new drawn.new x.0 (line_of x.1)) }
{
    let request = read_packet(alloc, frame)?;
    serve_request(alloc, logs, drawn, &request, reply, treatment)
}

/// The request comes to the broker.
fn serve_request(
    alloc: Global,
    logs: &mut [PartitionLog],
    drawn: &mut u64,
    request: &RequestBody,
    reply: u64,
    treatment: Treatment,
) -> Result<(ResponseBody, Line), AllocError>
    ensures { IfOk result (λ x. IsServed treatment reply logs.old drawn.old request.now
        logs.new drawn.new x.0 (line_of x.1)) }
{
    match request {
        RequestBody::Produce(request) => serve_batches(alloc, logs, request, reply, treatment),
        RequestBody::InitProducerId(_) | RequestBody::Metadata(_) => {
            serve_id(drawn, reply, treatment)
        }
    }
}

/// The frame of the response under this correlation id. It is small, so that only memory may be wanting.
fn reply_frame(alloc: Global, correlation: u32, body: ResponseBody) -> Result<Blob, AllocError>
    ensures { IfOk result (λ bytes.
        FitsResponse (record { correlation = pos correlation; body = body })
        × (bytes ≡ frame.spell (spelling (record { correlation = pos correlation; body = body })))) }
{
    let Ok(correlation) = i32::try_from(correlation) else {
        return Err(AllocError);
    };
    match write_response(alloc, &Response { correlation, body }) {
        Ok(bytes) => Ok(Blob::new(bytes)),
        Err(_) => Err(AllocError),
    }
}

/// The batches of the request, which are for one topic, come to the logs.
fn serve_batches(
    alloc: Global,
    logs: &mut [PartitionLog],
    request: &ProduceRequest,
    reply: u64,
    treatment: Treatment,
) -> Result<(ResponseBody, Line), AllocError>
    ensures { IfOk result (λ x. AreServed treatment reply logs.old request.now.topics
        logs.new x.0 (line_of x.1)) }
{
    let [topic] = request.topics.as_slice() else {
        return Err(AllocError);
    };
    let entries = take_each(alloc, logs, topic.partitions.as_slice(), treatment)?;
    let parts = answer_parts(alloc, entries.as_slice())?;
    let body = batches_body(alloc, entries)?;
    Ok((body, Line::AnswerBatches { reply, parts }))
}

/// Each batch comes to its partition's log, in order.
fn take_each(
    alloc: Global,
    logs: &mut [PartitionLog],
    parts: &[PartitionProduceData],
    treatment: Treatment,
) -> Result<Vec<PartitionProduceResponse>, AllocError>
    ensures entries { IfOk result
        (λ entries. entries.items ≡ entries_after treatment logs.old parts.now) }
    ensures logs { OnOk result (logs.new ≡ logs_after treatment logs.old parts.now) }
{
    let mut entries = Vec::with_capacity(alloc, parts.len())?;
    for part in parts {
        entries.push(take_at(logs, part, treatment)?)?;
    }
    Ok(entries)
}

/// The batch comes to its partition's log, and this entry answers it. There is no memory for one whose partition has no
/// log.
fn take_at(
    logs: &mut [PartitionLog],
    part: &PartitionProduceData,
    treatment: Treatment,
) -> Result<PartitionProduceResponse, AllocError>
    ensures entry { IfOk result
        (λ entry. entry ≡ entry_of part.now (taken_at treatment logs.old part.now).answer) }
    ensures logs { OnOk result (logs.new ≡ with_taken treatment logs.old part.now) }
{
    let place = part.partition.unsigned_abs() as usize;
    if place >= logs.len() {
        return Err(AllocError);
    }
    let (code, base) = take_part(&mut logs[place], part.records.as_slice(), treatment)?;
    Ok(entry_of(part, code, base))
}

/// A batch's entry in the answer.
fn entry_of(part: &PartitionProduceData, code: i16, base: i64) -> PartitionProduceResponse
    ensures { result ≡ entry_of part.now (record { code = code; base = base }) }
{
    PartitionProduceResponse {
        partition: part.partition,
        error_code: code,
        base_offset: base,
        log_append_time_ms: -1,
    }
}

/// The code and the base offset that are answered to a batch.
fn take_part(
    log: &mut PartitionLog,
    bytes: &[u8],
    treatment: Treatment,
) -> Result<(i16, i64), AllocError>
    ensures { IfOk result (λ a. taken treatment log.old (batch_at bytes.now)
        ≡ record { answer = record { code = a.0; base = a.1 }; log = log.new }) }
{
    match treatment {
        Treatment::Judged => {
            let answer = offer(log, bytes)?;
            Ok((answer.code(), answer.base_offset()))
        }
        Treatment::Refused(code) => Ok((code, -1)),
        Treatment::Late(code) => {
            let _unheard = offer(log, bytes)?;
            Ok((code, -1))
        }
    }
}

/// What the log answers to the batch.
fn offer(log: &mut PartitionLog, bytes: &[u8]) -> Result<Answer, AllocError>
    ensures { IfOk result (λ answer. offered log.old (batch_at bytes.now)
        ≡ record { answer = answer; log = log.new }) }
{
    match log.offer(bytes) {
        Ok(answer) => Ok(answer),
        Err(LogFault::OutOfMemory) => Err(AllocError),
    }
}

/// What is told of these entries.
fn answer_parts(
    alloc: Global,
    entries: &[PartitionProduceResponse],
) -> Result<Seq<AnswerPart>, AllocError>
    ensures { IfOk result (λ parts. map answer_part parts ≡ map entry_line entries.now) }
{
    let mut parts = Vec::with_capacity(alloc, entries.len())?;
    for entry in entries {
        parts.push(AnswerPart {
            partition: entry.partition.unsigned_abs(),
            code: entry.error_code,
            base: entry.base_offset,
        })?;
    }
    Ok(Seq::new(parts))
}

/// The answer to batches.
fn batches_body(
    alloc: Global,
    entries: Vec<PartitionProduceResponse>,
) -> Result<ResponseBody, AllocError>
    ensures { IfOk result (λ body. body ≡ batches_body entries.items) }
{
    let mut topics = Vec::with_capacity(alloc, 1)?;
    topics.push(TopicProduceResponse {
        topic: Text::from_str(alloc, "t")?,
        partitions: Seq::new(entries),
    })?;
    Ok(ResponseBody::Produce(ProduceResponse {
        topics: Seq::new(topics),
        throttle_time_ms: 0,
    }))
}

/// A request for a producer id comes, and the next one is drawn unless it is refused. There is no memory for more ids
/// than are numbered.
fn serve_id(
    drawn: &mut u64,
    reply: u64,
    treatment: Treatment,
) -> Result<(ResponseBody, Line), AllocError>
    ensures { IfOk result (λ x. IsIdServed treatment reply drawn.old drawn.new x.0 (line_of x.1)) }
{
    let Ok(id) = i64::try_from(FIRST_ID.saturating_add(*drawn)) else {
        return Err(AllocError);
    };
    match treatment {
        Treatment::Judged => {
            *drawn += 1;
            Ok(id_answer(reply, 0, id))
        }
        Treatment::Refused(code) => Ok(id_answer(reply, code, -1)),
        Treatment::Late(code) => {
            *drawn += 1;
            Ok(id_answer(reply, code, -1))
        }
    }
}

/// The answer to a request for a producer id, and what is told of it.
fn id_answer(reply: u64, code: i16, id: i64) -> (ResponseBody, Line)
    ensures body { result.0 ≡ id_body code id }
    ensures line { line_of result.1 ≡ line.AnswerInit reply code id }
{
    let body = ResponseBody::InitProducerId(InitProducerIdResponse {
        throttle_time_ms: 0,
        error_code: code,
        producer_id: id,
        producer_epoch: if code == 0 { 0 } else { -1 },
    });
    (body, Line::AnswerInit { reply, code, id })
}
