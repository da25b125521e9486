//! Works of a broker.

use crate::samples::record_of;
use kp_batch::{BatchHead, Record, SIZE_LIMIT, batch_size, write_batch};
use kp_broker::Broker;
use kp_frames::{
    PartitionProduceData, ProduceRequest, Request, RequestBody, TopicProduceData, write_request,
};
use kp_log::PartitionLog;
use kp_wire::{Blob, Seq, Text};
use std::alloc::{AllocError, Global};
use std::mem;

const PRODUCER_ID: i64 = 1000;

/// How many records a batch has: as many as fit 16 KiB.
const RECORDS: u32 = 148;

/// So many batches keep the sequence numbers below 2^31.
const BATCHES: u32 = 14_000_000;

/// How many bytes stand before a frame's content: its size.
const SIZE_LEN: usize = 4;

/// How many bytes stand before the batch in the frame of a request.
const BEFORE_BATCH: usize = 43;

fn records_of(alloc: Global) -> Result<Vec<Record>, AllocError> {
    let mut records = Vec::new(alloc);
    for _ in 0..RECORDS {
        records.push(record_of(alloc)?)?;
    }
    Ok(records)
}

/// The producer's batch with this number, from 0.
fn batch_of(alloc: Global, records: &[Record], number: u32) -> Result<Blob, AllocError> {
    if records.is_empty() || batch_size(records) > SIZE_LIMIT {
        return Err(AllocError);
    }
    let head = BatchHead {
        producer_id: PRODUCER_ID,
        epoch: 0,
        base_sequence: (number % BATCHES * RECORDS) as i32,
    };
    Ok(Blob::new(write_batch(alloc, head, records)?))
}

/// A batch for partition 0 of the topic "t".
fn topic_of(alloc: Global, records: Blob) -> Result<TopicProduceData, AllocError> {
    let mut partitions = Vec::new(alloc);
    partitions.push(PartitionProduceData {
        partition: 0,
        records,
    })?;
    Ok(TopicProduceData {
        topic: Text::from_str(alloc, "t")?,
        partitions: Seq::new(partitions),
    })
}

fn request_of(alloc: Global, topic: TopicProduceData) -> Result<Request, AllocError> {
    let mut topics = Vec::new(alloc);
    topics.push(topic)?;
    Ok(Request {
        correlation: 2,
        client: Some(Text::from_str(alloc, "kp")?),
        body: RequestBody::Produce(ProduceRequest {
            transactional_id: None,
            acks: -1,
            timeout_ms: 30000,
            topics: Seq::new(topics),
        }),
    })
}

/// The frame of the request with the producer's batch of this number.
fn frame_of(alloc: Global, records: &[Record], number: u32) -> Result<Vec<u8>, AllocError> {
    let batch = batch_of(alloc, records, number)?;
    let request = request_of(alloc, topic_of(alloc, batch)?)?;
    write_request(alloc, &request).map_err(|_| AllocError)
}

/// The bytes of so many requests, one after the other.
pub(crate) fn asks(alloc: Global, requests: u32) -> Result<u64, AllocError> {
    let records = records_of(alloc)?;
    let mut sum = 0u64;
    for number in 0..requests {
        sum = sum.wrapping_add(frame_of(alloc, &records, number)?.len() as u64);
    }
    Ok(sum)
}

fn offer(log: &mut PartitionLog, frame: &[u8]) -> Result<(), AllocError> {
    match log.offer(frame.get(BEFORE_BATCH..).unwrap_or(&[])) {
        Ok(_) => Ok(()),
        Err(_) => Err(AllocError),
    }
}

/// The batches of so many requests, each offered to a log as its request is written.
fn store(
    alloc: Global,
    log: &mut PartitionLog,
    records: &[Record],
    requests: u32,
) -> Result<(), AllocError> {
    for number in 0..requests {
        offer(log, &frame_of(alloc, records, number)?)?;
    }
    Ok(())
}

/// The length of a log to which the batches of so many requests were offered, each as its request is written. It is not
/// dropped, even at the end.
pub(crate) fn stores(alloc: Global, requests: u32) -> Result<u64, AllocError> {
    let records = records_of(alloc)?;
    let mut log = PartitionLog::new(alloc);
    let stored = store(alloc, &mut log, &records, requests);
    let length = log.len();
    mem::forget(log);
    stored.map(|()| length)
}

fn answer(broker: &mut Broker, frame: &[u8]) -> Result<(), AllocError> {
    match broker.answer(frame.get(SIZE_LEN..).unwrap_or(&[])) {
        Ok(_) => Ok(()),
        Err(_) => Err(AllocError),
    }
}

/// So many requests, each answered as it is written.
fn answer_all(
    alloc: Global,
    broker: &mut Broker,
    records: &[Record],
    requests: u32,
) -> Result<(), AllocError> {
    for number in 0..requests {
        answer(broker, &frame_of(alloc, records, number)?)?;
    }
    Ok(())
}

/// The length of the log of a broker that answers so many requests, each as it is written. The broker is not dropped,
/// even at the end.
pub(crate) fn answers(alloc: Global, requests: u32) -> Result<u64, AllocError> {
    let records = records_of(alloc)?;
    let mut broker = Broker::new(alloc, "t", 1, 9092)?;
    let answered = answer_all(alloc, &mut broker, &records, requests);
    let length = broker.log(0).map_or(0, |log| log.len());
    mem::forget(broker);
    answered.map(|()| length)
}
