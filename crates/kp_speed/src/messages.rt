//! Messages and streams of frames, for the cost of them.

use kp_frames::{
    Api, FrameFault, PartitionProduceData, PartitionProduceResponse, ProduceRequest,
    ProduceResponse, Request, RequestBody, Response, ResponseBody, Splitter, TopicProduceData,
    TopicProduceResponse, read_response, write_request, write_response,
};
use kp_wire::{Blob, Seq, Text};
use std::alloc::{AllocError, Global};

/// How many partitions a message speaks of.
const PARTITIONS: i32 = 4;

/// How many bytes a partition's batch has.
const BATCH: usize = 16384;

/// The frames of a stream, and how many bytes each of them has, its size included.
const FRAMES: u32 = 100;

const FRAME: usize = 104;

/// The size of a content of 100 bytes, as it stands before it.
const SIZE: [u8; 4] = [0, 0, 0, 100];

/// A frame of one byte.
const SMALL_FRAME: [u8; 5] = [0, 0, 0, 1, b'f'];

/// The refusal as one of memory: nothing here is faulty.
fn memory<T: Drop>(answer: Result<T, FrameFault>) -> Result<T, AllocError> {
    answer.map_err(|_| AllocError)
}

fn topic(alloc: Global) -> Result<Text, AllocError> {
    Text::from_str(alloc, "t")
}

/// A batch for each partition.
fn batches_of(alloc: Global) -> Result<Vec<PartitionProduceData>, AllocError> {
    let mut partitions = Vec::new(alloc);
    for partition in 0..PARTITIONS {
        let mut bytes = Vec::new(alloc);
        bytes.resize(BATCH, b'b')?;
        partitions.push(PartitionProduceData {
            partition,
            records: Blob::new(bytes),
        })?;
    }
    Ok(partitions)
}

fn request_of(alloc: Global) -> Result<Request, AllocError> {
    let mut topics = Vec::new(alloc);
    topics.push(TopicProduceData {
        topic: topic(alloc)?,
        partitions: Seq::new(batches_of(alloc)?),
    })?;
    Ok(Request {
        correlation: 2,
        client: Some(Text::from_str(alloc, "kp")?),
        body: RequestBody::Produce(ProduceRequest {
            transactional_id: None,
            acks: -1,
            timeout_ms: 30000,
            topics: Seq::new(topics),
        }),
    })
}

/// An answer for each partition.
fn answers_of(alloc: Global) -> Result<Vec<PartitionProduceResponse>, AllocError> {
    let mut partitions = Vec::new(alloc);
    for partition in 0..PARTITIONS {
        partitions.push(PartitionProduceResponse {
            partition,
            error_code: 0,
            base_offset: 0,
            log_append_time_ms: -1,
        })?;
    }
    Ok(partitions)
}

fn response_of(alloc: Global) -> Result<Response, AllocError> {
    let mut topics = Vec::new(alloc);
    topics.push(TopicProduceResponse {
        topic: topic(alloc)?,
        partitions: Seq::new(answers_of(alloc)?),
    })?;
    Ok(Response {
        correlation: 2,
        body: ResponseBody::Produce(ProduceResponse {
            topics: Seq::new(topics),
            throttle_time_ms: 0,
        }),
    })
}

/// The bytes of a request, written so many times.
fn write_all(alloc: Global, request: &Request, times: u32) -> Result<u64, AllocError> {
    let mut sum = 0u64;
    for _ in 0..times {
        sum = sum.wrapping_add(memory(write_request(alloc, request))?.len() as u64);
    }
    Ok(sum)
}

/// The bytes of so many requests.
pub(crate) fn requests(alloc: Global, times: u32) -> Result<u64, AllocError> {
    let request = request_of(alloc)?;
    write_all(alloc, &request, times)
}

/// How often a response with this content is read, so many times.
fn read_all(alloc: Global, content: &[u8], times: u32) -> Result<u64, AllocError> {
    let mut sum = 0u64;
    for _ in 0..times {
        memory(read_response(alloc, Api::Produce, content))?;
        sum = sum.wrapping_add(1);
    }
    Ok(sum)
}

/// How many of so many responses are read.
pub(crate) fn responses(alloc: Global, times: u32) -> Result<u64, AllocError> {
    let response = response_of(alloc)?;
    let frame = memory(write_response(alloc, &response))?;
    read_all(alloc, frame.get(4..).unwrap_or(&[]), times)
}

/// The stream of frames.
fn stream_of(alloc: Global) -> Result<Vec<u8>, AllocError> {
    let mut bytes = Vec::new(alloc);
    for frame in 1..FRAMES + 1 {
        bytes.extend_from_slice(&SIZE)?;
        bytes.resize(frame as usize * FRAME, b'f')?;
    }
    Ok(bytes)
}

/// How many frames wait; they are taken.
fn take_all(splitter: &mut Splitter) -> Result<u64, AllocError> {
    let mut frames = 0u64;
    for _ in 0..FRAMES {
        match memory(splitter.next_frame())? {
            Some(_) => frames = frames.wrapping_add(1),
            None => return Ok(frames),
        }
    }
    Ok(frames)
}

/// The frames of the stream, so many times, where it comes byte by byte.
pub(crate) fn cuts_bytes(alloc: Global, times: u32) -> Result<u64, AllocError> {
    let bytes = stream_of(alloc)?;
    let mut splitter = Splitter::new(alloc);
    let mut sum = 0u64;
    for _ in 0..times {
        for byte in &bytes {
            memory(splitter.feed(&[*byte]))?;
            sum = sum.wrapping_add(take_all(&mut splitter)?);
        }
    }
    Ok(sum)
}

/// The same, where it comes whole.
pub(crate) fn cuts_whole(alloc: Global, times: u32) -> Result<u64, AllocError> {
    let bytes = stream_of(alloc)?;
    let mut splitter = Splitter::new(alloc);
    let mut sum = 0u64;
    for _ in 0..times {
        memory(splitter.feed(&bytes))?;
        sum = sum.wrapping_add(take_all(&mut splitter)?);
    }
    Ok(sum)
}

/// So many small frames.
fn small_frames(alloc: Global, times: u32) -> Result<Vec<u8>, AllocError> {
    let mut bytes = Vec::new(alloc);
    for _ in 0..times {
        bytes.extend_from_slice(&SMALL_FRAME)?;
    }
    Ok(bytes)
}

/// Takes a frame that waits, for each of these bytes, which is fed behind it.
fn take_each(splitter: &mut Splitter, bytes: &[u8]) -> Result<u64, AllocError> {
    let mut sum = 0u64;
    for byte in bytes {
        if let Some(frame) = memory(splitter.next_frame())? {
            sum = sum.wrapping_add(frame.len() as u64);
        }
        memory(splitter.feed(&[*byte]))?;
    }
    Ok(sum)
}

/// Takes so many small frames, all of which wait at first; behind each a byte is fed.
pub(crate) fn takes_waiting(alloc: Global, times: u32) -> Result<u64, AllocError> {
    let bytes = small_frames(alloc, times)?;
    let mut splitter = Splitter::new(alloc);
    memory(splitter.feed(&bytes))?;
    take_each(&mut splitter, bytes.get(..times as usize).unwrap_or(&[]))
}
