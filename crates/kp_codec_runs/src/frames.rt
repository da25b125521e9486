//! Requests and responses: their contents, which stand in a frame behind their size.

use crate::fault::{Done, Fault, Left};
use crate::told::{Told, put_hex};
use kp_cases::{StepFault, Words};
use kp_frames::{
    Api, Broker, PartitionProduceData, PartitionProduceResponse, Request, RequestBody, Response,
    ResponseBody, TopicProduceData, TopicProduceResponse, read_request, read_response,
    write_request, write_response,
};
use kp_wire::{Blob, Seq, Text};
use std::alloc::{AllocError, Global};

/// The longest frame that is told in full.
const TOLD_LIMIT: usize = 200;

/// Takes down how a message is written whose content these bytes are.
fn take_down(frame: Vec<u8>, content: &[u8], told: &mut Told) -> Result<(), Fault> {
    let size = u32::try_from(content.len()).unwrap_or(u32::MAX);
    told.written = frame;
    told.wanted.clear();
    told.wanted.extend_from_slice(&size.to_be_bytes())?;
    Ok(())
}

/// Tells a request, and takes down how it is written.
fn tell_request(request: &Request, content: &[u8], told: &mut Told) -> Result<(), Fault> {
    told.show(request)?;
    take_down(write_request(told.alloc, request)?, content, told)
}

pub(crate) fn request<'a>(content: &'a [u8], told: &mut Told) -> Left<'a> {
    let request = read_request(told.alloc, content)?;
    tell_request(&request, content, told)?;
    Ok(&[])
}

/// Tells a response, and takes down how it is written.
fn tell_response(response: &Response, content: &[u8], told: &mut Told) -> Result<(), Fault> {
    told.show(response)?;
    take_down(write_response(told.alloc, response)?, content, told)
}

pub(crate) fn response<'a>(api: Api, content: &'a [u8], told: &mut Told) -> Left<'a> {
    let response = read_response(told.alloc, api, content)?;
    tell_response(&response, content, told)?;
    Ok(&[])
}

/// The api whose response has this name.
pub(crate) fn api_of(kind: &str) -> Option<Api> {
    match kind {
        "produce_response" => Some(Api::Produce),
        "metadata_response" => Some(Api::Metadata),
        "init_producer_id_response" => Some(Api::InitProducerId),
        _ => None,
    }
}

fn one<T: Drop>(alloc: Global, item: T) -> Result<Seq<T>, AllocError> {
    let mut items = Vec::new(alloc);
    items.push(item)?;
    Ok(Seq::new(items))
}

/// The one topic "t", with so many zeros for partition 0.
fn zeros(alloc: Global, len: usize) -> Result<Seq<TopicProduceData>, AllocError> {
    let partition = PartitionProduceData {
        partition: 0,
        records: Blob::new(vec![in alloc; 0u8; len]?),
    };
    let topic = TopicProduceData {
        topic: Text::from_str(alloc, "t")?,
        partitions: one(alloc, partition)?,
    };
    one(alloc, topic)
}

/// The answers to so many partitions of the one topic "t".
fn answers(alloc: Global, count: usize) -> Result<Seq<TopicProduceResponse>, AllocError> {
    let partition = PartitionProduceResponse {
        partition: 0,
        error_code: 0,
        base_offset: 0,
        log_append_time_ms: -1,
    };
    let topic = TopicProduceResponse {
        topic: Text::from_str(alloc, "t")?,
        partitions: Seq::new(vec![in alloc; partition; count]?),
    };
    one(alloc, topic)
}

/// The one broker, at this host.
fn broker(alloc: Global, host: &str) -> Result<Seq<Broker>, AllocError> {
    let broker = Broker {
        node_id: 0,
        host: Text::from_str(alloc, host)?,
        port: 9092,
        rack: None,
    };
    one(alloc, broker)
}

fn count_of(word: &str) -> Result<usize, StepFault> {
    word.parse().map_err(|_| StepFault::NotUnderstood)
}

/// Puts into a request what a word says: a client's name, the one topic, or a batch of so many zeros.
fn set_in_request(alloc: Global, request: &mut Request, word: &str) -> Done {
    let (what, with) = word.split_once(':').ok_or(StepFault::NotUnderstood)?;
    match (what, &mut request.body) {
        ("client", _) => request.client = Some(Text::from_str(alloc, with)?),
        ("topic", RequestBody::Metadata(body)) => {
            body.topics = Some(one(alloc, Text::from_str(alloc, with)?)?);
        }
        ("batch", RequestBody::Produce(body)) => {
            body.topics = zeros(alloc, count_of(with)?)?;
        }
        _ => return Err(StepFault::NotUnderstood),
    }
    Ok(())
}

/// Puts into a response what a word says: the one broker's host, or so many partitions.
fn set_in_response(alloc: Global, response: &mut Response, word: &str) -> Done {
    let (what, with) = word.split_once(':').ok_or(StepFault::NotUnderstood)?;
    match (what, &mut response.body) {
        ("host", ResponseBody::Metadata(body)) => {
            body.brokers = broker(alloc, with)?;
        }
        ("partitions", ResponseBody::Produce(body)) => {
            body.topics = answers(alloc, count_of(with)?)?;
        }
        _ => return Err(StepFault::NotUnderstood),
    }
    Ok(())
}

/// The frame of the request whose content these bytes are, with what the words put into it.
fn request_frame(alloc: Global, content: &[u8], words: &str) -> Result<Vec<u8>, Fault> {
    let mut request = read_request(alloc, content)?;
    for word in words.split_whitespace() {
        set_in_request(alloc, &mut request, word)?;
    }
    Ok(write_request(alloc, &request)?)
}

/// The frame of the response whose content these bytes are, with what the words put into it.
fn response_frame(alloc: Global, api: Api, content: &[u8], words: &str) -> Result<Vec<u8>, Fault> {
    let mut response = read_response(alloc, api, content)?;
    for word in words.split_whitespace() {
        set_in_response(alloc, &mut response, word)?;
    }
    Ok(write_response(alloc, &response)?)
}

/// The frame of a message of this kind.
fn frame_of(alloc: Global, kind: &str, content: &[u8], words: &str) -> Result<Vec<u8>, Fault> {
    if let Some(api) = api_of(kind) {
        return response_frame(alloc, api, content, words);
    }
    if kind != "request" {
        return Err(Fault::Step(StepFault::NotUnderstood));
    }
    request_frame(alloc, content, words)
}

/// Writes a frame, a long one as its length and its first four bytes.
fn put_frame(came: &mut String, frame: &[u8]) -> Result<(), AllocError> {
    if frame.len() <= TOLD_LIMIT {
        return put_hex(came, frame);
    }
    write!(came, "{} bytes from ", frame.len())?;
    put_hex(came, frame.get(..4).unwrap_or(&[]))
}

/// Tells the frame of a message, or why there is none.
pub(crate) fn tell_frame(alloc: Global, words: &mut Words<'_>, came: &mut String) -> Done {
    let kind = words.word()?;
    let content = words.bytes()?;
    match frame_of(alloc, kind, &content, words.rest()) {
        Ok(frame) => Ok(put_frame(came, &frame)?),
        Err(fault) => fault.tell(came),
    }
}
