//! The two requests: for what a broker knows of the topic, and for a producer id.

ghost use Rattle.std.specs.Prelude.{◌≡◌, [], ◌∷◌, IfOk, Some};
ghost use Rattle.kp_hello.specs.Asking.{metadata_request, producer_id_request, IsWritten};

use crate::fault::HandshakeFault;
use crate::judging::{METADATA_CORRELATION, PRODUCER_ID_CORRELATION};
use kp_frames::{InitProducerIdRequest, MetadataRequest, Request, RequestBody, write_request};
use kp_rules::Names;
use kp_wire::{Seq, Text};
use std::alloc::{AllocError, Global};

/// The frame of the request for what the broker knows of the topic.
#[tactic(auto, unfolding(crate::specs::Asking::metadata_request))]
pub fn write_metadata(alloc: Global, names: &Names) -> Result<Vec<u8>, HandshakeFault>
    ensures { IsWritten (metadata_request names.now) result }
{
    let topics = only_topic(alloc, names)?;
    write_asked(
        alloc,
        names,
        METADATA_CORRELATION,
        RequestBody::Metadata(MetadataRequest {
            topics: Some(topics),
        }),
    )
}

fn only_topic(alloc: Global, names: &Names) -> Result<Seq<Text>, AllocError>
    ensures { IfOk result (λ topics. topics ≡ names.now.topic ∷ []) }
{
    let mut topics = Vec::with_capacity(alloc, 1)?;
    topics.push(copy_of(alloc, &names.topic)?)?;
    Ok(Seq::new(topics))
}

/// The frame of the request for a producer id.
#[tactic(auto, unfolding(crate::specs::Asking::producer_id_request))]
pub fn write_producer_id(alloc: Global, names: &Names) -> Result<Vec<u8>, HandshakeFault>
    ensures { IsWritten (producer_id_request names.now) result }
{
    write_asked(
        alloc,
        names,
        PRODUCER_ID_CORRELATION,
        RequestBody::InitProducerId(InitProducerIdRequest {
            transactional_id: None,
            transaction_timeout_ms: i32::MAX,
        }),
    )
}

/// The frame of a request by this client.
fn write_asked(
    alloc: Global,
    names: &Names,
    correlation: i32,
    body: RequestBody,
) -> Result<Vec<u8>, HandshakeFault>
    ensures { IsWritten (record { correlation = correlation; client = Some names.now.client; body = body }) result }
{
    let client = copy_of(alloc, &names.client)?;
    let request = Request {
        correlation,
        client: Some(client),
        body,
    };
    Ok(write_request(alloc, &request)?)
}

fn copy_of(alloc: Global, text: &Text) -> Result<Text, AllocError>
    ensures { IfOk result (λ copy. copy ≡ text.now) }
{
    Text::from_str(alloc, text.as_str())
}
