//! Responses: the correlation id of a request, and the body of its api (protocol guide, "Response Header v0").

ghost use Rattle.std.specs.Prelude.{◌≡◌, List, ℕ, IfOk, IfErr, IsOk, MatchResult, length};
ghost use Rattle.kp_wire.specs.Reading.{Answers, Gives};
ghost use Rattle.kp_wire.specs.Fields.{int32};
ghost use Rattle.kp_frames.specs.declared.response.Response.{Response as ResponseValue};
ghost use Rattle.kp_frames.specs.Fault.{Refuses, IsContentFault};
ghost use Rattle.kp_frames.specs.Writing.{IsFrame};
ghost use Rattle.kp_frames.specs.Response.{api_of, body, answer, FitsResponse, spelling, Spells, response_at};

use crate::api::Api;
use crate::fault::FrameFault;
use crate::frame::write_frame;
use crate::metadata::MetadataResponse;
use crate::produce::ProduceResponse;
use crate::producer_id::InitProducerIdResponse;
use kp_wire::{MeasuredField, ReadError, ReadField, add_sizes, put_i32, read_i32, size_of_i32};
use std::alloc::{AllocError, Global};

/// What a broker answers.
#[derive(Debug, Drop)]
pub enum ResponseBody {
    Produce(ProduceResponse),
    Metadata(MetadataResponse),
    InitProducerId(InitProducerIdResponse),
}

impl ResponseBody {
    /// The api whose response it is.
    pub fn api(&self) -> Api
        ensures { result ≡ api_of self.now }
    {
        match self {
            ResponseBody::Produce(_) => Api::Produce,
            ResponseBody::Metadata(_) => Api::Metadata,
            ResponseBody::InitProducerId(_) => Api::InitProducerId,
        }
    }
}

/// The response to the request with this correlation id.
#[derive(Debug, Drop)]
pub struct Response {
    pub correlation: i32,
    pub body: ResponseBody,
}

impl MeasuredField for ResponseBody {
    ghost use Rattle.kp_frames.specs.Response.{spell_body, FitsBody};

    ghost spells = { spell_body };

    ghost fits = { FitsBody };

    fn size(&self) -> Option<u64> {
        match self {
            ResponseBody::Produce(response) => response.size(),
            ResponseBody::Metadata(response) => response.size(),
            ResponseBody::InitProducerId(response) => response.size(),
        }
    }

    fn put(&self, out: &mut Vec<u8>) -> Result<(), AllocError> {
        match self {
            ResponseBody::Produce(response) => response.put(out),
            ResponseBody::Metadata(response) => response.put(out),
            ResponseBody::InitProducerId(response) => response.put(out),
        }
    }
}

impl MeasuredField for Response {
    ghost use Rattle.kp_frames.specs.Response.{spelling, FitsResponse};

    ghost spells = { spelling };

    ghost fits = { FitsResponse };

    #[tactic(auto, unfolding(crate::specs::Response::spelling, crate::specs::Response::FitsResponse, crate::specs::Response::answer, crate::specs::Response::body))]
    fn size(&self) -> Option<u64> {
        let size = size_of_i32(self.correlation);
        let size = add_sizes(size, self.body.size()?);
        Some(size)
    }

    #[tactic(auto, unfolding(crate::specs::Response::spelling, crate::specs::Response::FitsResponse, crate::specs::Response::answer, crate::specs::Response::body))]
    fn put(&self, out: &mut Vec<u8>) -> Result<(), AllocError> {
        put_i32(out, self.correlation)?;
        self.body.put(out)
    }
}

/// The frame of the response: its size, and its content. BadLength where a text or an array is longer than its
/// length can say, then TooLarge where the content is above `CONTENT_LIMIT`.
pub fn write_response(alloc: Global, response: &Response) -> Result<Vec<u8>, FrameFault>
    ensures { IsFrame (λ bytes. bytes.items) (FitsResponse response.now) (spelling response.now) result }
{
    write_frame(alloc, response)
}

#[tactic(auto, unfolding(crate::specs::Response::body))]
fn read_body(alloc: Global, api: Api, bytes: &[u8]) -> Result<(ResponseBody, &[u8]), ReadError>
    ensures { Gives (λ x. (x.0, x.1.now)) result ((body api).read bytes.now) }
{
    match api {
        Api::Produce => {
            let (response, rest) = ProduceResponse::read(alloc, bytes, 0)?;
            Ok((ResponseBody::Produce(response), rest))
        }
        Api::Metadata => {
            let (response, rest) = MetadataResponse::read(alloc, bytes, 0)?;
            Ok((ResponseBody::Metadata(response), rest))
        }
        Api::InitProducerId => {
            let (response, rest) = InitProducerIdResponse::read(alloc, bytes, 0)?;
            Ok((ResponseBody::InitProducerId(response), rest))
        }
    }
}

#[tactic(auto, unfolding(crate::specs::Response::response_at, crate::specs::Response::answer))]
fn read_whole(alloc: Global, api: Api, bytes: &[u8]) -> Result<Response, FrameFault>
    ensures { Answers (Refuses (IsOk (int32.read bytes.now))) (λ r. r) result (response_at api bytes.now) }
{
    let (correlation, rest) = read_i32(bytes)?;
    let (body, rest) = read_body(alloc, api, rest)?;
    if !rest.is_empty() {
        return Err(FrameFault::Trailing);
    }
    Ok(Response { correlation, body })
}

/// The response, to a request of this api, that is a frame's content, all of it; else the first fault from left
/// to right, Trailing last. Where a growth was refused, it is OutOfMemory, which comes only behind the correlation
/// id.
pub fn read_response(alloc: Global, api: Api, bytes: &[u8]) -> Result<Response, FrameFault>
    // What is read is spelled so.
    ensures found { IfOk result (Spells api bytes.now) }

    // What is spelled so is read, unless memory is refused.
    ensures only { (r : ResponseValue) → Spells api bytes.now r
        → MatchResult result (λ x. x ≡ r) (λ fault. fault ≡ FrameFault.OutOfMemory) }

    // Which faults come.
    ensures faults { IfErr result IsContentFault }

    // Which fault it is.
    ensures exact { Answers (Refuses (IsOk (int32.read bytes.now))) (λ r. r) result (response_at api bytes.now) }
{
    read_whole(alloc, api, bytes)
}
