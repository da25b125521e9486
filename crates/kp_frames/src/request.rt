//! Requests: what stands before a body, and the body of an api (protocol guide, "Request Header v1").

ghost use Rattle.std.specs.Prelude.{◌≡◌, List, ℕ, IfOk, IfErr, IsOk, IsErrOf, MatchResult, length};
ghost use Rattle.kp_wire.specs.Reading.{IsRead, Answers, Gives};
ghost use Rattle.kp_frames.specs.declared.request.Request.{Request as RequestValue};
ghost use Rattle.kp_frames.specs.Fault.{Refuses, IsRequestFault};
ghost use Rattle.kp_frames.specs.Writing.{IsFrame};
ghost use Rattle.kp_frames.specs.Request.{api_of, body, known, FitsRequest, spelling, Spells, announced, request_at};

use crate::api::Api;
use crate::fault::FrameFault;
use crate::frame::write_frame;
use crate::metadata::MetadataRequest;
use crate::produce::ProduceRequest;
use crate::producer_id::InitProducerIdRequest;
use kp_wire::{
    MeasuredField, ReadError, ReadField, Text, add_sizes, put_i16, put_i32, put_nullable_text,
    read_i16, read_i32, read_nullable_text, size_of_i16, size_of_i32, size_of_nullable_text,
};
use std::alloc::{AllocError, Global};

/// What a request asks for.
#[derive(Debug, Drop)]
pub enum RequestBody {
    Produce(ProduceRequest),
    Metadata(MetadataRequest),
    InitProducerId(InitProducerIdRequest),
}

impl RequestBody {
    /// The api whose request it is.
    pub fn api(&self) -> Api
        ensures { result ≡ api_of self.now }
    {
        match self {
            RequestBody::Produce(_) => Api::Produce,
            RequestBody::Metadata(_) => Api::Metadata,
            RequestBody::InitProducerId(_) => Api::InitProducerId,
        }
    }
}

/// A request, which its response names by its correlation id.
#[derive(Debug, Drop)]
pub struct Request {
    pub correlation: i32,
    /// The client's name for the broker's log, or None.
    pub client: Option<Text>,
    pub body: RequestBody,
}

impl MeasuredField for RequestBody {
    ghost use Rattle.kp_frames.specs.Request.{spell_body, FitsBody};

    ghost spells = { spell_body };

    ghost fits = { FitsBody };

    fn size(&self) -> Option<u64> {
        match self {
            RequestBody::Produce(request) => request.size(),
            RequestBody::Metadata(request) => request.size(),
            RequestBody::InitProducerId(request) => request.size(),
        }
    }

    fn put(&self, out: &mut Vec<u8>) -> Result<(), AllocError> {
        match self {
            RequestBody::Produce(request) => request.put(out),
            RequestBody::Metadata(request) => request.put(out),
            RequestBody::InitProducerId(request) => request.put(out),
        }
    }
}

impl MeasuredField for Request {
    ghost use Rattle.kp_frames.specs.Request.{spelling, FitsRequest};

    ghost spells = { spelling };

    ghost fits = { FitsRequest };

    #[tactic(auto, unfolding(crate::specs::Request::spelling, crate::specs::Request::FitsRequest, crate::specs::Request::known, crate::specs::Request::body))]
    fn size(&self) -> Option<u64> {
        let api = self.body.api();
        let size = size_of_i16(api.key());
        let size = add_sizes(size, size_of_i16(api.version()));
        let size = add_sizes(size, size_of_i32(self.correlation));
        let size = add_sizes(size, size_of_nullable_text(&self.client)?);
        let size = add_sizes(size, self.body.size()?);
        Some(size)
    }

    #[tactic(auto, unfolding(crate::specs::Request::spelling, crate::specs::Request::FitsRequest, crate::specs::Request::known, crate::specs::Request::body))]
    fn put(&self, out: &mut Vec<u8>) -> Result<(), AllocError> {
        let api = self.body.api();
        put_i16(out, api.key())?;
        put_i16(out, api.version())?;
        put_i32(out, self.correlation)?;
        put_nullable_text(out, &self.client)?;
        self.body.put(out)?;
        Ok(())
    }
}

/// The frame of the request: its size, and its content. BadLength where a text, an array or a batch is longer
/// than its length can say, then TooLarge where the content is above `CONTENT_LIMIT`.
pub fn write_request(alloc: Global, request: &Request) -> Result<Vec<u8>, FrameFault>
    ensures { IsFrame (λ bytes. bytes.items) (FitsRequest request.now) (spelling request.now) result }
{
    write_frame(alloc, request)
}

/// The api that a request names, in the version that is spoken, and the bytes behind it.
#[tactic(auto, unfolding(crate::specs::Request::announced))]
fn read_announced(bytes: &[u8]) -> Result<(Api, &[u8]), FrameFault>
    ensures exact { IsRead (λ x. (x.0, x.1.now)) result (announced bytes.now) }
    ensures no_memory { IsErrOf result FrameFault.OutOfMemory → ⊥ }
{
    let (key, rest) = read_i16(bytes)?;
    let api = Api::from_key(key)?;
    let (version, rest) = read_i16(rest)?;
    if version != api.version() {
        return Err(FrameFault::UnknownVersion);
    }
    Ok((api, rest))
}

#[tactic(auto, unfolding(crate::specs::Request::body))]
fn read_body(alloc: Global, api: Api, bytes: &[u8]) -> Result<(RequestBody, &[u8]), ReadError>
    ensures { Gives (λ x. (x.0, x.1.now)) result ((body api).read bytes.now) }
{
    match api {
        Api::Produce => {
            let (request, rest) = ProduceRequest::read(alloc, bytes, 0)?;
            Ok((RequestBody::Produce(request), rest))
        }
        Api::Metadata => {
            let (request, rest) = MetadataRequest::read(alloc, bytes, 0)?;
            Ok((RequestBody::Metadata(request), rest))
        }
        Api::InitProducerId => {
            let (request, rest) = InitProducerIdRequest::read(alloc, bytes, 0)?;
            Ok((RequestBody::InitProducerId(request), rest))
        }
    }
}

/// What stands behind the version.
#[tactic(auto, unfolding(crate::specs::Request::known))]
fn read_known(alloc: Global, api: Api, bytes: &[u8]) -> Result<(Request, &[u8]), ReadError>
    ensures { Gives (λ x. (x.0, x.1.now)) result ((known api).read bytes.now) }
{
    let (correlation, rest) = read_i32(bytes)?;
    let (client, rest) = read_nullable_text(alloc, rest)?;
    let (body, rest) = read_body(alloc, api, rest)?;
    let request = Request {
        correlation,
        client,
        body,
    };
    Ok((request, rest))
}

#[tactic(auto, unfolding(crate::specs::Request::request_at))]
fn read_whole(alloc: Global, bytes: &[u8]) -> Result<Request, FrameFault>
    ensures { Answers (Refuses (IsOk (announced bytes.now))) (λ r. r) result (request_at bytes.now) }
{
    let (api, rest) = read_announced(bytes)?;
    let (request, rest) = read_known(alloc, api, rest)?;
    if !rest.is_empty() {
        return Err(FrameFault::Trailing);
    }
    Ok(request)
}

/// The request that is a frame's content, all of it; else the first fault from left to right: UnknownApi right
/// behind the key, UnknownVersion right behind the version, Trailing last. Where a growth was refused, it is
/// OutOfMemory, which comes only behind a known version.
pub fn read_request(alloc: Global, bytes: &[u8]) -> Result<Request, FrameFault>
    // What is read is spelled so.
    ensures found { IfOk result (Spells bytes.now) }

    // What is spelled so is read, unless memory is refused.
    ensures only { (r : RequestValue) → Spells bytes.now r
        → MatchResult result (λ x. x ≡ r) (λ fault. fault ≡ FrameFault.OutOfMemory) }

    // Which faults come.
    ensures faults { IfErr result IsRequestFault }

    // Which fault it is.
    ensures exact { Answers (Refuses (IsOk (announced bytes.now))) (λ r. r) result (request_at bytes.now) }
{
    read_whole(alloc, bytes)
}
