//! A request that was read is answered.

ghost use Rattle.std.specs.Prelude.{◌≡◌};
ghost use Rattle.kp_frames.specs.Request.{FitsRequest};
ghost use Rattle.kp_frames.specs.Response.{FitsBody};
ghost use Rattle.kp_broker.specs.Answering.{Responds, Frames};

use crate::broker::Broker;
use crate::fault::BrokerFault;
use kp_frames::{Request, RequestBody, Response, ResponseBody, write_response};
use kp_log::Whim;
use std::alloc::Global;

impl Broker {
    /// The frame of a node's answer to a request, on a whim or by the rules.
    pub(crate) fn respond(
        &mut self,
        node: u16,
        request: &Request,
        whim: Option<Whim>,
    ) -> Result<Vec<u8>, BrokerFault>
        requires { FitsRequest request.now }
        ensures { Responds (λ bytes. bytes.items) whim node self.old request.now result self.new }
    {
        let alloc = self.alloc;
        let correlation = request.correlation;
        match &request.body {
            RequestBody::Produce(produce) => {
                let response = self.take_all(node, produce, whim)?;
                frame_of(alloc, correlation, ResponseBody::Produce(response))
            }
            RequestBody::Metadata(metadata) => {
                let response = self.describe(metadata)?;
                frame_of(alloc, correlation, ResponseBody::Metadata(response))
            }
            RequestBody::InitProducerId(asked) => {
                let response = self.id_answer(asked);
                let frame = frame_of(alloc, correlation, ResponseBody::InitProducerId(response))?;
                self.spend_id(asked);
                Ok(frame)
            }
        }
    }
}

/// The frame of a response.
#[tactic(auto, using(crate::proofs::FittingLemmas::response_fits))]
fn frame_of(alloc: Global, correlation: i32, body: ResponseBody) -> Result<Vec<u8>, BrokerFault>
    requires { FitsBody body }
    ensures { Frames (λ bytes. bytes.items) (record { correlation = correlation; body = body }) result }
{
    Ok(write_response(alloc, &Response { correlation, body })?)
}
