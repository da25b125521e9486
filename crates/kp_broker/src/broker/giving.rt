//! A producer id is given (KIP-98).

ghost use Rattle.std.specs.Prelude.{◌≡◌, ◌≤◌};
ghost use Rattle.kp_frames.specs.ProducerId.{init_producer_id_response};
ghost use Rattle.kp_broker.specs.Answers.{after_id, id_answer, id_given, no_id};

use crate::broker::Broker;
use kp_frames::{InitProducerIdRequest, InitProducerIdResponse};

/// The last producer id: ids are int64s.
const LAST_PRODUCER_ID: u64 = (1 << 63) - 1;

/// Kafka's UNKNOWN_SERVER_ERROR.
const UNKNOWN_SERVER_ERROR: i16 = -1;

/// Kafka's INVALID_REQUEST.
const INVALID_REQUEST: i16 = 42;

impl Broker {
    #[tactic(auto, using(crate::proofs::FittingLemmas::id_fits))]
    /// What is answered to one who asks for an id. The id is not spent yet.
    pub(super) fn id_answer(&self, request: &InitProducerIdRequest) -> InitProducerIdResponse
        ensures answer { result ≡ id_answer self.now request.now.transactional_id }
        ensures fits { init_producer_id_response.Fits result }
    {
        if request.transactional_id.is_some() {
            return no_id(INVALID_REQUEST);
        }
        if self.next_id > LAST_PRODUCER_ID {
            return no_id(UNKNOWN_SERVER_ERROR);
        }
        id_given(self.next_id)
    }

    /// The id that was answered is not given again.
    pub(super) fn spend_id(&mut self, request: &InitProducerIdRequest)
        ensures { self.new ≡ after_id self.old request.now.transactional_id }
    {
        if request.transactional_id.is_none() && self.next_id <= LAST_PRODUCER_ID {
            self.next_id += 1;
        }
    }
}

fn id_given(id: u64) -> InitProducerIdResponse
    requires { id ≤ LAST_PRODUCER_ID }
    ensures { result ≡ id_given id }
{
    InitProducerIdResponse {
        throttle_time_ms: 0,
        error_code: 0,
        producer_id: id as i64,
        producer_epoch: 0,
    }
}

fn no_id(error_code: i16) -> InitProducerIdResponse
    ensures { result ≡ no_id error_code }
{
    InitProducerIdResponse {
        throttle_time_ms: 0,
        error_code,
        producer_id: -1,
        producer_epoch: -1,
    }
}
