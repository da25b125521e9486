//! A reply is heard.

ghost use Rattle.std.specs.Prelude.{◌≡◌, ◌<◌, false, true, IfOk, IfErr};
ghost use Rattle.kp_rules.specs.Calls.{Reply, Step};
ghost use Rattle.kp_rules.specs.Mismatch.{answers_id};
ghost use Rattle.kp_rules.specs.Replies.{settle_id};
ghost use Rattle.kp_core.specs.Hearing.{Hears, refused_by};

use crate::machine::Core;
use crate::machine::matching::{answers_each, answers_id, entries_by_partition, entries_of_topic};
use crate::machine::ticking::is_still_exhausted;
use crate::requests::{Demand, find_awaited, keep_batches, keep_live};
use kp_frames::{FrameFault, InitProducerIdResponse, Response, ResponseBody, read_response};
use kp_rules::{CoreFault, Replied};
use kp_wire::read_i32;

/// A response that is not one to its request.
const MISMATCH: CoreFault = CoreFault::ReplyFault(FrameFault::Mismatch);

/// A reply that names no request in flight.
const UNKNOWN: Replied = Replied {
    known: false,
    reports: 0,
};

impl Core {
    /// Hears the content of a response: it is read as one to the request that its first four bytes name.
    pub(super) fn hear(&mut self, content: &[u8], now: u64) -> Result<Replied, CoreFault>
        ensures { Step self.old (Reply now content.now result) self.new }
    {
        if self.ended {
            return Err(CoreFault::Ended);
        }
        let Ok((correlation, _)) = read_i32(content) else {
            return Err(CoreFault::ReplyFault(FrameFault::Short));
        };
        let Some(request) = find_awaited(&self.requests, correlation) else {
            return Ok(UNKNOWN);
        };
        match read_response(self.alloc, request.api(), content) {
            Err(fault) => Err(refused_by(fault)),
            Ok(response) => self.settle(now, &response),
        }
    }

    /// Settles what the response answers, all of it or nothing.
    fn settle(&mut self, now: u64, response: &Response) -> Result<Replied, CoreFault>
        requires { self.old.ended ≡ false }
        ensures { Hears now response.now self.old result self.new }
    {
        let Some(request) = find_awaited(&self.requests, response.correlation) else {
            return Ok(UNKNOWN);
        };
        let correlation = request.correlation();
        match (request.demand(), &response.body) {
            (Demand::Produce(chosen), ResponseBody::Produce(response)) => {
                let Some(entries) = entries_of_topic(response, &self.names.topic) else {
                    return Err(MISMATCH);
                };
                if entries.len() != chosen.len() {
                    return Err(MISMATCH);
                }
                let Ok(found) = entries_by_partition(self.alloc, entries, self.partitions.len())
                else {
                    return Err(CoreFault::OutOfMemory);
                };
                if !answers_each(self.partitions.all(), correlation, chosen, &found) {
                    return Err(MISMATCH);
                }
                let untold = self.desk.untold();
                self.partitions
                    .settle_each(&mut self.desk, now, correlation, chosen, &found);
                let reports = untold - self.desk.untold();
                keep_live(&mut self.requests, self.partitions.all());
                self.exhausted = is_still_exhausted(self.exhausted, reports);
                Ok(Replied {
                    known: true,
                    reports: reports as usize,
                })
            }
            (Demand::InitProducerId(partition), ResponseBody::InitProducerId(response)) => {
                let partition = *partition;
                if !answers_id(response) {
                    return Err(MISMATCH);
                }
                self.settle_id(now, partition, response)
            }
            _ => Err(MISMATCH),
        }
    }

    /// Settles the request for an id, which was for this partition.
    fn settle_id(
        &mut self,
        now: u64,
        partition: u32,
        response: &InitProducerIdResponse,
    ) -> Result<Replied, CoreFault>
        requires going { self.old.ended ≡ false }
        requires answers { answers_id response.now ≡ true }
        ensures ok { IfOk result (λ replied. (self.new ≡ settle_id now partition response.now self.old)
            × (replied ≡ record { known = true; reports = 0 })) }
        ensures err { IfErr result (λ fault. (self.new ≡ self.old) × (fault ≡ CoreFault.OutOfMemory)) }
    {
        if response.error_code == 0 {
            let id = response.producer_id.unsigned_abs();
            if self
                .partitions
                .give_id(&self.config, partition, id)
                .is_err()
            {
                return Err(CoreFault::OutOfMemory);
            }
        } else {
            self.id_waits = Some(now);
        }
        keep_batches(&mut self.requests);
        Ok(Replied {
            known: true,
            reports: 0,
        })
    }
}

/// Why a reply is refused that is not read.
fn refused_by(fault: FrameFault) -> CoreFault
    ensures { result ≡ refused_by fault }
{
    match fault {
        FrameFault::OutOfMemory => CoreFault::OutOfMemory,
        _ => CoreFault::ReplyFault(fault),
    }
}
