//! Requests, and the replies to them.

ghost use Rattle.std.specs.Prelude.{◌∷◌, []};
ghost use Rattle.kp_rules.specs.Calls.{Reply};
ghost use Rattle.kp_engine.specs.Exchange.{OnlyCore, Runs};
ghost use Rattle.kp_engine.specs.Talking.{AsksOne, HearsOne, Requested};
ghost use Rattle.kp_engine.specs.Turned.{HasPlace};

use crate::exchange::Exchange;
use crate::seen::see_bytes;
use crate::turned::Turned;
use kp_core::{CoreFault, Replied};
use kp_frames::FrameFault;
use kp_wire::Blob;
use std::alloc::AllocError;

impl Exchange {
    /// Asks for the next request to this node: its frame, or None where none is to go out now.
    pub(crate) fn next_frame(&mut self, node: u32, now: u64) -> Result<Option<Vec<u8>>, AllocError>
        ensures asks { AsksOne node now self.old result self.new }
        ensures same { OnlyCore self.old self.new }
    {
        let Ok(()) = self.notes.reserve() else {
            return Err(AllocError);
        };
        match self.request(node, now) {
            Ok(None) => Ok(None),
            Ok(Some(frame)) => match frame {
                Ok(frame) => Ok(Some(frame)),
                Err(refused) => Err(refused),
            },
            Err(CoreFault::OutOfMemory) => Err(AllocError),
            Err(CoreFault::CorrelationSpent) => Ok(None),
            Err(CoreFault::ReplyFault(_)) => Ok(None),
            Err(CoreFault::Ended) => Ok(None),
        }
    }

    /// Asks for the next request: its frame, or that there was no room for the copy of it that is kept.
    fn request(
        &mut self,
        node: u32,
        now: u64,
    ) -> Result<Option<Result<Vec<u8>, AllocError>>, CoreFault>
        requires { HasPlace self.old.notes.turn }
        ensures runs { Requested node now self.old result self.new }
        ensures same { OnlyCore self.old self.new }
    {
        match self.core.next_request(node, now) {
            Ok(Some(request)) => Ok(Some(self.notes.add_request(node, now, request))),
            Ok(None) => {
                self.notes.add(Turned::Request(node, now, Ok(None)));
                Ok(None)
            }
            Err(fault) => {
                self.notes.add(Turned::Request(node, now, Err(fault)));
                Err(fault)
            }
        }
    }

    /// Hears the content of a response: the fault that it is refused with.
    pub(crate) fn hear(
        &mut self,
        now: u64,
        content: Vec<u8>,
    ) -> Result<Option<FrameFault>, AllocError>
        requires { HasPlace self.old.notes.turn }
        ensures hears { HearsOne now content.items self.old result self.new }
        ensures same { OnlyCore self.old self.new }
    {
        match self.reply(now, content) {
            Ok(_) => Ok(None),
            Err(CoreFault::ReplyFault(fault)) => Ok(Some(fault)),
            Err(CoreFault::OutOfMemory) => Err(AllocError),
            Err(CoreFault::CorrelationSpent) => Ok(None),
            Err(CoreFault::Ended) => Ok(None),
        }
    }

    fn reply(&mut self, now: u64, content: Vec<u8>) -> Result<Replied, CoreFault>
        requires { HasPlace self.old.notes.turn }
        ensures runs { Runs self.old (Reply now content.items result ∷ []) self.new }
        ensures same { OnlyCore self.old self.new }
    {
        see_bytes(content.as_slice());
        let answer = self.core.on_reply(content.as_slice(), now);
        self.notes
            .add(Turned::Reply(now, Blob::new(content), answer));
        answer
    }
}
