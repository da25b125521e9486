//! A reply comes to the producer.

ghost use Rattle.std.specs.Prelude.{◌≡◌, ◌≢◌, true, Err, IfOk, OnOk};
ghost use Rattle.kp_replay.specs.Line.{lines_of};
ghost use Rattle.kp_replay.specs.Shown.{LeadsOn, is_there};
ghost use Rattle.kp_world.specs.Client.{reply_line};
ghost use Rattle.kp_world.specs.declared.event.Event.TheVariants as event;

use crate::line::Line;
use crate::packets::content_of;
use crate::world::World;
use kp_rules::{CoreFault, Replied};
use std::alloc::AllocError;

impl World {
    /// The reply's bytes come to the producer.
    pub fn reply(&mut self, reply: u64) -> Result<(), AllocError>
        requires { is_there (event.Reply reply) self.old ≡ true }
        ensures { OnOk result (LeadsOn (event.Reply reply) self.old self.new) }
    {
        let was_flushed = self.core.flushed();
        let content = content_of(self.replies[reply as usize].as_slice());
        let answer = self.core.on_reply(content, self.moment);
        let line = reply_line(reply, answer)?;
        self.note(was_flushed, line)
    }
}

/// What is told of a reply that the core answered so, where it had memory for it.
fn reply_line(reply: u64, answer: Result<Replied, CoreFault>) -> Result<Option<Line>, AllocError>
    ensures line { IfOk result (λ line. lines_of line ≡ reply_line reply answer) }
    ensures memory { OnOk result (answer ≢ Err CoreFault.OutOfMemory) }
{
    match answer {
        Ok(replied) => {
            if replied.known {
                Ok(None)
            } else {
                Ok(Some(Line::Stale { reply }))
            }
        }
        Err(CoreFault::Ended) => Ok(Some(Line::Ended)),
        Err(CoreFault::OutOfMemory) => Err(AllocError),
        Err(CoreFault::CorrelationSpent | CoreFault::ReplyFault(_)) => Ok(None),
    }
}
