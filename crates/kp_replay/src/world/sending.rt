//! The next request goes out.

ghost use Rattle.std.specs.Prelude.{◌≡◌, ◌≢◌, IfOk, OnOk};
ghost use Rattle.kp_replay.specs.Line.{line_of};
ghost use Rattle.kp_replay.specs.Packets.{fault_line};
ghost use Rattle.kp_replay.specs.Shown.{LeadsOn};
ghost use Rattle.kp_world.specs.declared.event.Event.TheVariants as event;

use crate::line::Line;
use crate::packets::sent_line;
use crate::world::World;
use kp_rules::CoreFault;
use std::alloc::AllocError;

impl World {
    /// The next request to this node goes out, as a packet, where there is one.
    pub fn send(&mut self, node: u32) -> Result<(), AllocError>
        ensures { OnOk result (LeadsOn (event.SendNode node) self.old self.new) }
    {
        let was_flushed = self.core.flushed();
        match self.core.next_request(node, self.moment) {
            Ok(Some(outgoing)) => {
                let number = self.packets.len() as u64;
                let line = sent_line(self.alloc, number, outgoing.bytes.as_slice())?;
                self.packets.push(outgoing)?;
                self.note(was_flushed, Some(line))
            }
            Ok(None) => self.note(was_flushed, Some(Line::Idle)),
            Err(fault) => {
                let line = fault_line(fault)?;
                self.note(was_flushed, Some(line))
            }
        }
    }
}

/// What is told of a request that was refused so, where there was memory for it.
fn fault_line(fault: CoreFault) -> Result<Line, AllocError>
    ensures line { IfOk result (λ line. line_of line ≡ fault_line fault) }
    ensures memory { OnOk result (fault ≢ CoreFault.OutOfMemory) }
{
    match fault {
        CoreFault::Ended => Ok(Line::Ended),
        CoreFault::OutOfMemory => Err(AllocError),
        CoreFault::CorrelationSpent | CoreFault::ReplyFault(_) => Ok(Line::Idle),
    }
}
