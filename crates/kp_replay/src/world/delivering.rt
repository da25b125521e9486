//! A packet comes to the broker.

ghost use Rattle.std.specs.Prelude.{◌≡◌, true, OnOk};
ghost use Rattle.kp_replay.specs.Shown.{LeadsOn, is_there};
ghost use Rattle.kp_world.specs.declared.event.Event.TheVariants as event;

use crate::broker::serve;
use crate::world::World;
use kp_world::Treatment;
use std::alloc::AllocError;

impl World {
    /// The packet comes to the broker, which does with it as it is told; its answer is the next reply.
    pub fn deliver(&mut self, packet: u64, treatment: Treatment) -> Result<(), AllocError>
        requires { is_there (event.Deliver packet treatment) self.old ≡ true }
        ensures { OnOk result (LeadsOn (event.Deliver packet treatment) self.old self.new) }
    {
        let was_flushed = self.core.flushed();
        let reply = self.replies.len() as u64;
        let (bytes, line) = serve(
            self.alloc,
            self.logs.as_mut_slice(),
            &mut self.drawn,
            &self.packets[packet as usize],
            reply,
            treatment,
        )?;
        self.replies.push(bytes)?;
        self.note(was_flushed, Some(line))
    }
}
