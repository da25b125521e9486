//! What a sender had accepted is appended.

ghost use Rattle.std.specs.Prelude.{◌≡◌, true, OnOk};
ghost use Rattle.kp_core.specs.Answers.{answer_of};
ghost use Rattle.kp_replay.specs.Shown.{LeadsOn, is_there};
ghost use Rattle.kp_rules.specs.Calls.{Append, Step};
ghost use Rattle.kp_world.specs.declared.event.Event.TheVariants as event;

use crate::line::Line;
use crate::world::World;
use kp_accum::{AppendFault, Item};
use kp_core::Core;
use std::alloc::AllocError;

impl World {
    /// The oldest item that the sender had accepted and that was not taken is appended; where the memory is full it
    /// stays.
    pub fn take(&mut self, sender: u64) -> Result<(), AllocError>
        requires { is_there (event.Take sender) self.old ≡ true }
        ensures { OnOk result (LeadsOn (event.Take sender) self.old self.new) }
    {
        let was_flushed = self.core.flushed();
        let place = sender as usize;
        let Some(item) = self.accepted[place].get(self.taken[place]) else {
            return self.note(was_flushed, Some(Line::Empty { sender }));
        };
        let item = item.copy(self.alloc)?;
        match append(&mut self.core, item) {
            Ok(()) => {
                self.taken[place] += 1;
                self.note(was_flushed, None)
            }
            Err((AppendFault::BufferFull, _)) => {
                self.note(was_flushed, Some(Line::Full { sender }))
            }
            Err((AppendFault::OutOfMemory, _)) => Err(AllocError),
        }
    }
}

/// Appends the item. One that may not be appended is one for which there is no memory ever.
fn append(core: &mut Core, item: Item) -> Result<(), (AppendFault, Item)>
    ensures { Step core.old (Append item (answer_of result)) core.new }
{
    if !core.may_append(&item) {
        return Err((AppendFault::BufferFull, item));
    }
    core.append(item)
}
