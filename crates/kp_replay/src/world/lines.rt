//! What happened in a world and what it comes to, as text.

ghost use Rattle.std.specs.Prelude.{IfOk};
ghost use Rattle.kp_replay.specs.Text.{Tells};

use crate::text::{put_audits, put_logs, put_past};
use crate::world::World;
use std::alloc::AllocError;

impl World {
    /// What happened, event by event; and then each partition's log, and each one's audit. Each line ends with byte 10.
    pub fn lines(&self) -> Result<Vec<u8>, AllocError>
        ensures { IfOk result (λ text. Tells self.now text.items) }
    {
        let mut text = Vec::new(self.alloc);
        put_past(&mut text, self.past.as_slice())?;
        put_logs(&mut text, &self.core, self.logs.as_slice())?;
        put_audits(&mut text, &self.core)?;
        Ok(text)
    }
}
