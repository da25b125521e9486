//! Schedules, replayed.

ghost use Rattle.std.specs.Prelude.{IfErr, IfOk};
ghost use Rattle.kprod_replay.specs.Replays.{IsReplayOf, IsWhy};

use kp_replay::replay;
use kp_schedule::{ReplayFault, parse_schedule};
use std::alloc::Global;

/// The text of what a schedule brings about.
pub fn replay_text(alloc: Global, bytes: &[u8]) -> Result<Vec<u8>, ReplayFault>
    ensures text { IfOk result (λ text. IsReplayOf bytes.now text.items) }
    ensures why { IfErr result (IsWhy bytes.now) }
{
    let schedule = parse_schedule(alloc, bytes)?;
    let world = replay(alloc, schedule)?;
    Ok(world.lines()?)
}
