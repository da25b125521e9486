//! Lines that are too large to be sent.

ghost use Rattle.std.specs.Prelude.{IfOk};
ghost use Rattle.kp_dealing.specs.Sizing.{IsToldTooLarge};

use crate::dealing::record_of;
use kp_batch::charge;
use kp_options::Options;
use kp_stamps::wall_stamp;
use std::alloc::{AllocError, AllocGlobal};
use std::time::Clock;

/// Whether a run with these options leaves a line out, since its record is larger than a request or the buffer may be.
pub fn is_too_large<R: Clock + AllocGlobal>(
    rt: &R,
    options: &Options<'_>,
    line: &[u8],
) -> Result<bool, AllocError>
    ensures { IfOk result (IsToldTooLarge options.now line.now) }
{
    let config = &options.config;
    let record = record_of(rt.alloc(), options.keyed, wall_stamp(rt), line)?;
    Ok(charge(&record) > config.max_request_size.min(config.buffer_memory))
}
