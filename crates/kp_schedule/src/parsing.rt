//! A text, read as a schedule.

ghost use Rattle.kp_schedule.specs.Schedule.{ParsesSchedule};

use crate::draft::Draft;
use crate::fault::ReplayFault;
use crate::lines::{cut_line, has_more_lines};
use crate::schedule::Schedule;
use std::alloc::Global;

/// The most lines of a schedule.
pub const LINE_LIMIT: u64 = 100_000;

/// The schedule that a text spells. TooLong, before all else, where it has more lines than a schedule may have; BadLine
/// of the first line that is not understood where it stands.
pub fn parse_schedule(alloc: Global, text: &[u8]) -> Result<Schedule, ReplayFault>
    ensures { ParsesSchedule text.now result }
{
    if has_more_lines(LINE_LIMIT, text) {
        return Err(ReplayFault::TooLong);
    }
    let mut draft = Draft::new(alloc);
    let mut number = 0;
    let mut rest = text;
    while !rest.is_empty() {
        let (line, behind) = cut_line(rest);
        number += 1;
        draft.read(number, line)?;
        rest = behind;
    }
    Ok(draft.finish())
}
