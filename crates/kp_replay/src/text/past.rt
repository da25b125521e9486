//! The text of what happened, event by event.

ghost use Rattle.std.specs.Prelude.{◌≡◌, ◌++◌, OnOk, flat_map};
ghost use Rattle.kp_replay.specs.Text.{flushed_text, noted_by, noted_text};

use crate::happened::Happened;
use crate::text::answers::put_answer;
use kp_text::put_reports;
use std::alloc::AllocError;

/// Whether an event ended a flush.
#[tactic(auto, unfolding(kp_world::specs::Text::line_text))]
fn put_flushed(out: &mut Vec<u8>, flushed: bool) -> Result<(), AllocError>
    ensures { OnOk result (out.new.items ≡ out.old.items ++ flushed_text flushed) }
{
    if flushed {
        return out.extend_from_slice(b"flushed\n");
    }
    Ok(())
}

/// An event: what it was answered, the reports that were made in it, and whether it ended a flush.
fn put_happened(out: &mut Vec<u8>, happened: &Happened) -> Result<(), AllocError>
    ensures { OnOk result (out.new.items ≡ out.old.items ++ noted_text (noted_by happened.now)) }
{
    put_answer(out, &happened.answer)?;
    put_reports(out, happened.reports.as_slice())?;
    put_flushed(out, happened.flushed)
}

/// All events.
pub fn put_past(out: &mut Vec<u8>, past: &[Happened]) -> Result<(), AllocError>
    ensures { OnOk result (out.new.items ≡ out.old.items ++ flat_map (λ h. noted_text (noted_by h)) past.now) }
{
    for happened in past {
        put_happened(out, happened)?;
    }
    Ok(())
}
