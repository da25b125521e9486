//! A content behind its size (protocol guide, "Protocol Structure").

ghost use Rattle.std.specs.Prelude.{◌≡◌, length};
ghost use Rattle.kp_frames.specs.Writing.{IsFrame};

use crate::fault::FrameFault;
use kp_wire::{MeasuredField, WireFault, put_i32};
use std::alloc::Global;

/// The most bytes that a frame's content has: 16 MiB.
pub const CONTENT_LIMIT: usize = 16_777_216;

/// How many bytes a frame's size takes.
pub(crate) const SIZE_LENGTH: usize = 4;

/// The frame of a content. Its bytes are reserved once they are counted, and written once.
#[tactic(auto, unfolding(crate::specs::Stream::frame))]
pub(crate) fn write_frame<T: MeasuredField>(
    alloc: Global,
    content: &T,
) -> Result<Vec<u8>, FrameFault>
    ensures { IsFrame (λ bytes. bytes.items) (T.fits content.now) (T.spells content.now) result }
{
    let Some(size) = content.size() else {
        return Err(FrameFault::Wire(WireFault::BadLength));
    };
    if size > CONTENT_LIMIT as u64 {
        return Err(FrameFault::TooLarge);
    }
    let mut out = Vec::with_capacity(alloc, SIZE_LENGTH + size as usize)?;
    put_i32(&mut out, size as i32)?;
    content.put(&mut out)?;
    Ok(out)
}
