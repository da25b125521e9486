//! What all connections share.

use kp_embed::Embed;
use std::alloc::{AllocError, Global};

/// The most bytes that one read is offered room for: 64 KiB.
const READ_ROOM: usize = 65_536;

/// The producer, and what all of its connections share.
#[derive(Drop)]
pub(crate) struct Host<D> {
    pub(crate) alloc: Global,
    pub(crate) embed: Embed,
    pub(crate) dial: D,
    /// What was read last stands at its front.
    pub(crate) room: Vec<u8>,
}

/// Room for one read.
pub(crate) fn read_room(alloc: Global) -> Result<Vec<u8>, AllocError> {
    let mut room = Vec::new(alloc);
    room.resize(READ_ROOM, 0)?;
    Ok(room)
}
