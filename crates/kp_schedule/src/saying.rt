//! What a line says.

use crate::setting::Setting;
use kp_world::Event;

/// What a line of a schedule says.
#[derive(Debug, Drop)]
pub enum Saying {
    /// Nothing: the line is empty, or a comment.
    Nothing,
    /// That this is set to this.
    Sets(Setting, u64),
    /// That this happens.
    Happens(Event),
}
