//! What passes between the lanes and the core: items one way, reports the other.

ghost use Rattle.std.specs.Prelude.{◌≡◌, ◌≤◌, length, vec_len, vec_capacity};
ghost use Rattle.kp_engine.specs.Agreement.{Agree};

mod asking;
mod calling;
mod closing;
mod opening;
mod reporting;
mod taking;

use crate::notes::Notes;
use crate::parts::Held;
use kp_accum::Item;
use kp_core::{Core, Report};
use kp_lanes::Intake;

/// The core and the lanes that it serves, with what is held between them.
#[derive(Drop)]
pub(crate) struct Exchange {
    pub(crate) core: Core,
    pub(crate) intake: Intake,
    /// At each sender's place its item that is held back: the core refused it.
    pub(crate) items: Vec<Option<Item>>,
    /// At each sender's place its report that is held back: its ring was full.
    pub(crate) reports: Vec<Option<Report>>,
    /// The core was closed.
    pub(crate) closed: bool,
    pub(crate) notes: Notes,
    /// Room for what is held, when the engine is taken apart.
    pub(crate) held: Held,
    ghost agree: { Agree core intake items.items reports.items },
    ghost nothing_yet: { (vec_len held.items ≡ 0) × (vec_len held.reports ≡ 0) },
    ghost room: { (length items.items ≤ vec_capacity held.items) × (length reports.items ≤ vec_capacity held.reports) },
}
