//! What happened in an event.

use crate::line::Line;
use kp_rules::Report;

/// What an event was answered, in a line or none, and the reports that were made in it, by sender; and whether it ended a
/// flush.
#[derive(Debug, Drop)]
pub struct Happened {
    pub answer: Option<Line>,
    pub reports: Vec<Report>,
    pub flushed: bool,
}
