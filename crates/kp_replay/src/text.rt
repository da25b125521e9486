//! A world's lines as text, each put behind what is there.

mod answers;
mod logs;
mod past;

pub use logs::{put_audits, put_logs};
pub use past::put_past;
