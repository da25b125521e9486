//! What is printed of records: numbers and values, a log's lines, what became of records that were sent, and how many came
//! to which end. Each is put behind what is there.
#![tactic(auto)]

mod audits;
mod logs;
mod printing;
mod reports;
mod totals;

pub use audits::put_audit;
pub use logs::{put_log, put_own, value_in};
pub use printing::{end_line, put_answer_line, put_batch_line, put_log_line, put_named};
pub use reports::put_reports;
pub use totals::put_totals;
