//! Why a line is not entered.

use thiserror::Error;

/// Why a line is not entered: of these the first that applies. Nothing has changed.
#[derive(Clone, Copy, Debug, PartialEq, Eq, Error)]
pub enum LedgerFault {
    /// Another line waits for the report of this ticket.
    #[error("a line waits for this ticket")]
    Waits,
    #[error("out of memory")]
    OutOfMemory,
}
