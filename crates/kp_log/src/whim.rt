//! What a log is told to do with a batch, beside the rule.

use crate::error_code::ErrorCode;

/// What a log is told to do with a batch, beside the rule: so that a producer may be tried against a broker that fails.
#[derive(Clone, Copy, Debug, PartialEq, Eq)]
pub enum Whim {
    /// To answer this code, and to look at nothing.
    Refuse(ErrorCode),
    /// To do what the rule says, and then to answer this code.
    Late(ErrorCode),
}
