//! What was set.

use crate::setting::Setting;

/// What was set, and to what.
#[derive(Clone, Copy, Debug)]
pub struct Given {
    pub name: Setting,
    pub value: u64,
}
