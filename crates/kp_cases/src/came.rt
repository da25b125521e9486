//! What a step came to, as text.

use crate::fault::StepFault;
use std::fmt::{Debug, Display};

/// Writes a value, as its `Display` has it.
pub fn put<T: Display>(came: &mut String, value: &T) -> Result<(), StepFault> {
    Ok(write!(came, "{value}")?)
}

/// Writes a value, as its `Debug` has it.
pub fn put_debug<T: Debug>(came: &mut String, value: &T) -> Result<(), StepFault> {
    Ok(write!(came, "{value:?}")?)
}
