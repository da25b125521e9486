//! What a value shows of itself, as one number.

use crate::fault::StepFault;
use std::fmt::{self, Debug, Write};

/// What no text comes to, and by what each of its bytes multiplies (FNV-1a, 64 bits).
const NONE: u64 = 0xcbf2_9ce4_8422_2325;

const FACTOR: u64 = 0x0100_0000_01b3;

/// Text that is summed up, and not kept.
#[derive(Drop)]
struct Sum {
    sum: u64,
}

impl Write for Sum {
    fn write_str(&mut self, text: &str) -> fmt::Result {
        for byte in text.as_bytes() {
            self.sum = (self.sum ^ u64::from(*byte)).wrapping_mul(FACTOR);
        }
        Ok(())
    }
}

/// A number for all that a value shows of itself. A value that shows something else has another. It takes no memory.
pub fn seen_of<T: Debug>(value: &T) -> u64 {
    let mut sum = Sum { sum: NONE };
    match write!(sum, "{value:?}") {
        Ok(()) | Err(fmt::Error) => sum.sum,
    }
}

/// Why a step can't be played whose call was refused memory: it finds none, where all is as it was.
pub fn refused(is_as_it_was: bool) -> StepFault {
    if is_as_it_was {
        StepFault::OutOfMemory
    } else {
        StepFault::CannotBe("memory is refused, and something has changed")
    }
}
