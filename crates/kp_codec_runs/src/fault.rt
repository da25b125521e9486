//! Why bytes are not what they are read as.

use kp_batch::BatchFault;
use kp_cases::{StepFault, put};
use kp_frames::FrameFault;
use kp_wire::{ReadError, WireFault};
use std::alloc::AllocError;
use thiserror::Error;

/// A codec's fault, which is told by its name; or why the step can't be played.
#[derive(Clone, Copy, Debug, Error)]
pub enum Fault {
    #[error("{0:?}")]
    Wire(#[from] WireFault),
    #[error("{0:?}")]
    Batch(#[from] BatchFault),
    #[error("{0:?}")]
    Frame(#[from] FrameFault),
    #[error("{0}")]
    Step(#[from] StepFault),
    #[error("out of memory")]
    Memory(#[from(alloc)] AllocError),
}

impl Fault {
    /// Whether memory was refused.
    fn wants_memory(&self) -> bool {
        matches!(
            self,
            Fault::Memory(_)
                | Fault::Batch(BatchFault::OutOfMemory)
                | Fault::Frame(FrameFault::OutOfMemory)
        )
    }

    /// Tells a codec's fault, where the step can be played.
    pub(crate) fn tell(self, came: &mut String) -> Done {
        match self {
            Fault::Step(fault) => Err(fault),
            fault if fault.wants_memory() => Err(StepFault::OutOfMemory),
            fault => put(came, &fault),
        }
    }
}

impl From<ReadError> for Fault {
    fn from(error: ReadError) -> Fault {
        match error {
            ReadError::Memory => Fault::Memory(AllocError),
            ReadError::Fault(fault) => Fault::Wire(fault),
        }
    }
}

/// The bytes that are left behind what was read.
pub(crate) type Left<'a> = Result<&'a [u8], Fault>;

/// That something was done in a step.
pub(crate) type Done = Result<(), StepFault>;

/// Whether a step was played.
pub(crate) type Played = Result<bool, StepFault>;
