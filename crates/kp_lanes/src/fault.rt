//! Why lanes are not opened, a record or a flush is not accepted, and lanes are not settled.

ghost use Rattle.std.specs.Prelude.{◌≡◌};
ghost use Rattle.kp_lanes.specs.Faults.{open_fault_number, send_fault_number, flush_fault_number, settle_fault_number};

use std::alloc::AllocError;
use thiserror::Error;

/// Why lanes are not opened: of these, from the top, the first that applies.
#[derive(Clone, Copy, Debug, PartialEq, Eq, Error)]
pub enum OpenFault {
    #[error("senders are not from 1 to 64")]
    Senders,
    #[error("the capacity is not from 1 to 65536")]
    Capacity,
    #[error("partitions are not from 1 to 1024")]
    Partitions,
    #[error("out of memory")]
    OutOfMemory,
}

impl OpenFault {
    /// The fault's number, from 1, in the order in which they are looked for.
    pub fn number(self) -> u8
        ensures { result ≡ open_fault_number self }
    {
        match self {
            OpenFault::Senders => 1,
            OpenFault::Capacity => 2,
            OpenFault::Partitions => 3,
            OpenFault::OutOfMemory => 4,
        }
    }
}

impl From<AllocError> for OpenFault {
    ghost use Rattle.std.specs.Prelude.{◌≡◌};
    ghost use Rattle.kp_lanes.specs.declared.fault.OpenFault.TheVariants.{OutOfMemory};

    ghost from_gives = { λ _ e. e ≡ OutOfMemory };

    fn from(_refused: AllocError) -> OpenFault {
        OpenFault::OutOfMemory
    }
}

/// Why a record is not accepted. It comes back, and its sender's numbers are as they were. They are looked for in the
/// order closed, no such partition, record too large, numbers spent, lane full.
#[derive(Clone, Copy, Debug, PartialEq, Eq, Error)]
pub enum SendFault {
    #[error("the lanes are closed")]
    Closed,
    #[error("the lane is full")]
    LaneFull,
    #[error("the record is too large")]
    RecordTooLarge,
    #[error("there is no such partition")]
    NoSuchPartition,
    #[error("every number of the sender was used")]
    NumberSpent,
}

impl SendFault {
    /// The fault's number, from 1.
    pub fn number(self) -> u8
        ensures { result ≡ send_fault_number self }
    {
        match self {
            SendFault::Closed => 1,
            SendFault::LaneFull => 2,
            SendFault::RecordTooLarge => 3,
            SendFault::NoSuchPartition => 4,
            SendFault::NumberSpent => 5,
        }
    }
}

/// Why a flush is not accepted: of these the first that applies.
#[derive(Clone, Copy, Debug, PartialEq, Eq, Error)]
pub enum FlushFault {
    #[error("the lanes are closed")]
    Closed,
    #[error("the lane is full")]
    LaneFull,
}

impl FlushFault {
    /// The fault's number, from 1, in the order in which they are looked for.
    pub fn number(self) -> u8
        ensures { result ≡ flush_fault_number self }
    {
        match self {
            FlushFault::Closed => 1,
            FlushFault::LaneFull => 2,
        }
    }
}

/// Why lanes are not settled: of these the first that applies. Nothing has changed.
#[derive(Clone, Copy, Debug, PartialEq, Eq, Error)]
pub enum SettleFault {
    /// Not each sender has finished, or one is there twice.
    #[error("not each sender is there once")]
    Missing,
    #[error("out of memory")]
    OutOfMemory,
}

impl SettleFault {
    /// The fault's number, from 1, in the order in which they are looked for.
    pub fn number(self) -> u8
        ensures { result ≡ settle_fault_number self }
    {
        match self {
            SettleFault::Missing => 1,
            SettleFault::OutOfMemory => 2,
        }
    }
}
