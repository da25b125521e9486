//! The statuses that calls give.

ghost use Rattle.std.specs.Prelude.{◌≡◌, ◌≢◌, pos, OnOk, OnErr};

use kp_accum::ConfigFault;
use kp_bootstrap::BootstrapFault;
use kp_embed::{Fault, SendFault};
use std::alloc::AllocError;

/// The status of what was done.
pub(crate) const OK: i32 = 0;

/// Why a call is refused.
#[derive(Clone, Copy, Debug, PartialEq, Eq)]
pub(crate) enum Refusal {
    /// The handle holds none.
    NoProducer,
    OutOfMemory,
    Send(SendFault),
    Connection(Fault),
    /// Before the beginning of 1970.
    Timestamp,
    /// The lengths are of other bytes than there are, or a header's name is not UTF-8.
    Lengths,
    /// The host does not fit into the room for it.
    Room,
    TopicEmpty,
    TopicTooLong,
    TopicNotUtf8,
    ClientTooLong,
    ClientNotUtf8,
    NoAddress,
    /// Not `host:port`, with a port from 1 to 65535.
    Address,
    TooManyAddresses,
    Config(ConfigFault),
}

impl Refusal {
    /// It is never that of what was done.
    pub(crate) fn status(self) -> i32
        ensures { result ≢ pos 0 }
    {
        match self {
            Refusal::NoProducer => 1,
            Refusal::OutOfMemory => 2,
            Refusal::Send(fault) => send_status(fault),
            Refusal::Connection(fault) => connection_status(fault),
            Refusal::Timestamp => 13,
            Refusal::Lengths => 14,
            Refusal::Room => 15,
            Refusal::TopicEmpty => 20,
            Refusal::TopicTooLong => 21,
            Refusal::TopicNotUtf8 => 22,
            Refusal::ClientTooLong => 23,
            Refusal::ClientNotUtf8 => 24,
            Refusal::NoAddress => 25,
            Refusal::Address => 26,
            Refusal::TooManyAddresses => 27,
            Refusal::Config(fault) => config_status(fault),
        }
    }
}

impl From<BootstrapFault> for Refusal {
    fn from(fault: BootstrapFault) -> Refusal {
        match fault {
            BootstrapFault::Empty => Refusal::NoAddress,
            BootstrapFault::Address => Refusal::Address,
            BootstrapFault::TooMany => Refusal::TooManyAddresses,
            BootstrapFault::OutOfMemory => Refusal::OutOfMemory,
        }
    }
}

impl From<AllocError> for Refusal {
    fn from(_fault: AllocError) -> Refusal {
        Refusal::OutOfMemory
    }
}

fn send_status(fault: SendFault) -> i32
    ensures { result ≢ pos 0 }
{
    match fault {
        SendFault::OutOfMemory => 2,
        SendFault::Closed => 3,
        SendFault::NotReady => 4,
        SendFault::NoPartition => 5,
        SendFault::TooLarge => 6,
        SendFault::BufferFull => 7,
        SendFault::Spent => 8,
    }
}

fn connection_status(fault: Fault) -> i32
    ensures { result ≢ pos 0 }
{
    match fault {
        Fault::OutOfMemory => 2,
        Fault::NoNode => 9,
        Fault::NoConnection => 10,
        Fault::BadAnswer => 11,
    }
}

fn config_status(fault: ConfigFault) -> i32
    ensures { result ≢ pos 0 }
{
    match fault {
        ConfigFault::BatchSize => 101,
        ConfigFault::Linger => 102,
        ConfigFault::BufferMemory => 103,
        ConfigFault::MaxRequestSize => 104,
        ConfigFault::RequestTimeout => 105,
        ConfigFault::DeliveryTimeout => 106,
        ConfigFault::RetryBackoff => 107,
        ConfigFault::MaxInFlight => 108,
        ConfigFault::SequenceLimit => 109,
        ConfigFault::BatchAboveRequest => 110,
    }
}

/// The status of what was done or refused.
pub(crate) fn status_of(done: Result<(), Refusal>) -> i32
    ensures done { OnOk done (result ≡ pos 0) }
    ensures refused { OnErr done (result ≢ pos 0) }
{
    match done {
        Ok(()) => OK,
        Err(refusal) => refusal.status(),
    }
}
