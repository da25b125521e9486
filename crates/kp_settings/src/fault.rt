//! Why a producer is not opened, and why its service ends without what it held.

ghost use Rattle.std.specs.Prelude.{◌≡◌};
ghost use Rattle.kp_settings.specs.Faults.{of_error, of_handshake, of_lanes, of_loop};
ghost use Rattle.kp_settings.specs.declared.fault.OpenFault.TheVariants as opening;

use kp_accum::ConfigFault;
use kp_hello::HandshakeFault;
use kp_rules::ErrorCode;
use std::alloc::{AllocError, AllocFailed};
use std::error::Error;
use std::{fmt, io};

/// Why a producer is not opened: of these, from the top, the first that applies.
#[derive(Clone, Copy, Debug, PartialEq, Eq)]
pub enum OpenFault {
    /// The topic's name has more than 249 bytes.
    Topic,
    /// The client's name has more than 249 bytes.
    Client,
    Config(ConfigFault),
    /// The policy has a limit, where the connections are those to a cluster.
    Policy,
    /// No connection could be made, or no hello came, within `request.timeout.ms`.
    Network,
    /// The broker's answers gave no hello.
    Handshake(HandshakeFault),
    /// The topic has another number of partitions than was expected.
    Partitions { expected: u32, found: u32 },
    Lanes(kp_lanes::OpenFault),
    OutOfMemory,
}

impl fmt::Display for OpenFault {
    fn fmt<W: fmt::Write>(&self, f: &mut fmt::Formatter<W>) -> fmt::Result {
        match self {
            OpenFault::Topic => f.write_str("the topic's name has more than 249 bytes"),
            OpenFault::Client => f.write_str("the client's name has more than 249 bytes"),
            OpenFault::Config(fault) => write!(f, "{fault}"),
            OpenFault::Policy => f.write_str(
                "connections to a cluster are made for as long as it takes: their number has no limit",
            ),
            OpenFault::Network => f.write_str("the broker can't be reached"),
            OpenFault::Handshake(HandshakeFault::Refused(code)) => tell_refusal(f, *code),
            OpenFault::Handshake(fault) => write!(f, "{fault}"),
            OpenFault::Partitions { expected, found } => write!(
                f,
                "the number of the topic's partitions is {found}, and {expected} was expected"
            ),
            OpenFault::Lanes(fault) => write!(f, "{fault}"),
            OpenFault::OutOfMemory => f.write_str("out of memory"),
        }
    }
}

/// What a broker refused with, by its number, its name and in words.
fn tell_refusal<W: fmt::Write>(f: &mut fmt::Formatter<W>, code: i16) -> fmt::Result {
    match ErrorCode::of(code) {
        Some(ErrorCode { name, words, .. }) => {
            write!(f, "the broker refused: {code} {name}: {words}")
        }
        None => write!(f, "the broker refused: code {code}"),
    }
}

impl Error for OpenFault {}

/// Why a service ends without what it held: its thread's event loop has failed. Which of the records that have no report
/// were stored is not known.
#[derive(Clone, Copy, Debug, PartialEq, Eq, thiserror::Error)]
pub enum ServiceFault {
    #[error("the event loop has failed")]
    EventLoop,
    #[error("out of memory")]
    OutOfMemory,
}

impl From<AllocError> for OpenFault {
    ghost from_gives = { λ _ e. e ≡ opening.OutOfMemory };

    fn from(_refused: AllocError) -> OpenFault {
        OpenFault::OutOfMemory
    }
}

impl<T: Drop> From<AllocFailed<T>> for OpenFault {
    ghost from_gives = { λ _ e. e ≡ opening.OutOfMemory };

    fn from(_refused: AllocFailed<T>) -> OpenFault {
        OpenFault::OutOfMemory
    }
}

impl From<io::Error> for OpenFault {
    ghost from_gives = { λ error e. e ≡ of_error error };

    fn from(error: io::Error) -> OpenFault {
        match error.kind() {
            io::ErrorKind::OutOfMemory => OpenFault::OutOfMemory,
            _ => OpenFault::Network,
        }
    }
}

impl From<HandshakeFault> for OpenFault {
    ghost from_gives = { λ fault e. e ≡ of_handshake fault };

    fn from(fault: HandshakeFault) -> OpenFault {
        match fault {
            HandshakeFault::OutOfMemory => OpenFault::OutOfMemory,
            fault => OpenFault::Handshake(fault),
        }
    }
}

impl From<kp_lanes::OpenFault> for OpenFault {
    ghost from_gives = { λ fault e. e ≡ of_lanes fault };

    fn from(fault: kp_lanes::OpenFault) -> OpenFault {
        match fault {
            kp_lanes::OpenFault::OutOfMemory => OpenFault::OutOfMemory,
            fault => OpenFault::Lanes(fault),
        }
    }
}

impl From<io::Error> for ServiceFault {
    ghost from_gives = { λ error e. e ≡ of_loop error };

    fn from(error: io::Error) -> ServiceFault {
        match error.kind() {
            io::ErrorKind::OutOfMemory => ServiceFault::OutOfMemory,
            _ => ServiceFault::EventLoop,
        }
    }
}
