//! Why a run gave nothing.

ghost use Rattle.std.specs.Prelude.{◌≡◌};
ghost use Rattle.std.specs.IoError.{error_kind};
ghost use Rattle.kp_run.specs.declared.fault.RunFault.TheVariants.{OutOfMemory};
ghost use Rattle.kp_run.specs.Faults.{of_kind, of_opening, of_plan, of_service};

use kp_accum::ConfigFault;
use kp_broker::PlanFault;
use kp_client::{OpenFault, ServiceFault};
use kp_hello::HandshakeFault;
use kp_log::LogFault;
use std::alloc::{AllocError, AllocFailed};
use std::io;

/// Why a run gave nothing: of these, from the top, the first that applies.
#[derive(Clone, Copy, Debug, PartialEq, Eq)]
pub enum RunFault {
    /// The topic's name is none that Kafka takes.
    Topic,
    /// The plan of the broker's faults can't be read.
    Plan,
    Config(ConfigFault),
    /// The broker can't be reached, or the event loop has failed.
    Network,
    /// The broker's answers gave no hello, or it named another number of partitions.
    Handshake(HandshakeFault),
    OutOfMemory,
}

impl From<AllocError> for RunFault {
    ghost from_gives = { λ _ e. e ≡ OutOfMemory };

    fn from(_refused: AllocError) -> RunFault {
        RunFault::OutOfMemory
    }
}

impl<T: Drop> From<AllocFailed<T>> for RunFault {
    ghost from_gives = { λ _ e. e ≡ OutOfMemory };

    fn from(_refused: AllocFailed<T>) -> RunFault {
        RunFault::OutOfMemory
    }
}

impl From<LogFault> for RunFault {
    ghost from_gives = { λ _ e. e ≡ OutOfMemory };

    fn from(_refused: LogFault) -> RunFault {
        RunFault::OutOfMemory
    }
}

impl From<PlanFault> for RunFault {
    ghost from_gives = { λ fault e. e ≡ of_plan fault };

    fn from(fault: PlanFault) -> RunFault {
        match fault {
            PlanFault::BadPlan => RunFault::Plan,
            PlanFault::OutOfMemory => RunFault::OutOfMemory,
        }
    }
}

impl From<io::Error> for RunFault {
    ghost from_gives = { λ error e. e ≡ of_kind (error_kind error) };

    fn from(error: io::Error) -> RunFault {
        match error.kind() {
            io::ErrorKind::OutOfMemory => RunFault::OutOfMemory,
            _ => RunFault::Network,
        }
    }
}

impl From<OpenFault> for RunFault {
    ghost from_gives = { λ fault e. e ≡ of_opening fault };

    fn from(fault: OpenFault) -> RunFault {
        match fault {
            OpenFault::Topic | OpenFault::Client => RunFault::Topic,
            OpenFault::Config(fault) => RunFault::Config(fault),
            // (a run has one broker, and a policy with a limit is one of a single broker)
            OpenFault::Network | OpenFault::Policy => RunFault::Network,
            OpenFault::Handshake(fault) => RunFault::Handshake(fault),
            OpenFault::Partitions { .. } | OpenFault::Lanes(_) => {
                RunFault::Handshake(HandshakeFault::BadAnswer)
            }
            OpenFault::OutOfMemory => RunFault::OutOfMemory,
        }
    }
}

impl From<ServiceFault> for RunFault {
    ghost from_gives = { λ fault e. e ≡ of_service fault };

    fn from(fault: ServiceFault) -> RunFault {
        match fault {
            ServiceFault::EventLoop => RunFault::Network,
            ServiceFault::OutOfMemory => RunFault::OutOfMemory,
        }
    }
}
