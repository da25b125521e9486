//! What became of a line.

use kp_embed::SendFault;
use kp_rules::Outcome;
use kp_wire::Blob;

/// A line whose record was accepted.
#[derive(Debug, Drop)]
pub struct Sent {
    /// The first line's is 1.
    pub line: u64,
    /// The line as it came, where it may be wanted again.
    pub bytes: Option<Blob>,
}

/// How it ended with a line.
#[derive(Clone, Copy, Debug, PartialEq, Eq)]
pub enum Fate {
    /// Its record was accepted for this partition, and this became of it.
    Reported(u32, Outcome),
    /// Its record was never accepted.
    Refused(SendFault),
}

/// A line, and what became of it.
#[derive(Debug, Drop)]
pub struct Told {
    /// The first line's is 1.
    pub line: u64,
    pub fate: Fate,
    /// The line as it came, where it may be wanted again.
    pub bytes: Option<Blob>,
}

impl Told {
    ghost use Rattle.std.specs.Prelude.{◌≡◌};
    ghost use Rattle.kp_send.specs.Ledger.{refused, reported};

    /// The record of this line was accepted for this partition, and this became of it.
    pub fn reported(sent: Sent, partition: u32, outcome: Outcome) -> Told
        ensures { result ≡ reported sent partition outcome }
    {
        let Sent { line, bytes } = sent;
        Told {
            line,
            fate: Fate::Reported(partition, outcome),
            bytes,
        }
    }

    /// The record of this line was never accepted.
    pub fn refused(line: u64, fault: SendFault, bytes: Option<Blob>) -> Told
        ensures { result ≡ refused line fault bytes }
    {
        Told {
            line,
            fate: Fate::Refused(fault),
            bytes,
        }
    }
}
