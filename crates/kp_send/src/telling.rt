//! What is told of lines, line by line and at the end.

ghost use Rattle.std.specs.Prelude.{◌≡◌, ◌++◌, OnErr, OnOk};
ghost use Rattle.kp_send.specs.Telling.{counted, end_text, keep_of, out_text, said_text, status_of};

use crate::told::{Fate, Told};
use crate::words::{put_delivered, put_left_out, put_undelivered};
use kp_rules::Outcome;
use std::alloc::AllocError;

/// Of how many lines that were not delivered it is said why.
pub const SAID_LIMIT: u64 = 10;

/// Which file keeps the bytes of a line that was not told as delivered.
#[derive(Clone, Copy, Debug, PartialEq, Eq)]
pub enum Keep {
    /// That of lines which can be sent again.
    Undelivered,
    /// That of lines of which nobody knows whether they stand in the log.
    Unknown,
}

/// Where the bytes of a line are kept with which it ended so, if they are.
pub fn keep_of(fate: Fate) -> Option<Keep>
    ensures { result ≡ keep_of fate }
{
    match fate {
        Fate::Reported(_, Outcome::Delivered(_) | Outcome::DeliveredNoOffset) => None,
        Fate::Reported(_, Outcome::Unknown) => Some(Keep::Unknown),
        Fate::Reported(_, Outcome::Rejected(_) | Outcome::Unsent(_)) | Fate::Refused(_) => {
            Some(Keep::Undelivered)
        }
    }
}

/// How many lines ended in which way.
#[derive(Clone, Copy, Debug, PartialEq, Eq)]
pub struct Tellings {
    pub delivered: u64,
    pub undelivered: u64,
}

impl Tellings {
    /// Nothing was told.
    pub fn new() -> Tellings
        ensures delivered { result.delivered ≡ 0 }
        ensures undelivered { result.undelivered ≡ 0 }
    {
        Tellings {
            delivered: 0,
            undelivered: 0,
        }
    }

    /// Tells of a line: of one that was delivered where it stands, behind `out`; of the first ones that were not, why, behind
    /// `said`. Where it fails nothing is counted, and a beginning of the text may stand there.
    pub fn tell(
        &mut self,
        told: &Told,
        out: &mut Vec<u8>,
        said: &mut Vec<u8>,
    ) -> Result<(), AllocError>
        ensures out { OnOk result (out.new.items ≡ out.old.items ++ out_text told.now) }
        ensures said { OnOk result
            (said.new.items ≡ said.old.items ++ said_text self.old told.now) }
        ensures counted { OnOk result (self.new ≡ counted self.old told.now.fate) }
        ensures refused { OnErr result (self.new ≡ self.old) }
    {
        put_place(told, out)?;
        self.note(told, said)
    }

    /// As `tell`, where it is not wanted where lines stand that were delivered.
    pub(crate) fn note(&mut self, told: &Told, said: &mut Vec<u8>) -> Result<(), AllocError>
        ensures said { OnOk result
            (said.new.items ≡ said.old.items ++ said_text self.old told.now) }
        ensures counted { OnOk result (self.new ≡ counted self.old told.now.fate) }
        ensures refused { OnErr result (self.new ≡ self.old) }
    {
        match told.fate {
            Fate::Reported(_, Outcome::Delivered(_) | Outcome::DeliveredNoOffset) => {
                self.delivered = self.delivered.saturating_add(1);
            }
            fate => {
                if self.undelivered < SAID_LIMIT {
                    put_undelivered(said, told.line, fate)?;
                }
                self.undelivered = self.undelivered.saturating_add(1);
            }
        }
        Ok(())
    }

    /// Says of how many lines that were not delivered it was not said why, where there are such.
    pub fn end(&self, said: &mut Vec<u8>) -> Result<(), AllocError>
        ensures { OnOk result (said.new.items ≡ said.old.items ++ end_text self.now) }
    {
        if self.undelivered <= SAID_LIMIT {
            return Ok(());
        }
        put_left_out(said, self.undelivered - SAID_LIMIT)
    }

    /// The exit status: 0 where each line that was told of was delivered, else 1.
    pub fn status(&self) -> u8
        ensures { result ≡ status_of self.now }
    {
        u8::from(self.undelivered > 0)
    }
}

/// Puts where a line stands behind the others, where it was delivered.
pub(crate) fn put_place(told: &Told, out: &mut Vec<u8>) -> Result<(), AllocError>
    ensures { OnOk result (out.new.items ≡ out.old.items ++ out_text told.now) }
{
    match told.fate {
        Fate::Reported(partition, Outcome::Delivered(offset)) => {
            put_delivered(out, told.line, partition, Some(offset))
        }
        Fate::Reported(partition, Outcome::DeliveredNoOffset) => {
            put_delivered(out, told.line, partition, None)
        }
        _ => Ok(()),
    }
}
