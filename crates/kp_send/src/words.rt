//! What is said of a line, as text: each put behind what is there.

ghost use Rattle.std.specs.Prelude.{◌≡◌, ◌++◌, OnOk};
ghost use Rattle.kp_send.specs.Words.{delivered_line, fate_words, fault_words, left_out_line, outcome_words, reason_words, undelivered_line};

use crate::told::Fate;
use kp_embed::SendFault;
use kp_rules::{Outcome, Reason};
use kp_text::{end_line, put_named};
use std::alloc::AllocError;

/// Why a record that was accepted was never sent, and what to do.
fn reason_words(reason: Reason) -> &'static [u8]
    ensures { result.now ≡ reason_words reason }
{
    match reason {
        Reason::Expired => b"not sent: the delivery timeout passed; it can be sent again",
        Reason::Fenced => {
            b"not sent: an earlier record of its partition was rejected or is unknown; look at that one, and then it can be sent again"
        }
        Reason::Ended => b"not sent: the producer was ended; it can be sent again",
    }
}

/// Why a record was never accepted, and what to do.
fn fault_words(fault: SendFault) -> &'static [u8]
    ensures { result.now ≡ fault_words fault }
{
    match fault {
        SendFault::Closed => b"not sent: the producer was closed; it can be sent again",
        SendFault::NotReady => b"not sent: no broker was ready; it can be sent again",
        SendFault::NoPartition => b"not sent: the topic has no such partition; name another one",
        SendFault::TooLarge => {
            b"not sent: its record is too large; raise max.request.size or buffer.memory, or make it smaller"
        }
        SendFault::BufferFull => b"not sent: the buffer was full; it can be sent again",
        SendFault::Spent => {
            b"not sent: every correlation id or number was used; it can be sent by another producer"
        }
        SendFault::OutOfMemory => b"not sent: out of memory; it can be sent again",
    }
}

/// What became of a record that was accepted, and what to do.
fn put_outcome(out: &mut Vec<u8>, outcome: Outcome) -> Result<(), AllocError>
    ensures { OnOk result (out.new.items ≡ out.old.items ++ outcome_words outcome) }
{
    match outcome {
        Outcome::Delivered(_) | Outcome::DeliveredNoOffset => out.extend_from_slice(b"delivered"),
        Outcome::Unknown => out.extend_from_slice(
            b"sent, and no answer came: it may stand in the log or not; look there before it is sent again",
        ),
        Outcome::Rejected(code) => {
            put_named(
                out,
                b"rejected by the broker; look at its error code, ",
                code,
            )
        }
        Outcome::Unsent(reason) => out.extend_from_slice(reason_words(reason)),
    }
}

fn put_fate(out: &mut Vec<u8>, fate: Fate) -> Result<(), AllocError>
    ensures { OnOk result (out.new.items ≡ out.old.items ++ fate_words fate) }
{
    match fate {
        Fate::Reported(_, outcome) => put_outcome(out, outcome),
        Fate::Refused(fault) => out.extend_from_slice(fault_words(fault)),
    }
}

/// A line that was not delivered: `line LINE: WHY`.
pub(crate) fn put_undelivered(out: &mut Vec<u8>, line: u64, fate: Fate) -> Result<(), AllocError>
    ensures { OnOk result (out.new.items ≡ out.old.items ++ undelivered_line line fate) }
{
    put_named(out, b"line ", line)?;
    out.extend_from_slice(b": ")?;
    put_fate(out, fate)?;
    end_line(out)
}

/// A line that was delivered: `LINE PARTITION OFFSET`, and where the offset is not known `LINE PARTITION -`.
pub(crate) fn put_delivered(
    out: &mut Vec<u8>,
    line: u64,
    partition: u32,
    offset: Option<i64>,
) -> Result<(), AllocError>
    ensures { OnOk result (out.new.items ≡ out.old.items ++ delivered_line line partition offset) }
{
    put_named(out, b"", line)?;
    put_named(out, b" ", partition)?;
    match offset {
        Some(offset) => put_named(out, b" ", offset)?,
        None => out.extend_from_slice(b" -")?,
    }
    end_line(out)
}

/// How many more lines were not delivered than were said.
pub(crate) fn put_left_out(out: &mut Vec<u8>, count: u64) -> Result<(), AllocError>
    ensures { OnOk result (out.new.items ≡ out.old.items ++ left_out_line count) }
{
    put_named(out, b"more lines that were not delivered: ", count)?;
    end_line(out)
}
