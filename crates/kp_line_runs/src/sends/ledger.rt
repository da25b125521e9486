//! The lines that were sent, and what is told of them.

use crate::sends::ends::{fault_of, outcome_of};
use crate::sends::texts::{bytes_or_none, put_bytes_or, put_lines, separate};
use kp_cases::{StepFault, Words, put, refused, seen_of};
use kp_embed::Ticket;
use kp_rules::Report;
use kp_send::{Ledger, LedgerFault, Sent, Tellings, Told, keep_of};
use std::alloc::Global;
use std::fmt::Write;

/// Keeps a place for one more line.
pub(crate) fn reserve(ledger: &mut Ledger) -> Result<(), StepFault> {
    let before = seen_of(ledger);
    match ledger.reserve() {
        Ok(()) => Ok(()),
        Err(_) => Err(refused(seen_of(ledger) == before)),
    }
}

/// Enters a line: its partition and number, the line's number, and its bytes where they are kept.
pub(crate) fn send(
    ledger: &mut Ledger,
    words: &mut Words<'_>,
    came: &mut String,
) -> Result<(), StepFault> {
    let ticket = Ticket {
        partition: words.number()?,
        number: words.number()?,
    };
    let line = words.number()?;
    let bytes = bytes_or_none(words)?;
    let before = seen_of(ledger);
    match ledger.sent(ticket, Sent { line, bytes }) {
        Ok(()) => Ok(()),
        Err((LedgerFault::OutOfMemory, _)) => Err(refused(seen_of(ledger) == before)),
        Err((fault, sent)) => Ok(write!(came, "{fault:?}, line {} back", sent.line)?),
    }
}

/// A line and what became of it: `LINE FATE BYTES`.
fn put_told(told: &Told, came: &mut String) -> Result<(), StepFault> {
    separate(came)?;
    write!(came, "{} {:?} ", told.line, told.fate)?;
    put_bytes_or(came, &told.bytes, "none")
}

/// Tells the line of a report: its partition and number, and the outcome.
pub(crate) fn report(
    ledger: &mut Ledger,
    words: &mut Words<'_>,
    came: &mut String,
) -> Result<(), StepFault> {
    let report = Report {
        sender: 0,
        partition: words.number()?,
        number: words.number()?,
        outcome: outcome_of(words)?,
    };
    match ledger.told(&report) {
        Some(told) => put_told(&told, came),
        None => put(came, &"no line"),
    }
}

/// Tells all lines that wait, with one outcome.
pub(crate) fn leave(
    alloc: Global,
    ledger: &mut Ledger,
    words: &mut Words<'_>,
    came: &mut String,
) -> Result<(), StepFault> {
    let outcome = outcome_of(words)?;
    let before = seen_of(ledger);
    let Ok(left) = ledger.left(alloc, outcome) else {
        return Err(refused(seen_of(ledger) == before));
    };
    for told in &left {
        put_told(told, came)?;
    }
    Ok(())
}

/// Where the bytes of a line are kept, if they are.
fn put_keep(told: &Told, came: &mut String) -> Result<(), StepFault> {
    if let Some(keep) = keep_of(told.fate) {
        separate(came)?;
        write!(came, "kept: {keep:?}")?;
    }
    Ok(())
}

/// Tells of a line, and where its bytes are kept, if they are.
fn tell(
    alloc: Global,
    tellings: &mut Tellings,
    told: &Told,
    came: &mut String,
) -> Result<(), StepFault> {
    let (mut out, mut said) = (Vec::new(alloc), Vec::new(alloc));
    let before = seen_of(tellings);
    if tellings.tell(told, &mut out, &mut said).is_err() {
        return Err(refused(seen_of(tellings) == before));
    }
    put_lines(came, "out", &out)?;
    put_lines(came, "said", &said)?;
    put_keep(told, came)
}

/// Tells of a line that was sent: its number, its partition and the outcome.
pub(crate) fn tell_report(
    alloc: Global,
    tellings: &mut Tellings,
    words: &mut Words<'_>,
    came: &mut String,
) -> Result<(), StepFault> {
    let sent = Sent {
        line: words.number()?,
        bytes: None,
    };
    let partition = words.number()?;
    let told = Told::reported(sent, partition, outcome_of(words)?);
    tell(alloc, tellings, &told, came)
}

/// Tells of a line that was never sent: its number, and why.
pub(crate) fn tell_refusal(
    alloc: Global,
    tellings: &mut Tellings,
    words: &mut Words<'_>,
    came: &mut String,
) -> Result<(), StepFault> {
    let line = words.number()?;
    let told = Told::refused(line, fault_of(words)?, None);
    tell(alloc, tellings, &told, came)
}

/// Tells what is said at the end, and the status.
pub(crate) fn end(alloc: Global, tellings: &Tellings, came: &mut String) -> Result<(), StepFault> {
    let mut said = Vec::new(alloc);
    tellings.end(&mut said)?;
    put_lines(came, "said", &said)?;
    separate(came)?;
    Ok(write!(came, "status {}", tellings.status())?)
}
