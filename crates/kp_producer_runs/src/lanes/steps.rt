//! What a sender does, and what the intake does.

ghost use Rattle.std.specs.Prelude.{◌≡◌};
ghost use Rattle.kp_lanes.specs.Intake.{lanes_of};
ghost use Rattle.kp_lanes.specs.Sender.{SameSender};

use kp_batch::{Record, Timestamp};
use kp_cases::{StepFault, Words, put, put_debug};
use kp_lanes::{Intake, SendFault, Sender, Target, Ticket};
use kp_rules::{Outcome, Report};
use kp_wire::{Blob, Seq};
use std::alloc::Global;
use std::fmt::Write;

/// Where a record is to go, and the record: the length of its value, and its key, where there is one more word.
fn record_of(alloc: Global, words: &mut Words<'_>) -> Result<(Target, Record), StepFault> {
    let target = match words.word()? {
        "auto" => Target::Auto,
        number => Target::Named(number.parse().map_err(|_| StepFault::NotUnderstood)?),
    };
    let value = vec![in alloc; b'a'; words.number()?]?;
    let key = if words.is_empty() {
        None
    } else {
        Some(Blob::new(words.bytes()?))
    };
    let body = Record {
        timestamp: Timestamp::from_millis(0).ok_or("no timestamp")?,
        key,
        value: Some(Blob::new(value)),
        headers: Seq::new(Vec::new(alloc)),
    };
    Ok((target, body))
}

/// Tells where a record went; or why it came back, and how many bytes its value has.
fn tell_sent(
    came: &mut String,
    sent: Result<Ticket, (SendFault, Record)>,
) -> Result<(), StepFault> {
    match sent {
        Ok(Ticket { partition, number }) => write!(came, "partition {partition} number {number}")?,
        Err((fault, body)) => {
            let len = body.value.map_or(0, |value| value.len());
            write!(came, "{fault:?}, {len} bytes back")?
        }
    }
    Ok(())
}

/// Plays a step of a sender. A record is sent at this moment.
pub(crate) fn play_sender(
    alloc: Global,
    sender: &mut Sender,
    now: u64,
    step: &str,
    words: &mut Words<'_>,
    came: &mut String,
) -> Result<(), StepFault>
    ensures { SameSender sender.old sender.new }
{
    match step {
        "send" => {
            let (target, body) = record_of(alloc, words)?;
            tell_sent(came, sender.send(target, body, now))
        }
        "flush" => put_debug(came, &sender.flush()),
        "told" => put_debug(came, &sender.poll_report()),
        "waiting" => put(came, &sender.waiting()),
        _ => Err(StepFault::NotUnderstood),
    }
}

/// Plays a step of the intake.
pub(crate) fn play_intake(
    intake: &mut Intake,
    step: &str,
    words: &mut Words<'_>,
    came: &mut String,
) -> Result<(), StepFault>
    ensures { lanes_of intake.new ≡ lanes_of intake.old }
{
    if step == "intake.quiet" {
        return put(came, &intake.quiet());
    }
    let sender: u32 = words.number()?;
    if sender as usize >= intake.senders() {
        return Err(StepFault::CannotBe("no such sender"));
    }
    match step {
        "take" => put_debug(came, &intake.take(sender)),
        "asked" => put(came, &intake.asked(sender)),
        "report" => {
            let report = Report {
                sender,
                partition: 0,
                number: words.number()?,
                outcome: Outcome::Unknown,
            };
            put_debug(came, &intake.report(report))
        }
        _ => Err(StepFault::NotUnderstood),
    }
}
