//! Plays lines that are sent as records: how a stream is cut into lines, which record a line is, what becomes of it, and
//! what is told of that.
//!
//! - `chunk BYTES` takes a chunk of the stream, and tells the lines that end there, as `NUMBER:BYTES`. `finish` ends the
//!   stream, and tells its last line, or `none`. The delimiter is 0a, and `delimiter N` begins a stream with another byte.
//! - `form some BYTES|none nulls|values COUNT NAME BYTES ..` says how lines are made into records: the key delimiter, whether
//!   a value without a byte is null, and so many headers. `record MOMENT BYTES` tells a line's record, as
//!   `MOMENT KEY VALUE NAME=VALUE ..`.
//! - `reserve` keeps a place; `send PARTITION NUMBER LINE some BYTES|none` enters a line, `report PARTITION NUMBER OUTCOME`
//!   tells the line of a report, as `LINE FATE BYTES`, and `leave OUTCOME` all that wait. `waiting` is how many wait.
//! - `tell LINE PARTITION OUTCOME` and `refuse LINE FAULT` tell what is put out and said of a line, and which file keeps its
//!   bytes; `end` what is said at the end, and the exit status.
//! - `latencies N ..` adds latencies; `percentile P` tells the one of so many hundredths, and `summary` their count, mean
//!   and greatest.
//!
//! Bytes are hexadecimal, `-` where there are none. OUTCOME is `delivered OFFSET`, `stored`, `unknown`, `rejected CODE`,
//! `expired`, `fenced` or `ended`; FAULT `closed`, `not-ready`, `no-partition`, `too-large`, `buffer-full`, `spent` or
//! `memory`.

mod ends;
mod ledger;
mod lines;
mod records;
mod texts;

use kp_cases::{StepFault, Words, put, put_debug};
use kp_lines::Lines;
use kp_send::{Form, Latencies, Ledger, Tellings};
use std::alloc::Global;
use std::fmt::Write;
use std::mem;

#[derive(Drop)]
pub(crate) struct SendPlayer {
    alloc: Global,
    lines: Lines,
    form: Form,
    ledger: Ledger,
    tellings: Tellings,
    latencies: Option<Latencies>,
}

impl SendPlayer {
    pub(crate) fn new(alloc: Global) -> SendPlayer {
        SendPlayer {
            alloc,
            lines: Lines::new(alloc, b'\n'),
            form: records::plain(alloc),
            ledger: Ledger::new(alloc),
            tellings: Tellings::new(),
            latencies: None,
        }
    }

    /// The stream that was played, in whose place is one of which nothing has come.
    fn end_stream(&mut self, delimiter: u8) -> Lines {
        mem::replace(&mut self.lines, Lines::new(self.alloc, delimiter))
    }

    /// Adds the latencies of the words.
    fn add_latencies(&mut self, words: &mut Words<'_>) -> Result<(), StepFault> {
        if self.latencies.is_none() {
            self.latencies = Some(Latencies::new(self.alloc)?);
        }
        let Some(latencies) = &mut self.latencies else {
            return Ok(());
        };
        for word in words.rest().split_whitespace() {
            latencies.add(word.parse().map_err(|_| StepFault::NotUnderstood)?);
        }
        Ok(())
    }

    fn latencies(&self) -> Result<&Latencies, StepFault> {
        Ok(self.latencies.as_ref().ok_or("there are no latencies")?)
    }

    /// Tells the latency of so many hundredths.
    fn tell_percentile(&self, percent: u8, came: &mut String) -> Result<(), StepFault> {
        put_debug(came, &self.latencies()?.percentile(percent))
    }

    /// Tells how many latencies there were, their mean and the greatest.
    fn tell_summary(&self, came: &mut String) -> Result<(), StepFault> {
        let latencies = self.latencies()?;
        let (count, greatest) = (latencies.count(), latencies.greatest());
        Ok(write!(came, "{count} {:?} {greatest}", latencies.mean())?)
    }

    fn play_lines(
        &mut self,
        step: &str,
        words: &mut Words<'_>,
        came: &mut String,
    ) -> Result<(), StepFault> {
        match step {
            "delimiter" => {
                self.end_stream(words.number()?);
                Ok(())
            }
            "chunk" => lines::take(&mut self.lines, &words.bytes()?, came),
            "finish" => lines::finish(self.end_stream(b'\n'), came),
            "form" => {
                self.form = records::form_of(self.alloc, words)?;
                Ok(())
            }
            "record" => records::put_record(self.alloc, &self.form, words, came),
            _ => Err(StepFault::NotUnderstood),
        }
    }

    fn play_ledger(
        &mut self,
        step: &str,
        words: &mut Words<'_>,
        came: &mut String,
    ) -> Result<(), StepFault> {
        match step {
            "reserve" => ledger::reserve(&mut self.ledger),
            "send" => ledger::send(&mut self.ledger, words, came),
            "report" => ledger::report(&mut self.ledger, words, came),
            "leave" => ledger::leave(self.alloc, &mut self.ledger, words, came),
            "waiting" => put(came, &self.ledger.len()),
            "tell" => ledger::tell_report(self.alloc, &mut self.tellings, words, came),
            "refuse" => ledger::tell_refusal(self.alloc, &mut self.tellings, words, came),
            "end" => ledger::end(self.alloc, &self.tellings, came),
            _ => Err(StepFault::NotUnderstood),
        }
    }
}

impl SendPlayer {
    /// Begins a case: nothing is left of the one before.
    pub(crate) fn begin(&mut self) {
        *self = SendPlayer::new(self.alloc);
    }

    /// Plays a step.
    pub(crate) fn play(
        &mut self,
        step: &str,
        words: &mut Words<'_>,
        came: &mut String,
    ) -> Result<(), StepFault> {
        match step {
            "delimiter" | "chunk" | "finish" | "form" | "record" => {
                self.play_lines(step, words, came)
            }
            "latencies" => self.add_latencies(words),
            "percentile" => self.tell_percentile(words.number()?, came),
            "summary" => self.tell_summary(came),
            _ => self.play_ledger(step, words, came),
        }
    }
}
