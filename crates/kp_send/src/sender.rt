//! The lines of a stream on their way: which is sent next, and what became of those before it.

ghost use Rattle.std.specs.Prelude.{◌≡◌, ◌<◌, is_some, true, length, IfErr, IfOk, IfSome, OnErr, OnOk};
ghost use Rattle.kp_lines.specs.Lines.{Refuses};
ghost use Rattle.kp_send.specs.Sender.{Accepts, Finishes, Hears, is_done, IsFresh, is_ready, IsNextRecord, Leaves, sent_of, StaysButOrder, Takes};

use crate::form::Form;
use crate::ledger::Ledger;
use crate::telling::Tellings;
use crate::texts::Texts;
use crate::told::{Sent, Told};
use kp_batch::{Record, Timestamp};
use kp_embed::{SendFault, Target, Ticket};
use kp_lines::{Line, LineFault, Lines};
use kp_rules::{Outcome, Report};
use kp_wire::Blob;
use std::alloc::{AllocError, Global};
use std::marker::Model;

/// The lines of a stream on their way: those that were sent wait for their reports, and one is sent next.
///
/// A line's bytes are kept until it is told of, where they may be wanted then.
#[derive(Debug, Drop)]
pub struct Sender {
    alloc: Global,
    form: Form,
    delimiter: u8,
    keeps: bool,
    /// None once the stream has ended.
    lines: Option<Lines>,
    next: Option<Line>,
    ledger: Ledger,
    tellings: Tellings,
}

impl Model for Sender {
    ghost use Rattle.kp_send.specs.Sender.{Account};

    ghost Value = { Account };

    ghost view = { λ s. record {
      form = s.form;
      delimiter = s.delimiter;
      keeps = s.keeps;
      cutting = s.lines;
      next = s.next;
      book = s.ledger;
      tellings = s.tellings;
    } };
}

impl Sender {
    /// No line has come of a stream whose lines end with this delimiter.
    pub fn new(alloc: Global, form: Form, delimiter: u8, keeps: bool) -> Sender
        ensures { IsFresh form delimiter keeps result }
    {
        Sender {
            alloc,
            form,
            delimiter,
            keeps,
            lines: Some(Lines::new(alloc, delimiter)),
            next: None,
            ledger: Ledger::new(alloc),
            tellings: Tellings::new(),
        }
    }

    /// Whether a line of the stream can be taken: none is next, and the stream has not ended.
    pub fn is_ready(&self) -> bool
        ensures { result ≡ is_ready self.now }
    {
        self.next.is_none() && self.lines.is_some()
    }

    /// Takes the line that ends in the next bytes of the stream, and gives what stands behind it; or takes all of them, where
    /// none ends there.
    pub fn take<'a>(&mut self, chunk: &'a [u8]) -> Result<&'a [u8], LineFault>
        requires { is_ready self.old ≡ true }
        ensures takes { IfOk result (λ rest. Takes self.old chunk.now rest.now self.new) }
        ensures refused { IfErr result (λ fault. IfSome self.old.cutting (λ cutting. Refuses cutting fault)) }
        ensures unchanged { OnErr result (self.new ≡ self.old) }
    {
        let Some(lines) = &mut self.lines else {
            return Ok(chunk);
        };
        match lines.next_line(chunk)? {
            None => Ok(&chunk[chunk.len()..]),
            Some((line, rest)) => {
                self.next = Some(line);
                Ok(rest)
            }
        }
    }

    /// The stream ends here. A last line, behind which no delimiter stands, is next.
    pub fn finish(&mut self)
        requires { is_ready self.old ≡ true }
        ensures { Finishes self.old self.new }
    {
        if let Some(lines) = self.lines.take() {
            self.next = lines.finish();
        }
    }

    /// The record of the line that is next, where one is.
    pub fn next_record(&self, timestamp: Timestamp) -> Result<Option<Record>, AllocError>
        ensures { IfOk result (IsNextRecord self.now timestamp) }
    {
        match &self.next {
            None => Ok(None),
            Some(line) => {
                let record = self.form.record_of(self.alloc, timestamp, &line.bytes)?;
                Ok(Some(record))
            }
        }
    }

    /// Where each record goes.
    pub fn target(&self) -> Target
        ensures { result ≡ self.now.form.target }
    {
        self.form.target
    }

    /// Keeps a place for one more line, so that memory is not refused once its record was accepted.
    pub fn reserve(&mut self) -> Result<(), AllocError>
        ensures same { StaysButOrder self.old self.new }
        ensures room { OnOk result (0 < self.new.book.room) }
    {
        self.ledger.reserve()
    }

    /// The record of the line that is next was accepted with this ticket. Where its report could not be told from that of
    /// another line, or no place was kept, the line is told of now, as one that may stand in the log.
    pub fn accepted(&mut self, ticket: Ticket, texts: &mut Texts) -> Result<(), AllocError>
        requires { is_some self.old.next ≡ true }
        ensures { OnOk result (Accepts self.old ticket texts.old texts.new self.new) }
    {
        let Some(line) = self.next.take() else {
            return Ok(());
        };
        let sent = sent(self.keeps, &mut self.lines, line);
        match self.ledger.sent(ticket, sent) {
            Ok(()) => Ok(()),
            Err((_, sent)) => {
                let told = Told::reported(sent, ticket.partition, Outcome::Unknown);
                texts.tell(&mut self.tellings, &told, self.delimiter)
            }
        }
    }

    /// The record of the line that is next was refused for good.
    pub fn refused(&mut self, fault: SendFault, texts: &mut Texts) -> Result<(), AllocError>
        requires { is_some self.old.next ≡ true }
        ensures { OnOk result (Leaves self.old fault texts.old texts.new self.new) }
    {
        let Some(line) = self.next.take() else {
            return Ok(());
        };
        let Sent { line, bytes } = sent(self.keeps, &mut self.lines, line);
        let told = Told::refused(line, fault, bytes);
        texts.tell(&mut self.tellings, &told, self.delimiter)
    }

    /// A report came.
    pub fn told(&mut self, report: &Report, texts: &mut Texts) -> Result<(), AllocError>
        ensures { OnOk result (Hears self.old report.now texts.old texts.new self.new) }
    {
        match self.ledger.told(report) {
            None => Ok(()),
            Some(told) => texts.tell(&mut self.tellings, &told, self.delimiter),
        }
    }

    /// Whether the stream has ended, and each of its lines was told of.
    pub fn is_done(&self) -> bool
        ensures { result ≡ is_done self.now }
    {
        self.lines.is_none() && self.next.is_none() && self.ledger.len() == 0
    }

    /// How many lines wait for their reports.
    pub fn waiting(&self) -> usize
        ensures { result ≡ length self.now.book.waiting }
    {
        self.ledger.len()
    }

    /// How many lines ended in which way.
    pub fn tellings(&self) -> Tellings
        ensures { result ≡ self.now.tellings }
    {
        self.tellings
    }
}

/// A line that is told of later. Where its bytes are not kept, the next line is put into their memory.
fn sent(keeps: bool, lines: &mut Option<Lines>, line: Line) -> Sent
    ensures sent { result ≡ sent_of keeps line }
    ensures same { lines.new ≡ lines.old }
{
    let Line { number, bytes } = line;
    if keeps {
        return Sent {
            line: number,
            bytes: Some(Blob::new(bytes)),
        };
    }
    if let Some(lines) = lines {
        lines.reuse(bytes);
    }
    Sent {
        line: number,
        bytes: None,
    }
}
