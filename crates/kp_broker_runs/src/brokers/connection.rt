//! A connection over memory.

use kp_broker::{Broker, BrokerFault, FaultPlan, Plain, Served};
use kp_cases::{StepFault, Words};
use std::alloc::{AllocError, Global};
use std::io::{self, ErrorKind, Read, Write};

/// Room for what is written, in bytes: so much of it takes no memory while a broker serves.
const ROOM: usize = 4096;

/// How many bytes each call on a stream moves at most, one after the other, and each further one as many as the last; a
/// call at `None` fails. Where there is none, a call moves all that it can.
type Steps = Vec<Option<usize>>;

/// A connection: how its reads and its writes go, and what has come of them.
#[derive(Drop)]
pub(crate) struct Connection {
    alloc: Global,
    reads: Steps,
    writes: Steps,
    flush_fails: bool,
    /// How many reads there were when it was served.
    pub(crate) read_calls: usize,
}

/// A reader of bytes.
#[derive(Drop)]
struct Source<'a> {
    rest: &'a [u8],
    steps: &'a [Option<usize>],
    calls: usize,
}

/// A writer to bytes.
#[derive(Drop)]
struct Sink<'a> {
    held: Vec<u8>,
    steps: &'a [Option<usize>],
    calls: usize,
    flush_fails: bool,
}

fn step_of(word: &str) -> Result<Option<usize>, StepFault> {
    if word == "fail" {
        return Ok(None);
    }
    Ok(Some(word.parse().map_err(|_| StepFault::NotUnderstood)?))
}

fn steps_of(alloc: Global, words: &mut Words<'_>) -> Result<Steps, StepFault> {
    let mut steps = Vec::new(alloc);
    for word in words.rest().split_whitespace() {
        steps.push(step_of(word)?)?;
    }
    Ok(steps)
}

/// How many bytes a call moves at most, and none where it fails.
fn step_at(steps: &[Option<usize>], call: usize) -> Option<usize> {
    match steps.get(call).or(steps.last()) {
        Some(step) => *step,
        None => Some(usize::MAX),
    }
}

impl Read for Source<'_> {
    fn read(&mut self, buf: &mut [u8]) -> io::Result<usize> {
        let step = step_at(self.steps, self.calls);
        self.calls = self.calls.saturating_add(1);
        let most = step.ok_or(ErrorKind::ConnectionReset)?.min(buf.len());
        let mut piece = self.rest.get(..most).unwrap_or(self.rest);
        self.rest = self.rest.get(most..).unwrap_or(&[]);
        piece.read(buf)
    }
}

impl Write for Sink<'_> {
    fn write(&mut self, buf: &[u8]) -> io::Result<usize> {
        let step = step_at(self.steps, self.calls);
        self.calls = self.calls.saturating_add(1);
        let most = step.ok_or(ErrorKind::BrokenPipe)?;
        let piece = buf.get(..most).unwrap_or(buf);
        self.held.extend_from_slice(piece)?;
        Ok(piece.len())
    }

    fn flush(&mut self) -> io::Result<()> {
        if self.flush_fails {
            return Err(ErrorKind::BrokenPipe.into());
        }
        Ok(())
    }
}

impl Connection {
    pub(crate) fn new(alloc: Global) -> Connection {
        Connection {
            alloc,
            reads: Vec::new(alloc),
            writes: Vec::new(alloc),
            flush_fails: false,
            read_calls: 0,
        }
    }

    /// Plays a step that says how its calls go.
    pub(crate) fn play(&mut self, step: &str, words: &mut Words<'_>) -> Result<(), StepFault> {
        match step {
            "reads" => self.reads = steps_of(self.alloc, words)?,
            "writes" => self.writes = steps_of(self.alloc, words)?,
            "flush_fails" => self.flush_fails = true,
            _ => return Err(StepFault::NotUnderstood),
        }
        Ok(())
    }

    /// How it ends when a broker serves it as this node, where these bytes come, and what was written then.
    pub(crate) fn serve(
        &mut self,
        broker: &mut Broker,
        node: u16,
        plan: &FaultPlan,
        input: &[u8],
    ) -> Result<(Result<Served, BrokerFault>, Vec<u8>), AllocError> {
        let held = Vec::with_capacity(self.alloc, ROOM)?;
        let mut connection = Plain {
            reader: Source {
                rest: input,
                steps: &self.reads,
                calls: 0,
            },
            writer: Sink {
                held,
                steps: &self.writes,
                calls: 0,
                flush_fails: self.flush_fails,
            },
        };
        let ended = broker.serve_as(node, &mut connection, plan);
        let Plain { reader, writer } = connection;
        self.read_calls = reader.calls;
        Ok((ended, writer.held))
    }
}
