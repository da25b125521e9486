//! A stream over memory for tests, which moves bytes, waits, fails and ends as it was told to.

ghost use Rattle.std.specs.Prelude.{◌≡◌, []};
ghost use Rattle.kp_connection.specs.Script.{TakesStep};

mod playing;

use crate::kept::Kept;
use http_server::Log;
use std::alloc::Global;
use std::collections::VecDeque;
use std::marker::Model;

/// What a call does.
#[derive(Clone, Copy, Debug, PartialEq, Eq)]
pub enum Step {
    /// Moves at most so many bytes. A read waits where no input is left.
    Move(usize),
    /// Waits, and asks to be polled again.
    Wait,
    Fail,
    /// A read comes with no bytes, a write takes none.
    End,
}

/// A step that moves all that it can.
const ALL: Step = Step::Move(usize::MAX);

/// What a call met.
#[derive(Clone, Copy, Debug, PartialEq, Eq)]
pub enum Met {
    Came,
    ReadWaits,
    ReadFailed,
    Went,
    WriteWaits,
    WriteFailed,
}

/// A stream over memory, seen as the input that was not read, the output, what its calls met and what they will do.
#[derive(Drop)]
pub struct Script {
    input: Kept,
    output: Vec<u8>,
    met: Log<Met, ()>,
    /// What its reads do from the next one on, again and again. Where there is no step, each moves all that it can.
    reads: VecDeque<Step>,
    /// The same of its writes.
    writes: VecDeque<Step>,
    /// How many bytes may still move, in both directions together.
    left: usize,
}

impl Model for Script {
    ghost use Rattle.kp_connection.specs.Script.{Played};

    ghost Value = { Played };

    ghost view = { λ s. record {
      unread = s.input;
      output = s.output.items;
      met = s.met.items;
      reads = s.reads.items;
      writes = s.writes.items;
      left = s.left;
    } };
}

impl Script {
    /// A stream that gives this input and takes all output, as much as it can at each call. It never ends.
    pub fn new(alloc: Global, input: Vec<u8>) -> Script
        ensures { result ≡ record {
          unread = input.items;
          output = [];
          met = [];
          reads = [];
          writes = [];
          left = usize.MAX;
        } }
    {
        Script {
            input: Kept::of(input),
            output: Vec::new(alloc),
            met: Log::new(),
            reads: VecDeque::new(alloc),
            writes: VecDeque::new(alloc),
            left: usize::MAX,
        }
    }

    /// Its reads go through these steps, again and again.
    pub fn reading(self, steps: Vec<Step>) -> Script
        ensures { result ≡ record self { reads = steps.items } }
    {
        let mut script = self;
        script.reads = VecDeque::from(steps);
        script
    }

    /// Its writes go through these steps, again and again.
    pub fn writing(self, steps: Vec<Step>) -> Script
        ensures { result ≡ record self { writes = steps.items } }
    {
        let mut script = self;
        script.writes = VecDeque::from(steps);
        script
    }

    /// It ends after so many bytes, in both directions together: then a read comes with none, and a write takes none.
    pub fn ending_after(self, count: usize) -> Script
        ensures { result ≡ record self { left = count } }
    {
        let mut script = self;
        script.left = count;
        script
    }

    /// The input that was not read.
    pub fn unread(&self) -> &[u8]
        ensures { result.now ≡ self.now.unread }
    {
        self.input.as_slice()
    }

    /// What was written.
    pub fn output(&self) -> &[u8]
        ensures { result.now ≡ self.now.output }
    {
        &self.output
    }

    /// What was written.
    pub fn into_output(self) -> Vec<u8>
        ensures { result.items ≡ self.output }
    {
        let Script { output, .. } = self;
        output
    }
}

/// What the next call does, of whose steps this one comes again behind the others.
fn next_step(steps: &mut VecDeque<Step>) -> Step
    ensures { TakesStep steps.old.items result steps.new.items }
{
    let Some(step) = steps.front().copied() else {
        return ALL;
    };
    steps.rotate_left(1);
    step
}
