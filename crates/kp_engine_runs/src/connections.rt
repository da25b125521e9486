//! Plays cases of wires and handshakes over streams in memory that move a few bytes at a time, wait, fail and end.

mod far;
mod memory;
mod telling;
mod wires;

ghost use Rattle.std.specs.Prelude.{IsSome};

use far::play_far;
use futures::task::Poll;
use futures::test::MockTask;
use kp_cases::{StepFault, Words};
use kp_connection::script::Script;
use kp_connection::{Handshake, Plain, Wire};
use kp_hello::{HandshakeFault, Hello};
use kp_rules::Names;
use kp_wire::Text;
use memory::{Memory, long_frame, steps_of};
use std::alloc::{AllocGlobal, Global};
use std::random::RandomSource;
use std::{io, mem};
use telling::put_polled;
use tokio::io::{DuplexStream, duplex};
use wires::{play_script, play_wire};

/// A handshake that goes on.
#[derive(Drop)]
struct Shaking {
    handshake: Handshake<Memory>,
    ghost goes_on: { IsSome handshake },
}

/// The near end of a connection.
#[derive(Drop)]
enum Near {
    /// It was not made, or was dropped.
    Gone,
    Stream(Memory),
    Wire(Wire<Memory>),
    Handshake(Shaking),
}

impl Near {
    fn script(script: Script) -> Near {
        Near::Stream(Memory::Script(script))
    }
}

impl Shaking {
    /// What comes of a poll, and what is left behind it.
    fn poll(self, task: &MockTask) -> (Near, Poll<Result<Hello, HandshakeFault>>) {
        let Shaking { mut handshake } = self;
        match task.poll(&mut handshake) {
            Poll::Pending => (Near::Handshake(Shaking { handshake }), Poll::Pending),
            Poll::Ready(Ok((hello, stream))) => (Near::Stream(stream), Poll::Ready(Ok(hello))),
            Poll::Ready(Err(fault)) => (Near::Gone, Poll::Ready(Err(fault))),
        }
    }
}

/// The names of topic and client, which are next.
fn names_of(alloc: Global, words: &mut Words<'_>) -> Result<Names, StepFault> {
    Ok(Names {
        topic: Text::from_str(alloc, words.word()?)?,
        client: Text::from_str(alloc, words.word()?)?,
    })
}

/// A connection, and the task in which its ends are polled.
#[derive(Drop)]
pub(crate) struct Connections {
    alloc: Global,
    task: MockTask,
    near: Near,
    far: Option<DuplexStream>,
}

impl Connections {
    pub(crate) fn new<R: RandomSource + AllocGlobal>(rt: &R) -> io::Result<Connections> {
        Ok(Connections {
            alloc: rt.alloc(),
            task: MockTask::new(rt)?,
            near: Near::Gone,
            far: None,
        })
    }

    /// This is the near end from now on; the one before is dropped.
    fn set_near(&mut self, near: Near) {
        self.near = near;
    }

    /// The near end's stream, of which nothing else is left.
    fn take_stream(&mut self) -> Result<Memory, StepFault> {
        match mem::replace(&mut self.near, Near::Gone) {
            Near::Stream(stream) => Ok(stream),
            Near::Wire(wire) => Ok(wire.into_stream()),
            _ => Err("there is no stream".into()),
        }
    }

    fn take_script(&mut self) -> Result<Script, StepFault> {
        match self.take_stream()? {
            Memory::Script(script) => Ok(script),
            Memory::Duplex(_) => Err("the stream is no script".into()),
        }
    }

    /// A stream that gives the bytes of the words.
    fn open(&mut self, words: &mut Words<'_>) -> Result<(), StepFault> {
        self.set_near(Near::script(Script::new(self.alloc, words.rest_bytes()?)));
        Ok(())
    }

    /// A stream that gives a long frame.
    fn open_long(&mut self, words: &mut Words<'_>) -> Result<(), StepFault> {
        let frame = long_frame(self.alloc, words)?;
        self.set_near(Near::script(Script::new(self.alloc, frame)));
        Ok(())
    }

    fn reads(&mut self, words: &mut Words<'_>) -> Result<(), StepFault> {
        let steps = steps_of(self.alloc, words)?;
        let script = self.take_script()?.reading(steps);
        self.set_near(Near::script(script));
        Ok(())
    }

    fn writes(&mut self, words: &mut Words<'_>) -> Result<(), StepFault> {
        let steps = steps_of(self.alloc, words)?;
        let script = self.take_script()?.writing(steps);
        self.set_near(Near::script(script));
        Ok(())
    }

    fn ends_after(&mut self, count: usize) -> Result<(), StepFault> {
        let script = self.take_script()?.ending_after(count);
        self.set_near(Near::script(script));
        Ok(())
    }

    /// Two ends, each of which holds at most so many bytes that the other did not read.
    fn duplex(&mut self, room: usize) -> Result<(), StepFault> {
        if room == 0 {
            return Err("a stream without room".into());
        }
        let (near, far) = duplex(self.alloc, room)?;
        self.set_near(Near::Stream(Memory::Duplex(Plain { inner: near })));
        self.far = Some(far);
        Ok(())
    }

    fn wire(&mut self) -> Result<(), StepFault> {
        let stream = self.take_stream()?;
        self.set_near(Near::Wire(Wire::new(self.alloc, stream)));
        Ok(())
    }

    fn into_stream(&mut self) -> Result<(), StepFault> {
        let stream = self.take_stream()?;
        self.set_near(Near::Stream(stream));
        Ok(())
    }

    fn handshake(&mut self, words: &mut Words<'_>) -> Result<(), StepFault> {
        let names = names_of(self.alloc, words)?;
        let handshake = Handshake::new(self.alloc, self.take_stream()?, names);
        self.set_near(Near::Handshake(Shaking { handshake }));
        Ok(())
    }

    /// Polls a handshake, and tells what comes of it. What is left behind it is the near end.
    fn poll(&mut self, shaking: Shaking, came: &mut String) -> Result<(), StepFault> {
        let (near, polled) = shaking.poll(&self.task);
        if matches!(polled, Poll::Ready(Err(HandshakeFault::OutOfMemory))) {
            return Err(StepFault::OutOfMemory);
        }
        self.set_near(near);
        Ok(put_polled(came, &polled)?)
    }

    fn poll_again(&mut self, came: &mut String) -> Result<(), StepFault> {
        match mem::replace(&mut self.near, Near::Gone) {
            Near::Handshake(shaking) => self.poll(shaking, came),
            _ => Err("there is no handshake".into()),
        }
    }

    /// A handshake over a stream that gives these bytes, polled once. Both are made anew.
    fn greet(&mut self, words: &mut Words<'_>, came: &mut String) -> Result<(), StepFault> {
        let names = names_of(self.alloc, words)?;
        let stream = Memory::Script(Script::new(self.alloc, words.rest_bytes()?));
        let handshake = Handshake::new(self.alloc, stream, names);
        self.poll(Shaking { handshake }, came)
    }

    /// Plays a step of what the near end is.
    fn play_near(
        &mut self,
        step: &str,
        words: &mut Words<'_>,
        came: &mut String,
    ) -> Result<(), StepFault> {
        match &mut self.near {
            Near::Wire(wire) => play_wire(&self.task, wire, step, words, came),
            Near::Stream(Memory::Script(script)) => play_script(script, step, came),
            _ => Err(StepFault::NotUnderstood),
        }
    }
}

impl Connections {
    /// Begins a case: nothing is left of the one before.
    pub(crate) fn begin(&mut self) {
        self.set_near(Near::Gone);
        self.far = None;
        // (a new poll forgets what was woken)
        self.task.enter(|_cx| ());
    }

    /// Plays a step.
    pub(crate) fn play(
        &mut self,
        step: &str,
        words: &mut Words<'_>,
        came: &mut String,
    ) -> Result<(), StepFault> {
        match step {
            "stream" => self.open(words),
            "stream_of" => self.open_long(words),
            "reads" => self.reads(words),
            "writes" => self.writes(words),
            "ends_after" => self.ends_after(words.number()?),
            "duplex" => self.duplex(words.number()?),
            "wire" => self.wire(),
            "into_stream" => self.into_stream(),
            "handshake" => self.handshake(words),
            "poll" => self.poll_again(came),
            "greet" => self.greet(words, came),
            "says" | "hears" | "drop_far" => {
                play_far(&self.task, &mut self.far, step, words, came)
            }
            "drop_near" => {
                self.set_near(Near::Gone);
                Ok(())
            }
            _ => self.play_near(step, words, came),
        }
    }
}
