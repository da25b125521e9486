//! Plays the codecs of kp_wire, kp_batch and kp_frames. A step is a word for what is coded and its bytes in hexadecimal; it
//! comes to the value that they are, or to the first fault in them. What was read is written again each time, and has to come
//! to the same bytes.
#![tactic(auto)]

mod computed;
mod fault;
mod fields;
mod frames;
mod putting;
mod records;
mod splitting;
mod told;

use crate::computed::compute;
use crate::fault::Done;
use crate::frames::tell_frame;
use crate::putting::Putting;
use crate::records::{Held, tell_head};
use crate::splitting::Splitting;
use crate::told::{tell, tell_at_once};
use kp_cases::{Player, Words, play_files};
use std::alloc::Global;
use std::io;
use std::process::ExitCode;

/// What a case has made: records, a stream that is split, and what was written.
#[derive(Drop)]
struct Codecs {
    alloc: Global,
    held: Held,
    splitting: Splitting,
    putting: Putting,
}

impl Codecs {
    fn new(alloc: Global) -> Codecs {
        Codecs {
            alloc,
            held: Held::new(alloc),
            splitting: Splitting::new(alloc),
            putting: Putting::new(alloc),
        }
    }
}

/// Plays a step about bytes; where its word is no other, it is that for what they are.
fn play_bytes(alloc: Global, step: &str, words: &mut Words<'_>, came: &mut String) -> Done {
    match step {
        "frame" => tell_frame(alloc, words, came),
        "head" => tell_head(alloc, &words.bytes()?, came),
        "at_once" => tell_at_once(alloc, words.word()?, &words.bytes()?, came),
        kind => tell(alloc, kind, &words.bytes()?, came),
    }
}

impl Player for Codecs {
    fn turn_to(&mut self, subject: &str) -> bool {
        subject == "codec"
    }

    fn begin(&mut self) {
        self.held = Held::new(self.alloc);
        self.splitting = Splitting::new(self.alloc);
        self.putting = Putting::new(self.alloc);
    }

    fn play(&mut self, step: &str, words: &mut Words<'_>, came: &mut String) -> Done {
        if self.held.play(step, words, came)?
            || self.splitting.play(step, words, came)?
            || self.putting.play(step, words, came)?
            || compute(self.alloc, step, words, came)?
        {
            return Ok(());
        }
        play_bytes(self.alloc, step, words, came)
    }
}

fn main(rt: HostRuntime) -> io::Result<ExitCode> {
    let mut player = Codecs::new(rt.alloc());
    play_files(&rt, &mut player)
}
