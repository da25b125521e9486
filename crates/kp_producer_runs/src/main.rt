//! Plays cases of what the producer is made of, by the subjects `part`, `lane` and `core`.
#![tactic(auto)]

mod cores;
mod lanes;
mod parts;

use cores::CorePlayer;
use kp_cases::{Player, StepFault, Words, play_files};
use lanes::LanePlayer;
use parts::PartPlayer;
use std::alloc::Global;
use std::io;
use std::process::ExitCode;

#[derive(Clone, Copy)]
enum Subject {
    Part,
    Lane,
    Core,
}

/// The players, and which of them plays.
#[derive(Drop)]
struct Players {
    subject: Subject,
    parts: PartPlayer,
    lanes: LanePlayer,
    cores: CorePlayer,
}

impl Players {
    fn new(alloc: Global) -> Players {
        Players {
            subject: Subject::Core,
            parts: PartPlayer::new(alloc),
            lanes: LanePlayer::new(alloc),
            cores: CorePlayer::new(alloc),
        }
    }
}

impl Player for Players {
    fn turn_to(&mut self, subject: &str) -> bool {
        self.subject = match subject {
            "part" => Subject::Part,
            "lane" => Subject::Lane,
            "core" => Subject::Core,
            _ => return false,
        };
        true
    }

    fn begin(&mut self) {
        match self.subject {
            Subject::Part => self.parts.begin(),
            Subject::Lane => self.lanes.begin(),
            Subject::Core => self.cores.begin(),
        }
    }

    fn play(
        &mut self,
        step: &str,
        words: &mut Words<'_>,
        came: &mut String,
    ) -> Result<(), StepFault> {
        match self.subject {
            Subject::Part => self.parts.play(step, words, came),
            Subject::Lane => self.lanes.play(step, words, came),
            Subject::Core => self.cores.play(step, words, came),
        }
    }
}

fn main(rt: HostRuntime) -> io::Result<ExitCode> {
    play_files(&rt, &mut Players::new(rt.alloc()))
}
