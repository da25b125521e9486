//! Plays cases of lines of text, by the subjects `schedule` and `send`.
#![tactic(auto)]

mod schedules;
mod sends;

use kp_cases::{Player, StepFault, Words, play_files};
use schedules::Reading;
use sends::SendPlayer;
use std::alloc::Global;
use std::io;
use std::process::ExitCode;

#[derive(Clone, Copy)]
enum Subject {
    Schedule,
    Send,
}

/// The players, and which of them plays.
#[derive(Drop)]
struct Players {
    subject: Subject,
    schedules: Reading,
    sends: SendPlayer,
}

impl Players {
    fn new(alloc: Global) -> Players {
        Players {
            subject: Subject::Send,
            schedules: Reading::new(alloc),
            sends: SendPlayer::new(alloc),
        }
    }
}

impl Player for Players {
    fn turn_to(&mut self, subject: &str) -> bool {
        self.subject = match subject {
            "schedule" => Subject::Schedule,
            "send" => Subject::Send,
            _ => return false,
        };
        true
    }

    fn begin(&mut self) {
        match self.subject {
            Subject::Schedule => self.schedules.begin(),
            Subject::Send => self.sends.begin(),
        }
    }

    fn play(
        &mut self,
        step: &str,
        words: &mut Words<'_>,
        came: &mut String,
    ) -> Result<(), StepFault> {
        match self.subject {
            Subject::Schedule => self.schedules.play(step, words, came),
            Subject::Send => self.sends.play(step, words, came),
        }
    }
}

fn main(rt: HostRuntime) -> io::Result<ExitCode> {
    play_files(&rt, &mut Players::new(rt.alloc()))
}
