//! Plays cases of what a broker is made of, by the subjects `log` and `broker`.
#![tactic(auto)]

mod brokers;
mod logs;

use brokers::Brokers;
use kp_cases::{Player, StepFault, Words, play_files};
use logs::Logs;
use std::alloc::Global;
use std::io;
use std::process::ExitCode;

#[derive(Clone, Copy)]
enum Subject {
    Log,
    Broker,
}

/// The players, and which of them plays.
#[derive(Drop)]
struct Players {
    subject: Subject,
    logs: Logs,
    brokers: Brokers,
}

impl Players {
    fn new(alloc: Global) -> Players {
        Players {
            subject: Subject::Broker,
            logs: Logs::new(alloc),
            brokers: Brokers::new(alloc),
        }
    }
}

impl Player for Players {
    fn turn_to(&mut self, subject: &str) -> bool {
        self.subject = match subject {
            "log" => Subject::Log,
            "broker" => Subject::Broker,
            _ => return false,
        };
        true
    }

    fn begin(&mut self) {
        match self.subject {
            Subject::Log => self.logs.begin(),
            Subject::Broker => self.brokers.begin(),
        }
    }

    fn play(
        &mut self,
        step: &str,
        words: &mut Words<'_>,
        came: &mut String,
    ) -> Result<(), StepFault> {
        match self.subject {
            Subject::Log => self.logs.play(step, words, came),
            Subject::Broker => self.brokers.play(step, words, came),
        }
    }
}

fn main(rt: HostRuntime) -> io::Result<ExitCode> {
    play_files(&rt, &mut Players::new(rt.alloc()))
}
