//! Plays cases of what goes over connections, by the subjects `connection` and `engine`.
#![tactic(auto)]

mod connections;
mod engines;

use connections::Connections;
use engines::Engines;
use kp_cases::{Player, StepFault, Words, play_files};
use std::alloc::AllocGlobal;
use std::io;
use std::process::ExitCode;
use std::random::RandomSource;

#[derive(Clone, Copy)]
enum Subject {
    Connection,
    Engine,
}

/// The players, and which of them plays.
#[derive(Drop)]
struct Players<'a, R> {
    subject: Subject,
    connections: Connections,
    engines: Engines<'a, R>,
}

impl<'a, R: RandomSource + AllocGlobal> Players<'a, R> {
    fn new(rt: &'a R) -> io::Result<Players<'a, R>> {
        Ok(Players {
            subject: Subject::Engine,
            connections: Connections::new(rt)?,
            engines: Engines::new(rt),
        })
    }
}

impl<R: RandomSource + AllocGlobal> Player for Players<'_, R> {
    fn turn_to(&mut self, subject: &str) -> bool {
        self.subject = match subject {
            "connection" => Subject::Connection,
            "engine" => Subject::Engine,
            _ => return false,
        };
        true
    }

    fn begin(&mut self) {
        match self.subject {
            Subject::Connection => self.connections.begin(),
            Subject::Engine => self.engines.begin(),
        }
    }

    fn play(
        &mut self,
        step: &str,
        words: &mut Words<'_>,
        came: &mut String,
    ) -> Result<(), StepFault> {
        match self.subject {
            Subject::Connection => self.connections.play(step, words, came),
            Subject::Engine => self.engines.play(step, words, came),
        }
    }
}

fn main(rt: HostRuntime) -> io::Result<ExitCode> {
    play_files(&rt, &mut Players::new(&rt)?)
}
