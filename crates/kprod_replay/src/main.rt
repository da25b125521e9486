//! The program behind `kprod replay`, which needs no broker: it replays the schedule of a file, and prints what comes of it. All but
//! `main` is over any streams, and nothing here starts a thread, waits, or opens a socket.
#![tactic(auto)]

mod fault;
mod program;
mod replaying;

use crate::program::replay_with;
use kp_program::{refuse_words, words_of};
use std::io::Lock;
use std::process::ExitCode;

fn main(rt: HostRuntime) -> ExitCode {
    let input = &mut rt.stdin().lock();
    let out = &mut rt.stdout().lock();
    let err = &mut rt.stderr().lock();
    let status = match words_of(&rt) {
        Ok(words) => replay_with(&rt, words.as_slice(), input, out, err),
        Err(error) => refuse_words(&error, err),
    };
    ExitCode::from(status)
}
