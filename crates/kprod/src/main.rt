//! The program `kprod`: it sends the lines of a file to a broker from many threads, and prints what became of them. What needs no
//! broker, and what sends lines as they come, are programs of their own. All but `main` is over any streams.
#![tactic(auto)]

mod fault;
mod program;
mod running;

use crate::program::kprod_with;
use kp_program::{refuse_words, words_of};
use std::io::Lock;
use std::process::ExitCode;

fn main(rt: HostRuntime) -> ExitCode {
    let input = &mut rt.stdin().lock();
    let out = &mut rt.stdout().lock();
    let err = &mut rt.stderr().lock();
    let status = match words_of(&rt) {
        Ok(words) => kprod_with(&rt, words.as_slice(), input, out, err),
        Err(error) => refuse_words(&error, err),
    };
    ExitCode::from(status)
}
