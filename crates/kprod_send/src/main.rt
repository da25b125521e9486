//! The program behind `kprod send`: it sends the lines of a file to a cluster as they come, and tells of each that was not
//! delivered.
#![tactic(auto)]

mod fault;
mod planning;
mod sending;
mod settings;

use crate::fault::{Fault, put_fault};
use crate::sending::send;
use crate::settings::{settings_file, with_settings};
use kp_program::{refuse, refuse_words, words_of};
use kp_send_words::sending_asked;
use std::fs;
use std::io::{Lock, Write};
use std::process::ExitCode;
use std::rt::Files;

/// Tells a fault. Nothing is made of an `err` that fails.
fn fail<E: Write>(fault: Fault<'_>, err: &mut E) -> u8 {
    let _ = put_fault(err, fault);
    fault.status()
}

/// The words with what the file of settings says that they name; or the exit status, where it can't be read or meant.
fn settled<R: Files + AllocGlobal, E: Write>(
    rt: &R,
    words: Vec<String>,
    err: &mut E,
) -> Result<Vec<String>, u8> {
    let Some(named) = settings_file(&words) else {
        return Ok(words);
    };
    let Ok(file) = String::from_str(rt.alloc(), named) else {
        return Err(fail(Fault::OutOfMemory, err));
    };
    let text = match fs::read_to_string(rt, &file) {
        Ok(text) => text,
        Err(error) => return Err(fail(Fault::of_settings(&error, &file), err)),
    };
    match with_settings(rt.alloc(), words, &text) {
        Ok(words) => Ok(words),
        Err(fault) => Err(fail(Fault::Settings(&file, fault), err)),
    }
}

fn main(rt: HostRuntime) -> ExitCode {
    let input = &mut rt.stdin().lock();
    let out = &mut rt.stdout().lock();
    let err = &mut rt.stderr().lock();
    let words = match words_of(&rt) {
        Ok(words) => words,
        Err(error) => return ExitCode::from(refuse_words(&error, err)),
    };
    let words = match settled(&rt, words, err) {
        Ok(words) => words,
        Err(status) => return ExitCode::from(status),
    };
    let status = match sending_asked(rt.alloc(), words.as_slice()) {
        Err(error) => refuse(&error, out, err),
        Ok(sending) => match send(&rt, &sending, input, out, err) {
            Ok(tellings) => tellings.status(),
            Err(fault) => fail(fault, err),
        },
    };
    ExitCode::from(status)
}
