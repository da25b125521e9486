//! What the calls of a stream do, as words.

use kp_cases::StepFault;
use kp_connection::script::Step;
use std::alloc::Global;

fn call_of(word: &str) -> Result<Step, StepFault> {
    match word {
        "wait" => Ok(Step::Wait),
        "fail" => Ok(Step::Fail),
        "end" => Ok(Step::End),
        "all" => Ok(Step::Move(usize::MAX)),
        most => Ok(Step::Move(most.parse().map_err(|_| StepFault::NotUnderstood)?)),
    }
}

/// Calls with commas between them, as in `40,wait,end`; `-` for none.
pub(crate) fn calls_of(alloc: Global, word: &str) -> Result<Vec<Step>, StepFault> {
    let mut calls = Vec::new(alloc);
    if word == "-" {
        return Ok(calls);
    }
    for call in word.split(',') {
        calls.push(call_of(call)?)?;
    }
    Ok(calls)
}
