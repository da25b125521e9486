//! A case that is played.

use crate::fault::StepFault;
use crate::script::{Block, Line, Script};
use crate::words::Words;
use std::alloc::{AllocError, Global};

/// Room for what a step comes to, in bytes: so much of it takes no memory behind what the step does.
const ROOM: usize = 4096;

/// What plays the steps of cases.
pub trait Player {
    /// Turns to the cases of a subject; false where it plays none of that name.
    fn turn_to(&mut self, subject: &str) -> bool;

    /// Begins a case: nothing is left of the one before.
    fn begin(&mut self);

    /// Plays the step with this first word and these behind it, and writes what it came to. Words that are left are too many.
    /// A step that finds no memory leaves all as it was.
    fn play(
        &mut self,
        step: &str,
        words: &mut Words<'_>,
        came: &mut String,
    ) -> Result<(), StepFault>;
}

/// Why a case has failed.
#[derive(Drop)]
pub(crate) enum Failure {
    /// At this line, which is told in full.
    At(usize, String),
    OutOfMemory,
}

impl From<AllocError> for Failure {
    fn from(_refused: AllocError) -> Failure {
        Failure::OutOfMemory
    }
}

/// The words of a step, and what it has to come to.
fn parts_of(text: &str) -> (&str, &str) {
    if let Some(words) = text.strip_suffix(" =") {
        return (words, "");
    }
    text.split_once(" = ").unwrap_or((text, ""))
}

/// How many times a step is to be played, and the step.
fn times_of(text: &str) -> Result<(u64, &str), StepFault> {
    let Some(rest) = text.strip_prefix("times ") else {
        return Ok((1, text));
    };
    let (count, step) = rest.split_once(' ').ok_or(StepFault::NotUnderstood)?;
    let count = count.parse().map_err(|_| StepFault::NotUnderstood)?;
    Ok((count, step))
}

/// What the words of a step come to, played once.
fn came_once<P: Player>(player: &mut P, alloc: Global, words: &str) -> Result<String, StepFault> {
    let mut came = String::with_capacity(alloc, ROOM)?;
    let mut words = Words::of(alloc, words);
    let step = words.word()?;
    player.play(step, &mut words, &mut came)?;
    words.end()?;
    Ok(came)
}

/// What the words of a step come to, played again where it found no memory.
fn came_of<P: Player>(
    player: &mut P,
    alloc: Global,
    words: &str,
    is_short: &mut bool,
) -> Result<String, StepFault> {
    match came_once(player, alloc, words) {
        Err(StepFault::OutOfMemory) => {
            *is_short = true;
            came_once(player, alloc, words)
        }
        came => came,
    }
}

/// Plays a step, and says where it was short of memory.
fn play_once<P: Player>(
    player: &mut P,
    alloc: Global,
    line: usize,
    step: &str,
    is_short: &mut bool,
) -> Result<(), Failure> {
    let (words, wanted) = parts_of(step);
    let text = match came_of(player, alloc, words, is_short) {
        Ok(came) if came.as_str() == wanted => return Ok(()),
        Ok(came) => format!(in alloc; "{words}: wanted \"{wanted}\", came \"{came}\"")?,
        Err(StepFault::Stopped) => {
            *is_short = true;
            return Ok(());
        }
        Err(fault) => format!(in alloc; "{words}: {fault}")?,
    };
    Err(Failure::At(line, text))
}

/// What is wrong with a line that isn't played.
fn failure_of(alloc: Global, line: Line<'_>, fault: StepFault) -> Failure {
    match format!(in alloc; "{}: {fault}", line.text) {
        Ok(text) => Failure::At(line.number, text),
        Err(_) => Failure::OutOfMemory,
    }
}

/// The line with each named text in the place of its name, spelled again where there was no memory.
fn spelled(script: &Script<'_>, line: Line<'_>, is_short: &mut bool) -> Result<String, StepFault> {
    match script.spelled(line.text) {
        Err(StepFault::OutOfMemory) => {
            *is_short = true;
            script.spelled(line.text)
        }
        spelled => spelled,
    }
}

/// Plays a line that has a step, as often as it says.
fn play_step<P: Player>(
    player: &mut P,
    alloc: Global,
    script: &Script<'_>,
    line: Line<'_>,
    is_short: &mut bool,
) -> Result<(), Failure> {
    let spelled = match spelled(script, line, is_short) {
        Ok(spelled) => spelled,
        Err(fault) => return Err(failure_of(alloc, line, fault)),
    };
    match times_of(spelled.as_str()) {
        Ok((count, step)) => {
            for _ in 0..count {
                play_once(player, alloc, line.number, step, is_short)?;
            }
            Ok(())
        }
        Err(fault) => Err(failure_of(alloc, line, fault)),
    }
}

/// How many times named steps are to be played, and which; None where a line has a step of the player's.
fn named_steps<'s, 'a>(
    script: &'s Script<'a>,
    line: Line<'_>,
) -> Result<Option<(u64, &'s [Line<'a>])>, StepFault> {
    let (count, step) = times_of(line.text)?;
    match step.strip_prefix("do ") {
        Some(name) => Ok(Some((count, script.steps(name)?))),
        None => Ok(None),
    }
}

/// Plays a line of a case.
fn play_line<P: Player>(
    player: &mut P,
    alloc: Global,
    script: &Script<'_>,
    line: Line<'_>,
    is_short: &mut bool,
) -> Result<(), Failure> {
    match named_steps(script, line) {
        Ok(None) => play_step(player, alloc, script, line, is_short),
        Ok(Some((count, steps))) => {
            for _ in 0..count {
                for step in steps {
                    play_step(player, alloc, script, *step, is_short)?;
                }
            }
            Ok(())
        }
        Err(fault) => Err(failure_of(alloc, line, fault)),
    }
}

/// Plays a case from its beginning: whether it was short of memory.
pub(crate) fn play_case<P: Player>(
    player: &mut P,
    alloc: Global,
    script: &Script<'_>,
    case: &Block<'_>,
) -> Result<bool, Failure> {
    let mut is_short = false;
    player.begin();
    for line in &case.steps {
        play_line(player, alloc, script, *line, &mut is_short)?;
    }
    Ok(is_short)
}
