//! A program that plays the cases of the files which its words name.

use crate::play::{Failure, Player, play_case};
use crate::script::{Block, Script};
use std::alloc::Global;
use std::process::ExitCode;
use std::rt::{Env, Files};
use std::{env, fs, io};

/// How many cases were played, how many of them have failed, and how many others were short of memory.
#[derive(Clone, Copy)]
struct Count {
    cases: u64,
    failed: u64,
    short: u64,
}

impl Count {
    /// Counts a case.
    fn add(&mut self, is_right: bool, is_short: bool) {
        self.cases = self.cases.saturating_add(1);
        self.failed = self.failed.saturating_add(u64::from(!is_right));
        self.short = self.short.saturating_add(u64::from(is_short));
    }
}

/// Plays a case, counts it, and says what is wrong where something is.
fn tell_case<P: Player, R: Print + AllocGlobal>(
    rt: &R,
    player: &mut P,
    file: &str,
    script: &Script<'_>,
    case: &Block<'_>,
    count: &mut Count,
) -> io::Result<()> {
    let failure = match play_case(player, rt.alloc(), script, case) {
        Ok(is_short) => {
            count.add(true, is_short);
            return Ok(());
        }
        Err(failure) => failure,
    };
    count.add(false, false);
    match failure {
        Failure::At(line, text) => println!(rt; "{file}:{line}: {}: {text}", case.name),
        Failure::OutOfMemory => println!(rt; "{file}: {}: no memory", case.name),
    }
}

/// Plays the cases of a file.
fn tell_file<P: Player, R: Print + AllocGlobal>(
    rt: &R,
    player: &mut P,
    file: &str,
    text: &str,
) -> io::Result<Count> {
    let script = Script::read(rt.alloc(), text)?;
    let mut count = Count {
        cases: 0,
        failed: 0,
        short: 0,
    };
    for block in &script.blocks {
        if !block.name.starts_with("steps ") {
            tell_case(rt, player, file, &script, block, &mut count)?;
        }
    }
    Ok(count)
}

/// Says what came of the cases of a file.
fn tell_count<R: Print>(rt: &R, file: &str, count: Count) -> io::Result<()> {
    let Count {
        cases,
        failed,
        short,
    } = count;
    if short == 0 {
        return println!(rt; "{file}: {cases} cases, {failed} wrong");
    }
    println!(rt; "{file}: {cases} cases, {failed} wrong, {short} short of memory")
}

/// Plays the cases of a file, and says what came of them: whether there are any, each right, and none was short of memory.
fn play_file<P: Player, R: Files + Print + AllocGlobal>(
    rt: &R,
    player: &mut P,
    file: &str,
) -> io::Result<bool> {
    let text = fs::read_to_string(rt, file)?;
    let count = tell_file(rt, player, file, text.as_str())?;
    tell_count(rt, file, count)?;
    Ok(count.cases > 0 && count.failed == 0 && count.short == 0)
}

/// Turns the player to a subject: whether it plays cases of it.
fn turn<P: Player, R: Print>(rt: &R, player: &mut P, subject: &str) -> io::Result<bool> {
    let is_played = player.turn_to(subject);
    if !is_played {
        println!(rt; "{subject}: no subject of cases")?;
    }
    Ok(is_played)
}

/// Does what a word says: it turns to the subject before a `:` at its end, or plays the file that it names.
fn heed<P: Player, R: Files + Print + AllocGlobal>(
    rt: &R,
    player: &mut P,
    word: &str,
) -> io::Result<bool> {
    match word.strip_suffix(':') {
        Some(subject) => turn(rt, player, subject),
        None => play_file(rt, player, word),
    }
}

/// Plays the cases of the files that the program's words name, and says how many there are in each, and what is wrong with
/// which. A word with a `:` at its end is no file: it names the subject of the cases behind it. The status is 1 where a case has
/// failed or was short of memory, a file has none, a subject is not played, or there is no word.
pub fn play_files<P: Player, R: Env + Files + Print + AllocGlobal>(
    rt: &R,
    player: &mut P,
) -> io::Result<ExitCode> {
    let words: Vec<String> = env::args(rt)?.collect(rt.alloc())?;
    let mut is_right = words.len() > 1;
    for word in words.iter().skip(1) {
        is_right = heed(rt, player, word.as_str())? && is_right;
    }
    Ok(if is_right {
        ExitCode::SUCCESS
    } else {
        ExitCode::FAILURE
    })
}
