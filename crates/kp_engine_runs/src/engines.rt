//! Plays what the engine does, poll by poll, over streams in memory that move a few bytes at a time, wait, lie, fail and end.

mod account;
mod calls;
mod clock;
mod opening;
mod scene;
mod setting;
mod shared;
mod tally;
mod texts;

use calls::calls_of;
use kp_cases::{StepFault, Words, put, put_debug};
use scene::Scene;
use setting::Setting;
use std::random::RandomSource;
use texts::{put_calls, put_held, put_stop};

/// The engine of a case, once there is one, and what it was opened with.
#[derive(Drop)]
pub(crate) struct Engines<'a, R> {
    rt: &'a R,
    setting: Setting,
    scene: Option<Scene>,
    /// The core of an engine, as it showed itself when it was last looked at.
    core: String,
}

/// How a step ends, when it has written what it came to.
type Played = Result<(), StepFault>;

/// What the senders do and are told.
fn play_senders(scene: &mut Scene, step: &str, words: &mut Words<'_>, came: &mut String) -> Played {
    match step {
        "send" => scene.send(words.number()?, words.word()?, came),
        "flush" => scene.flush(words.number()?, came),
        "shut" => {
            scene.closer.shut();
            Ok(())
        }
        "told" => scene.tell(words.number()?, came),
        _ => play_engine(scene, step, words, came),
    }
}

/// What is done with the engine.
fn play_engine(scene: &mut Scene, step: &str, words: &mut Words<'_>, came: &mut String) -> Played {
    match step {
        "poll" => Ok(put_stop(came, scene.poll_on()?)?),
        "turn" => tell_turn(scene, came),
        "connect" => connect(scene, came),
        "end" => put(came, &scene.engine.end()),
        _ => play_stream(scene, step, words, came),
    }
}

/// Goes on over another connection, and tells where none was needed.
fn connect(scene: &mut Scene, came: &mut String) -> Played {
    Ok(came.push_str(if scene.connect()? { "" } else { "no need" })?)
}

/// Polls, and tells the calls on the core and what the poll gave.
fn tell_turn(scene: &mut Scene, came: &mut String) -> Played {
    let stop = scene.poll_on()?;
    put_calls(came, scene.engine.last_turn().ok_or("no calls are kept")?)?;
    Ok(put_stop(came, stop)?)
}

/// What goes over the stream.
fn play_stream(scene: &Scene, step: &str, words: &mut Words<'_>, came: &mut String) -> Played {
    match step {
        "say" => scene.say(words.rest_bytes()?),
        "answer" => answer(scene, words.number()?, words.number()?),
        "play" => play_calls(scene, words),
        "written" => tell_written(scene, came),
        "written-len" => tell_written_len(scene, came),
        _ => look(scene, step, came),
    }
}

/// From now on the stream gives the answer that the batch of this request stands at this offset.
fn answer(scene: &Scene, correlation: u32, offset: i64) -> Played {
    let stored = "0000000100017400000001000000000000";
    let no_time = "ffffffffffffffff00000000";
    let digits = format!(in scene.alloc;
        "00000029{correlation:08x}{stored}{offset:016x}{no_time}"
    )?;
    scene.say(hex::decode(scene.alloc, digits.as_str())?)
}

/// From now on the stream's reads and its writes go through these calls, and it gives the bytes behind them.
fn play_calls(scene: &Scene, words: &mut Words<'_>) -> Played {
    let reads = calls_of(scene.alloc, words.word()?)?;
    let writes = calls_of(scene.alloc, words.word()?)?;
    scene.play(reads, writes, words.rest_bytes()?)
}

fn tell_written(scene: &Scene, came: &mut String) -> Played {
    let digits = hex::encode(scene.alloc, scene.stream.lend()?.output())?;
    put(came, &digits)
}

fn tell_written_len(scene: &Scene, came: &mut String) -> Played {
    put(came, &scene.stream.lend()?.output().len())
}

/// What is to be seen of the engine.
fn look(scene: &Scene, step: &str, came: &mut String) -> Played {
    match step {
        "calls" => put_debug(came, &scene.engine.last_turn().map(|calls| calls.len())),
        "stopped" => put_debug(came, &scene.engine.stopped()),
        "woken" => put(came, &scene.task.is_woken()),
        "moved" => Ok(scene.tell_moves(came)?),
        _ => Err(StepFault::NotUnderstood),
    }
}

impl<'a, R: RandomSource + AllocGlobal> Engines<'a, R> {
    pub(crate) fn new(rt: &'a R) -> Engines<'a, R> {
        Engines {
            rt,
            setting: Setting::new(),
            scene: None,
            core: String::new(rt.alloc()),
        }
    }

    fn open(&mut self, words: &mut Words<'_>) -> Played {
        self.setting = Setting::read(words)?;
        let scene = Scene::open(self.rt, self.setting)?;
        self.set_scene(Some(scene));
        Ok(())
    }

    /// This is the engine from now on; the one before is dropped.
    fn set_scene(&mut self, scene: Option<Scene>) {
        self.scene = scene;
    }

    fn scene(&mut self) -> Result<&mut Scene, StepFault> {
        Ok(self.scene.as_mut().ok_or("no engine")?)
    }

    /// Whether the core shows itself as the one did that was last looked at, of this engine or another one of the case.
    fn compare_core(&mut self, came: &mut String) -> Played {
        let core = self.scene()?.core()?;
        let is_same = core.as_str() == self.core.as_str();
        self.core = core;
        Ok(came.push_str(if is_same { "the same" } else { "another" })?)
    }

    /// Whether the engine has stopped for good, has kept its calls as it was asked to, and each record is found once. It is gone then.
    fn account(&mut self, came: &mut String) -> Played {
        let keeps_calls = self.setting.keeps_calls;
        let scene = self.scene()?;
        scene.polls_alike()?;
        if scene.engine.last_turn().is_some() != keeps_calls {
            return Err("calls are kept otherwise".into());
        }
        let found = self.scene.take().is_some_and(|scene| scene.has_each_once());
        Ok(came.push_str(if found { "each once" } else { "not each once" })?)
    }

    /// Whether the engine has stopped for good, as memory was refused to it.
    fn is_refused(&self) -> bool {
        self.scene.as_ref().is_some_and(|scene| scene.is_refused)
    }

    /// What the engine held back, which is gone then.
    fn take_apart(&mut self, came: &mut String) -> Played {
        let Scene { engine, .. } = self.scene.take().ok_or("no engine")?;
        Ok(put_held(came, &engine.into_parts().held)?)
    }
}

impl<R: RandomSource + AllocGlobal> Engines<'_, R> {
    /// Begins a case: nothing is left of the one before.
    pub(crate) fn begin(&mut self) {
        self.setting = Setting::new();
        self.set_scene(None);
        self.core.clear();
    }

    /// Plays a step.
    pub(crate) fn play(&mut self, step: &str, words: &mut Words<'_>, came: &mut String) -> Played {
        match step {
            "engine" => self.open(words),
            "account" => self.account(came),
            _ if self.is_refused() => Err(StepFault::Stopped),
            "core" => self.compare_core(came),
            "held" => self.take_apart(came),
            _ => play_senders(self.scene()?, step, words, came),
        }
    }
}
