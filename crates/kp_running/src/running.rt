//! The future that owns an engine, and waits for work.

ghost use Rattle.std.specs.Prelude.{◌≡◌, ◌⊎◌, Some, IsSome, IsSomeAnd, IfSome, IfOk, IfErr};
ghost use Rattle.futures.specs.Poll.{OnPending};
ghost use Rattle.futures.specs.Task.{Covers, Hears, IsArmed, Keeps};
ghost use Rattle.tokio.specs.Locks.{notified_source};
ghost use Rattle.tokio.specs.Timers.{sleep_source};

use crate::bells::Bells;
use crate::pace::Pace;
use crate::turning::Turning;
use futures::Future;
use futures::task::{Context, Poll};
use std::io;
use std::time::{Clock, Duration, Instant};
use tokio::runtime::Handle;
use tokio::sync::Notified;
use tokio::time::Sleep;

/// Owns an engine and polls it to its stop. After a poll that moved something it asks to be polled again; after one that
/// moved nothing it waits for the first of these: the engine's stream, a ring of the engine's bell, the moment at which
/// something is due, and a tick of 1 to 40 milliseconds. It rings for each sender that a poll served. With its stop it
/// gives the engine back.
#[derive(Drop)]
pub struct Running<'a, R, E> {
    rt: &'a R,
    bells: &'a Bells,
    engine: Option<E>,
    timer: Sleep,
    heard: Notified<'a>,
    /// The engine's bell was asked to ring, and the engine was polled since.
    asked: bool,
    /// The timer was set for the present wait.
    set: bool,
    pace: Pace,
}

impl<'a, R: Clock, E: Turning> Running<'a, R, E> {
    ghost use Rattle.kp_running.specs.Running.{engine_in};

    /// Runs the engine in the runtime of this handle. Where memory is refused, or the clock cannot be read, the engine
    /// comes back.
    pub fn new(
        rt: &'a R,
        handle: &Handle,
        bells: &'a Bells,
        engine: E,
    ) -> Result<Running<'a, R, E>, (io::Error, E)>
        ensures ok { IfOk result (λ running. engine_in running ≡ Some engine) }
        ensures back { IfErr result (λ refused. refused.1 ≡ engine) }
    {
        match timer(rt, handle) {
            Ok(timer) => Ok(Running {
                rt,
                bells,
                engine: Some(engine),
                timer,
                heard: bells.engine().heard(),
                asked: false,
                set: false,
                pace: Pace::new(),
            }),
            Err(refused) => Err((refused, engine)),
        }
    }

    /// The engine, unless it was given with its stop.
    pub fn into_engine(self) -> Option<E>
        ensures { result ≡ engine_in self.entry }
    {
        let Running { engine, .. } = self;
        engine
    }

    /// After a poll that moved something.
    fn note_move(&mut self)
        ensures { self.new.engine ≡ self.old.engine }
    {
        if self.asked {
            self.bells.engine().excuse();
            self.asked = false;
        }
        self.set = false;
        self.pace = Pace::new();
    }

    /// Sets the timer for a wait of so many milliseconds.
    fn set_timer(&mut self, wait: u64)
        ensures heard { self.new.heard ≡ self.old.heard }
        ensures engine { self.new.engine ≡ self.old.engine }
        ensures source { sleep_source self.new.timer ≡ sleep_source self.old.timer }
    {
        if let Ok(now) = Instant::now(self.rt) {
            // The timer rounds up to its next millisecond.
            let rest = Duration::from_millis(wait.saturating_sub(1));
            self.timer.reset(now.checked_add(rest).unwrap_or(now));
            self.set = true;
        }
    }

    /// Waits at the timer, which is set where it was not or has fired.
    fn poll_timer(&mut self, cx: &mut Context<'_>, due: Option<u64>) -> Poll<()>
        ensures registered { OnPending result (Covers cx.new (λ s. s ≡ sleep_source self.new.timer)) }
        ensures heard { self.new.heard ≡ self.old.heard }
        ensures engine { self.new.engine ≡ self.old.engine }
        ensures kept { Keeps cx.old cx.new }
    {
        if self.set {
            if self.timer.poll_elapsed(cx).is_pending() {
                return Poll::Pending;
            }
            self.pace.grow();
        }
        let wait = self.pace.wait(due);
        self.set_timer(wait);
        self.timer.poll_elapsed(cx).map(|_| ())
    }

    /// After a poll that moved nothing.
    fn poll_rest<T>(&mut self, cx: &mut Context<'_>, due: Option<u64>) -> Poll<T>
        ensures pending { result ≡ Poll.Pending }
        ensures armed { IsArmed cx.new }
        ensures timer { Hears cx.new (sleep_source self.new.timer) }
        ensures bell { Hears cx.new (notified_source self.new.heard) }
        ensures engine { self.new.engine ≡ self.old.engine }
        ensures kept { Keeps cx.old cx.new }
    {
        if !self.asked {
            // The next poll looks at the lanes once more.
            self.bells.engine().ask();
            self.asked = true;
            return cx.yield_now();
        }
        if self.poll_timer(cx, due).is_ready() {
            return cx.yield_now();
        }
        if self.heard.poll(cx).is_pending() {
            return Poll::Pending;
        }
        self.heard = self.bells.engine().heard();
        self.asked = false;
        cx.yield_now()
    }
}

/// A timer that has fired.
fn timer<R: Clock>(rt: &R, handle: &Handle) -> io::Result<Sleep> {
    let now = Instant::now(rt)?;
    Ok(handle.time().sleep_until(now)?)
}

impl<R: Clock, E: Turning> Future for Running<'_, R, E> {
    ghost use Rattle.kp_running.specs.Running.{Reaches};

    type Output = (E, E::Stop);

    ghost can_poll = { λ f. IsSome f.engine };

    // A poll that is pending has registered at what the engine waits for, at the timer and at the bell, or has asked to be
    // polled again.
    ghost needs = { λ f s. IsSomeAnd f.engine (λ engine. E.reader engine s)
        ⊎ ((s ≡ sleep_source f.timer) ⊎ (s ≡ notified_source f.heard)) };

    // The engine that is given was polled on from the one that was owned, and its last poll gave the stop.
    ghost gives = { λ f out. IfSome f.engine (λ engine. Reaches E.polls engine out.1 out.0) };

    fn poll(&mut self, cx: &mut Context<'_>) -> Poll<(E, E::Stop)> {
        let mut engine = self.engine.take().unwrap();
        let polled = engine.poll_turn(cx);
        self.bells.ring_served(&engine);
        match polled {
            Poll::Ready(stop) => Poll::Ready((engine, stop)),
            Poll::Pending => {
                if engine.has_moved() {
                    self.engine = Some(engine);
                    self.note_move();
                    return cx.yield_now();
                }
                let due = engine.due_in();
                self.engine = Some(engine);
                self.poll_rest(cx, due)
            }
        }
    }
}
