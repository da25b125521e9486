//! How far a stream has come, as it is told now and then.

ghost use Rattle.futures.specs.Task.{Keeps};

use crate::moments::Moments;
use crate::words::{Progress, put_progress, put_statistics};
use futures::task::{Context, Poll};
use kp_core::Report;
use kp_drive::{Embed, Ticket};
use kp_send::{Latencies, Tellings};
use std::alloc::{AllocError, Global};
use std::io::{self, Write};
use std::time::{Clock, Duration, Instant};
use tokio::runtime::Handle;
use tokio::time::Sleep;

/// How often a terminal is told, in milliseconds.
const PROGRESS: u64 = 250;

/// How often the input is read on where enough is queued, in milliseconds.
const PACE: u64 = 10;

/// What a terminal takes to begin its line anew.
const ANEW: &[u8] = b"\r\x1b[K";

/// What is told of a stream's progress, and when.
#[derive(Clone, Copy, Debug)]
pub struct Telling {
    /// Whether a line of `err` tells it, which moves.
    pub moves: bool,
    /// How often a line of `out` tells it, if at all.
    pub every: Option<Duration>,
    /// After what time the stream is given up, if ever.
    pub at_most: Option<Duration>,
}

/// A timer that is due again and again.
#[derive(Drop)]
struct Ticker {
    timer: Sleep,
    every: Duration,
}

impl Ticker {
    /// One that is due for the first time so long after this moment.
    fn new(handle: &Handle, now: Instant, every: Duration) -> Result<Ticker, AllocError> {
        Ok(Ticker {
            timer: handle.time().sleep_until(later(now, every))?,
            every,
        })
    }

    /// Whether it is due: then it is due again so long after this moment.
    fn is_due(&mut self, cx: &mut Context<'_>, now: Instant) -> bool
        ensures { Keeps cx.old cx.new }
    {
        let is_due = self.timer.poll_elapsed(cx).is_ready();
        if is_due {
            self.timer.reset(later(now, self.every));
        }
        is_due
    }
}

/// Tells how far a stream has come, as it is wanted.
#[derive(Drop)]
pub(crate) struct Watch {
    alloc: Global,
    begun: Instant,
    /// When its clock was looked at last.
    now: Instant,
    /// How many bytes of the input have come.
    bytes: u64,
    moments: Moments,
    /// In microseconds, from sending to report, where they are wanted.
    latencies: Option<Latencies>,
    moves: Option<Ticker>,
    statistics: Option<Ticker>,
    end: Option<Sleep>,
    /// What was told last of a line that moves, where one stands there.
    moving: Option<Progress>,
    /// When a piece of the input came last.
    came: Instant,
    /// Ends a wait for the next one.
    pace: Sleep,
}

impl Watch {
    /// One that begins now. Its timers are of this handle's event loop.
    pub(crate) fn new<R: Clock>(
        alloc: Global,
        rt: &R,
        handle: &Handle,
        telling: Telling,
    ) -> io::Result<Watch> {
        let now = Instant::now(rt)?;
        let moves = if telling.moves {
            Some(Ticker::new(handle, now, Duration::from_millis(PROGRESS))?)
        } else {
            None
        };
        let (statistics, latencies) = match telling.every {
            Some(every) => (
                Some(Ticker::new(handle, now, every)?),
                Some(Latencies::new(alloc)?),
            ),
            None => (None, None),
        };
        let end = match telling.at_most {
            Some(most) => Some(handle.time().sleep_until(later(now, most))?),
            None => None,
        };
        Ok(Watch {
            alloc,
            begun: now,
            now,
            bytes: 0,
            moments: Moments::new(alloc),
            latencies,
            moves,
            statistics,
            end,
            moving: None,
            came: now,
            pace: handle.time().sleep_until(now)?,
        })
    }

    /// Looks at the clock.
    pub(crate) fn look<R: Clock>(&mut self, rt: &R) {
        if let Ok(now) = Instant::now(rt) {
            self.now = now;
        }
    }

    /// How long it has been there, in microseconds.
    fn passed(&self) -> u64 {
        u64::try_from(self.now.duration_since(self.begun).as_micros()).unwrap_or(u64::MAX)
    }

    /// So many bytes of the input have come.
    pub(crate) fn came(&mut self, bytes: usize) {
        self.bytes = self.bytes.saturating_add(bytes as u64);
        self.came = self.now;
    }

    /// A record was accepted with this ticket.
    pub(crate) fn sent(&mut self, ticket: Ticket) -> Result<(), AllocError> {
        if self.latencies.is_none() {
            return Ok(());
        }
        let passed = self.passed();
        self.moments.sent(ticket, passed)
    }

    /// A report came.
    pub(crate) fn told(&mut self, report: &Report) {
        if self.latencies.is_none() {
            return;
        }
        let passed = self.passed();
        if let Some(latencies) = &mut self.latencies {
            if let Some(at) = self.moments.told(report) {
                latencies.add(passed.saturating_sub(at));
            }
        }
    }

    /// Whether it is too early to take in the next piece of the input, where enough is queued.
    pub(crate) fn is_early(&mut self, cx: &mut Context<'_>) -> bool
        ensures { Keeps cx.old cx.new }
    {
        let next = later(self.came, Duration::from_millis(PACE));
        self.pace.reset(next);
        self.pace.poll_elapsed(cx).is_pending()
    }

    /// Whether the stream's time is over.
    pub(crate) fn is_over(&mut self, cx: &mut Context<'_>) -> bool
        ensures { Keeps cx.old cx.new }
    {
        match &mut self.end {
            Some(end) => end.poll_elapsed(cx).is_ready(),
            None => false,
        }
    }

    /// Tells what is due: whether something was. Nothing is made of an `out` or `err` that fails.
    pub(crate) fn poll_due<O: Write, E: Write>(
        &mut self,
        cx: &mut Context<'_>,
        producer: &Embed,
        tellings: Tellings,
        waiting: usize,
        out: &mut O,
        err: &mut E,
    ) -> Result<bool, AllocError>
        ensures { Keeps cx.old cx.new }
    {
        let now = self.now;
        let moves = match &mut self.moves {
            Some(ticker) => ticker.is_due(cx, now),
            None => false,
        };
        let tells = match &mut self.statistics {
            Some(ticker) => ticker.is_due(cx, now),
            None => false,
        };
        if moves {
            self.tell_progress(producer, tellings, waiting, err)?;
        }
        if tells {
            self.tell_statistics(producer, tellings, waiting, out)?;
        }
        Ok(moves || tells)
    }

    /// Tells how far it has come in the line that moves.
    fn tell_progress<E: Write>(
        &mut self,
        producer: &Embed,
        tellings: Tellings,
        waiting: usize,
        err: &mut E,
    ) -> Result<(), AllocError> {
        let before = self.moving.unwrap_or(Progress::new());
        let now = self.progress(tellings);
        let mut text = Vec::new(self.alloc);
        text.extend_from_slice(ANEW)?;
        put_progress(&mut text, before, now, waiting, producer)?;
        let _ = err.write_all(&text);
        let _ = err.flush();
        self.moving = Some(now);
        Ok(())
    }

    /// How far it has come now.
    fn progress(&self, tellings: Tellings) -> Progress {
        Progress {
            passed: self.passed(),
            bytes: self.bytes,
            delivered: tellings.delivered,
        }
    }

    /// Tells how far it has come in a line of its own, where that is wanted.
    pub(crate) fn tell_statistics<O: Write>(
        &mut self,
        producer: &Embed,
        tellings: Tellings,
        waiting: usize,
        out: &mut O,
    ) -> Result<(), AllocError> {
        let Some(latencies) = &self.latencies else {
            return Ok(());
        };
        let mut text = Vec::new(self.alloc);
        let now = self.progress(tellings);
        put_statistics(&mut text, now, tellings, waiting, latencies, producer)?;
        let _ = out.write_all(&text);
        let _ = out.flush();
        Ok(())
    }

    /// Takes the line that moves away, where one stands there.
    pub(crate) fn clear<E: Write>(&mut self, err: &mut E) {
        if self.moving.is_some() {
            let _ = err.write_all(ANEW);
            self.moving = None;
        }
    }
}

/// So long after a moment, or that moment where no clock shows such a one.
fn later(now: Instant, after: Duration) -> Instant {
    now.checked_add(after).unwrap_or(now)
}
