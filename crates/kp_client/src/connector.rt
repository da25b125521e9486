//! What makes a service's connections, beside its engine's turns.

ghost use Rattle.std.specs.Prelude.{◌≡◌, ◌≤◌, ℕ};
ghost use Rattle.futures.specs.Poll.{OnPending};
ghost use Rattle.futures.specs.Task.{Hears, Keeps};
ghost use Rattle.kp_running.specs.Over.{IfEnded, IsSpent};
ghost use Rattle.kp_client.specs.Connecting.{waits_of};
ghost use Rattle.kp_client.specs.Policy.{limit_of, made_after_reply};

use crate::again::Again;
use crate::connecting::Way;
use crate::spread::jittered;
use futures::Future;
use futures::task::{Context, Poll};
use kp_connection::Plain;
use kp_core::Core;
use kp_engine::Moves;
use kp_running::{Keeping, News};
use rand::SeedableRng;
use rand::rngs::SmallRng;
use std::net::Net;
use std::time::{Clock, Duration, Instant};
use tokio::net::{ConnectFuture, TcpStream};
use tokio::runtime::Handle;
use tokio::time::{Sleep, Timeout};

/// How far the next connection is.
#[derive(Drop)]
pub(crate) enum Stage {
    /// None is under way.
    Idle,
    /// The next try waits for its moment.
    Pausing(Sleep),
    Trying(Timeout<ConnectFuture>),
    /// It was made.
    Made,
}

/// The only node: whoever is reached at the service's address.
const NODE: u32 = 0;

/// Makes a service's connections: the first is no new one; where it can't be made, and in place of one that was lost, new
/// ones are, as often and at such distances as the policy has it.
#[derive(Drop)]
pub(crate) struct Connector<'a, R> {
    rt: &'a R,
    handle: Handle,
    way: Way,
    again: Again,
    /// The first try was begun.
    begun: bool,
    /// When the last try ended, if one did.
    tried: Option<Instant>,
    stage: Stage,
    numbers: SmallRng,
}

impl<'a, R: Net + Clock> Connector<'a, R> {
    /// With a seed for what spreads its waits.
    pub(crate) fn new(
        rt: &'a R,
        handle: Handle,
        way: Way,
        again: Again,
        seed: u64,
    ) -> Connector<'a, R>
        ensures { result.again ≡ again }
    {
        Connector {
            rt,
            handle,
            way,
            again,
            begun: false,
            tried: None,
            stage: Stage::Idle,
            numbers: SmallRng::seed_from_u64(seed),
        }
    }

    /// Begins the next try, or the wait before it, unless the policy allows no more.
    fn begin<T>(&mut self, cx: &mut Context<'_>) -> Poll<News<T>>
        ensures registered { OnPending result ((s : ℕ) → waits_of self.new.stage s → Hears cx.new s) }
        ensures policy { self.new.again.policy ≡ self.old.again.policy }
        ensures spent { IfEnded result (IsSpent (limit_of self.new.again.policy) self.new.again.made) }
        ensures kept { Keeps cx.old cx.new }
    {
        if !self.begun {
            self.begun = true;
            self.stage = self.begin_try();
            return self.go_on(cx);
        }
        match self.again.next() {
            None => Poll::Ready(News::Ended),
            Some(wait) => {
                let wait = jittered(&mut self.numbers, wait);
                self.stage = self.begin_wait(wait);
                self.go_on(cx)
            }
        }
    }

    /// Asks to be polled again, where a try or a wait was begun; where memory was refused to it, whoever polls comes back.
    fn go_on<T>(&self, cx: &mut Context<'_>) -> Poll<News<T>>
        ensures pending { result ≡ Poll.Pending }
        ensures registered { (s : ℕ) → waits_of self.now.stage s → Hears cx.new s }
        ensures kept { Keeps cx.old cx.new }
    {
        match &self.stage {
            Stage::Idle | Stage::Made => Poll::Pending,
            Stage::Pausing(_) | Stage::Trying(_) => cx.yield_now(),
        }
    }

    /// A wait of so many milliseconds between the last try and the next, of which some may have passed.
    fn begin_wait(&self, wait: u64) -> Stage {
        let left = Duration::from_millis(wait).saturating_sub(self.since_last_try());
        if left.is_zero() {
            return self.begin_try();
        }
        match self.handle.time().sleep(self.rt, left) {
            Ok(sleep) => Stage::Pausing(sleep),
            Err(_) => Stage::Idle,
        }
    }

    /// How long ago the last try ended: nothing, where none did or the clock can't be read.
    fn since_last_try(&self) -> Duration {
        match &self.tried {
            Some(tried) => tried.elapsed(self.rt).unwrap_or(Duration::ZERO),
            None => Duration::ZERO,
        }
    }

    fn begin_try(&self) -> Stage {
        let connecting = TcpStream::connect(self.rt, self.way.address, self.handle.reactor());
        let timed = self
            .handle
            .time()
            .timeout(self.rt, self.way.patience, connecting);
        match timed {
            Ok(timed) => Stage::Trying(timed),
            Err(_) => Stage::Idle,
        }
    }
}

impl<R: Net + Clock> Keeping for Connector<'_, R> {
    type Stream = Plain<TcpStream>;

    ghost waits = { λ connector. waits_of connector.stage };

    ghost limit = { λ connector. limit_of connector.again.policy };

    ghost made = { λ connector. connector.again.made };

    ghost noted = { λ old moves new. 1 ≤ moves.replies → (new.again.wait ≡ 0) × (new.again.made ≡ made_after_reply old.again.policy old.again.made) };

    /// None is begun while nothing waits for its report: then a pending poll waits for nothing.
    fn poll_news(&mut self, cx: &mut Context<'_>, core: &Core) -> Poll<News<Plain<TcpStream>>> {
        match &mut self.stage {
            Stage::Made => Poll::Pending,
            Stage::Idle => {
                if core.untold() == 0 {
                    return Poll::Pending;
                }
                self.begin(cx)
            }
            Stage::Pausing(sleep) => {
                if sleep.poll_elapsed(cx).is_pending() {
                    return Poll::Pending;
                }
                self.stage = self.begin_try();
                self.go_on(cx)
            }
            Stage::Trying(trying) => match trying.poll(cx) {
                Poll::Pending => Poll::Pending,
                Poll::Ready(tried) => {
                    self.stage = Stage::Idle;
                    self.tried = Instant::now(self.rt).ok();
                    let Ok(Ok(inner)) = tried else {
                        return cx.yield_now();
                    };
                    let _set = inner.set_nodelay(true);
                    self.stage = Stage::Made;
                    Poll::Ready(News::Connected(NODE, Plain { inner }))
                }
            },
        }
    }

    fn new_connections(&self) -> u32 {
        self.again.made()
    }

    fn note_lost(&mut self, _node: u32) {
        self.stage = Stage::Idle;
    }

    fn note_moves(&mut self, moves: &Moves) {
        if moves.replies() > 0 {
            self.again.note_reply();
        }
    }
}
