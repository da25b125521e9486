//! A producer with its connections, its clock and its timer.

ghost use Rattle.std.specs.Prelude.{◌≡◌, ◌≤◌, ◌<◌, ◌*◌, ◌+◌, [], ℕ, None, Ok, Some, length, IfErr, IfOk, IfSome, OnErr, OnOk};
ghost use Rattle.std.specs.Time.{instant_nanos};
ghost use Rattle.futures.specs.Poll.{OnPending};
ghost use Rattle.futures.specs.Task.{Covers, Keeps};
ghost use Rattle.kp_accum.specs.Config.{checked};
ghost use Rattle.kp_cluster.specs.Cluster.{new_cluster};
ghost use Rattle.kp_cluster.specs.declared.learning.TheConstants.{SLOT_LIMIT};
ghost use Rattle.kp_drive.specs.Doing.{Tells};
ghost use Rattle.kp_drive.specs.Links.{link_at};
ghost use Rattle.kp_drive.specs.Turning.{Turns};
ghost use Rattle.kp_drive.specs.Waiting.{LinkWaits, SleepsUntilDue};
ghost use Rattle.kp_embed.specs.Ending.{Calls};
ghost use Rattle.kp_embed.specs.Producer.{new_producer};
ghost use Rattle.kp_embed.specs.Sending.{GoesTo, Refuses, Sends};
ghost use Rattle.kp_rules.specs.Calls.{Close, End, Fetch, Flush};
ghost use Rattle.kp_rules.specs.Opening.{NAME_LIMIT};
ghost use Rattle.tokio.specs.Timers.{sleep_deadline, sleep_source};

use crate::doing::do_all;
use crate::host::{Host, read_room};
use crate::link::Link;
use crate::links::poll_links;
use futures::task::{Context, Poll};
use kp_batch::Record;
use kp_cluster::Address;
use kp_connection::{Plain, Stream};
use kp_core::{Names, Report};
use kp_dial::{Dial, Dialing, Sockets};
use kp_embed::{Embed, EmbedConfig, SendFault, Target, Ticket};
use kp_running::Passed;
use std::alloc::Global;
use std::io;
use std::time::{Clock, Duration, Instant};
use tokio::net::TcpStream;
use tokio::runtime::Handle;
use tokio::time::Sleep;

/// The longest sleep, in milliseconds: an hour.
const LONGEST_SLEEP: u64 = 3_600_000;

/// A producer with its connections to the nodes of a cluster, on one thread. Whoever owns it calls `poll_turn` in a future's poll
/// until that is pending, and again after calls of other methods.
#[derive(Drop)]
pub struct Drive<'r, R, D, K, S> {
    rt: &'r R,
    start: Instant,
    clock: Passed,
    timer: Sleep,
    host: Host<D>,
    /// By node.
    links: Vec<Link<K, S>>,
    ghost few: { length links.items ≤ SLOT_LIMIT },
    ghost one_clock: { clock.start ≡ start },
}

/// A producer over tokio's sockets.
pub type SocketDrive<'r, R, L, K> = Drive<'r, R, Sockets<'r, R, L>, Dialing<K>, Plain<TcpStream>>;

impl<'r, R: Clock, K: Drop, S: Stream, D: Dial<Dialing = K, Stream = S>> Drive<'r, R, D, K, S> {
    ghost use Rattle.kp_drive.specs.Driving.{GoesOn, OnlyProducer, links_of, moment_of, producer_of, start_of, timer_of};

    /// A producer that knows these addresses (`bootstrap.servers`), and has no connection yet. Its clock begins now, and its timers
    /// are of this handle's event loop. The seed spreads its waits.
    pub fn new(
        alloc: Global,
        rt: &'r R,
        handle: &Handle,
        dial: D,
        config: EmbedConfig,
        names: Names,
        bootstrap: Vec<Address>,
        seed: u64,
    ) -> io::Result<Drive<'r, R, D, K, S>>
        requires right { checked config.producer ≡ Ok tt }
        requires topic { length names.topic ≤ NAME_LIMIT }
        requires client { length names.client ≤ NAME_LIMIT }
        requires some { 1 ≤ length bootstrap.items }
        requires few { length bootstrap.items ≤ SLOT_LIMIT }
        ensures producer { IfOk result (λ drive. producer_of drive ≡ new_producer config.producer names (new_cluster config.cluster bootstrap.items)) }
        ensures links { IfOk result (λ drive. links_of drive ≡ []) }
        ensures moment { IfOk result (λ drive. moment_of drive ≡ 0) }
    {
        let start = Instant::now(rt)?;
        let timer = handle.time().sleep_until(start)?;
        let room = read_room(alloc)?;
        let embed = Embed::new(alloc, config, names, bootstrap, seed, 0)?;
        Ok(Drive {
            rt,
            start,
            clock: Passed::since(start),
            timer,
            host: Host {
                alloc,
                embed,
                dial,
                room,
            },
            links: Vec::new(alloc),
        })
    }

    /// The producer, to be looked at.
    pub fn producer(&self) -> &Embed
        ensures { result.now ≡ producer_of self.now }
    {
        &self.host.embed
    }

    /// Accepts a record, now, as the next one of its partition. What is refused comes back.
    pub fn send(&mut self, target: Target, body: Record) -> Result<Ticket, (SendFault, Record)>
        ensures sends { IfOk result (λ t. Sends (producer_of self.old) (moment_of self.new) body t (producer_of self.new)) }
        ensures to { IfOk result (λ t. GoesTo target t.partition) }
        ensures back { IfErr result (λ refused. refused.1 ≡ body) }
        ensures refused { IfErr result (λ refused. producer_of self.new ≡ producer_of self.old) }
        ensures when { IfErr result (λ refused. Refuses (producer_of self.old) target (moment_of self.new) body refused.0) }
        ensures clock { GoesOn self.old self.new }
        ensures links { links_of self.new ≡ links_of self.old }
    {
        let now = self.look();
        self.send_at(target, body, now)
    }

    /// Looks at the clock: the moment that it shows.
    pub fn look(&mut self) -> u64
        ensures moment { result ≡ moment_of self.new }
        ensures clock { GoesOn self.old self.new }
        ensures producer { producer_of self.new ≡ producer_of self.old }
        ensures links { links_of self.new ≡ links_of self.old }
        ensures timer { timer_of self.new ≡ timer_of self.old }
    {
        self.clock.read(self.rt)
    }

    /// As `send`, at this moment: for records that come together, behind one `look`.
    pub fn send_at(
        &mut self,
        target: Target,
        body: Record,
        now: u64,
    ) -> Result<Ticket, (SendFault, Record)>
        ensures sends { IfOk result (λ t. Sends (producer_of self.old) now body t (producer_of self.new)) }
        ensures to { IfOk result (λ t. GoesTo target t.partition) }
        ensures back { IfErr result (λ refused. refused.1 ≡ body) }
        ensures refused { IfErr result (λ refused. producer_of self.new ≡ producer_of self.old) }
        ensures when { IfErr result (λ refused. Refuses (producer_of self.old) target now body refused.0) }
        ensures only { OnlyProducer self.old self.new }
    {
        self.host.embed.send(target, body, now)
    }

    /// As `send_at`; what is refused is put into `refused`, for who sends many.
    pub fn send_or_refuse(
        &mut self,
        target: Target,
        body: Record,
        now: u64,
        refused: &mut Option<Record>,
    ) -> Result<Ticket, SendFault>
        ensures sends { IfOk result (λ t. Sends (producer_of self.old) now body t (producer_of self.new)) }
        ensures to { IfOk result (λ t. GoesTo target t.partition) }
        ensures back { OnErr result (refused.new ≡ Some body) }
        ensures kept { OnOk result (refused.new ≡ refused.old) }
        ensures refused { OnErr result (producer_of self.new ≡ producer_of self.old) }
        ensures when { IfErr result (λ fault. Refuses (producer_of self.old) target now body fault) }
        ensures only { OnlyProducer self.old self.new }
    {
        self.host.embed.send_or_refuse(target, body, now, refused)
    }

    /// The oldest report that was not fetched.
    pub fn next_report(&mut self) -> Option<Report>
        ensures calls { Calls (Fetch 0 result) (producer_of self.old) (producer_of self.new) }
        ensures only { OnlyProducer self.old self.new }
    {
        self.host.embed.next_report()
    }

    /// All that was accepted goes out, without lingering.
    pub fn flush(&mut self)
        ensures calls { Calls Flush (producer_of self.old) (producer_of self.new) }
        ensures only { OnlyProducer self.old self.new }
    {
        self.host.embed.flush();
    }

    /// No record is accepted any more, and all that was goes out.
    pub fn close(&mut self)
        ensures calls { Calls Close (producer_of self.old) (producer_of self.new) }
        ensures only { OnlyProducer self.old self.new }
    {
        self.host.embed.close();
    }

    /// Gives up all that is left: how many records are told of.
    pub fn end(&mut self) -> usize
        ensures calls { Calls (End result) (producer_of self.old) (producer_of self.new) }
        ensures only { OnlyProducer self.old self.new }
    {
        self.host.embed.end()
    }

    /// A turn: the clock is looked at, connections are made and closed as the producer wants it, and bytes moved over each. Ready
    /// where anything has moved or is due, so that there may be reports, or room for records; pending where nothing has, until
    /// something does.
    pub fn poll_turn(&mut self, cx: &mut Context<'_>) -> Poll<()>
        ensures turns { Turns S.answers (moment_of self.new) (producer_of self.old) (links_of self.old) (producer_of self.new) (links_of self.new) }
        ensures clock { GoesOn self.old self.new }
        ensures links { OnPending result ((k : ℕ) → k < length (links_of self.new) → LinkWaits D.waits S.reader S.writer S.answers cx.new (link_at k (links_of self.new))) }
        ensures timer { OnPending result (Covers cx.new (λ s. s ≡ sleep_source (timer_of self.new))) }
        ensures due { OnPending result (SleepsUntilDue (start_of self.new) (moment_of self.new) (producer_of self.new) (timer_of self.new)) }
        ensures kept { Keeps cx.old cx.new }
    {
        let now = self.clock.read(self.rt);
        self.host.embed.tick(now);
        let told = do_all(&mut self.host, &mut self.links, now);
        let moved = poll_links(&mut self.host, &mut self.links, cx, now);
        if told || moved {
            return Poll::Ready(());
        }
        poll_due(&self.host.embed, &mut self.timer, self.start, cx, now)
    }
}

/// Waits until the producer has something to do.
fn poll_due(
    embed: &Embed,
    timer: &mut Sleep,
    start: Instant,
    cx: &mut Context<'_>,
    now: u64,
) -> Poll<()>
    ensures due { SleepsUntilDue start now embed.now timer.new }
    ensures registered { OnPending result (Covers cx.new (λ s. s ≡ sleep_source timer.new)) }
    ensures kept { Keeps cx.old cx.new }
{
    timer.reset(wake_at(start, embed.next_due(now), now));
    timer.poll_elapsed(cx).map(|_| ())
}

/// When to wake, where something is due at this moment or at none.
fn wake_at(start: Instant, due: Option<u64>, now: u64) -> Instant
    ensures { IfSome due (λ at. instant_nanos result ≤ instant_nanos start + at * 1_000_000) }
{
    let longest = now.saturating_add(LONGEST_SLEEP);
    let until = due.unwrap_or(longest).min(longest);
    match start.checked_add(Duration::from_millis(until)) {
        Some(until) => until,
        None => start,
    }
}
