//! A producer, with its senders and its service each in a thread of its own.

ghost use Rattle.std.specs.Prelude.{◌≡◌, ◌++◌, ◌∷◌, [], map, All, IfOk, OnOk};
ghost use Rattle.std.specs.List.Sorted.{IsSorted};
ghost use Rattle.kp_lanes.specs.Intake.{lanes_of};
ghost use Rattle.kp_client.specs.Ends.{HasEnded};
ghost use Rattle.kp_client.specs.Left.{parts_in};
ghost use Rattle.kp_client.specs.Service.{core_of, intake_of};
ghost use Rattle.kp_dealing.specs.Dealing.{dealt};
ghost use Rattle.kp_dealing.specs.Sizing.{largest};
ghost use Rattle.kp_run.specs.Gathered.{by_place};
ghost use Rattle.kp_run.specs.Jobs.{deal_of, producer_of, HasRun, HasTried, HaveRun, IsIdle, SameJobs};
ghost use Rattle.kp_run.specs.Portions.{Comes};
ghost use Rattle.kp_run.specs.Theirs.{AreOfService};

use crate::fault::RunFault;
use crate::gathering::{Produced, gather};
use crate::sender_thread::{Job, Task};
use crate::stamps::Stamps;
use kp_client::{Closer, Ended, Ending, Opened, Producer, Service, Settings, open};
use std::alloc::{AllocError, AllocFailed, AllocGlobal, Global};
use std::net::{Net, SocketAddr, TcpListener, TcpStream};
use std::random::RandomSource;
use std::snapshot::Snapshot;
use std::sync::Wait;
use std::thread::{self, Promise, Threads};
use std::time::{Clock, Instant};

/// A job for each sender.
fn jobs_of(alloc: Global, producers: Vec<Producer>, stamps: Stamps) -> Result<Vec<Job>, AllocError>
    ensures producers { IfOk result (λ jobs. map producer_of jobs.items ≡ producers.items) }
    ensures idle { IfOk result (λ jobs. All IsIdle jobs.items) }
{
    let mut jobs = Vec::new(alloc);
    for producer in producers {
        push(&mut jobs, Job::new(alloc, producer, stamps))?;
    }
    Ok(jobs)
}

/// Adds to a list.
fn push<T: Drop>(all: &mut Vec<T>, x: T) -> Result<(), AllocError>
    ensures { OnOk result (all.new.items ≡ all.old.items ++ x ∷ []) }
{
    match all.push(x) {
        Ok(()) => Ok(()),
        Err(AllocFailed { value: _ }) => Err(AllocError),
    }
}

/// Runs the senders to their ends, each in a thread of its own.
fn run_senders<R>(rt: &R, jobs: &mut [Job], task: Task<'_>)
where
    R: Wait + Threads + Clock + AllocGlobal + Sync,
    requires { All (HasTried (deal_of task) 0) jobs.old }
    ensures same { SameJobs jobs.old jobs.new }
    ensures ran { All (HasRun (deal_of task.entry)) jobs.new }
{
    let threads = jobs.len().max(1);
    thread::for_each_mut(rt, jobs, threads, &|_, job| job.run(rt, task));
}

/// Runs the senders over these lines, and closes the producer. The senders as they are then.
fn send_all<R>(
    rt: &R,
    jobs: Vec<Job>,
    lines: &[&[u8]],
    senders: u32,
    keyed: bool,
    flush_every: Option<u64>,
    closer: Closer,
) -> Vec<Job>
where
    R: Wait + Threads + Clock + AllocGlobal + Sync,
    requires { All (HasTried (dealt lines.now senders keyed) 0) jobs.items }
    ensures { HaveRun (dealt lines.now senders keyed) jobs.items result.items }
{
    let mut jobs = jobs;
    let mut closer = closer;
    let task = Task {
        lines,
        senders,
        keyed,
        flush_every,
    };
    run_senders(rt, jobs.as_mut_slice(), task);
    closer.close();
    jobs
}

/// Runs the service.
fn serve<R>(rt: &R, service: Service) -> Result<Ended, RunFault>
where
    R: Wait + Threads + Clock + RandomSource + AllocGlobal + Sync,
    R: Net<Listener = TcpListener, Stream = TcpStream>,
    ensures lanes { IfOk result (λ ended. lanes_of (parts_in ended).intake ≡ lanes_of (intake_of service)) }
    ensures ended { IfOk result (HasEnded (core_of service) (intake_of service)) }
{
    let ended = service.run(rt)?;
    if ended.ending() == Ending::OutOfMemory {
        return Err(RunFault::OutOfMemory);
    }
    Ok(ended)
}

/// What is known of the senders that their thread gives back: each has sent its lines.
#[derive(Drop)]
struct Sending<'a> {
    lines: &'a [&'a [u8]],
    senders: u32,
    keyed: bool,
    before: Snapshot<Vec<Job>>,
}

impl<'a> Promise<Vec<Job>> for Sending<'a> {
    ghost kept_by = { λ promise after. HaveRun (dealt promise.lines.now promise.senders promise.keyed) promise.before.value.items after.items };
}

/// Runs the senders and the service to their ends: the senders in a thread of their own, since the service stays where its
/// event loop is. Where no thread can be made, nothing is sent.
fn run_all<R>(
    rt: &R,
    jobs: Vec<Job>,
    task: Task<'_>,
    closer: Closer,
    service: Service,
) -> Result<(Vec<Job>, Ended), RunFault>
where
    R: Wait + Threads + Clock + RandomSource + AllocGlobal + Sync,
    R: Net<Listener = TcpListener, Stream = TcpStream>,
    requires { All (HasTried (deal_of task) 0) jobs.items }
    ensures ran { IfOk result (λ out. HaveRun (deal_of task.entry) jobs.items out.0.items) }
    ensures lanes { IfOk result (λ out. lanes_of (parts_in out.1).intake ≡ lanes_of (intake_of service)) }
    ensures ended { IfOk result (λ out. HasEnded (core_of service) (intake_of service) out.1) }
{
    let Task {
        lines,
        senders,
        keyed,
        flush_every,
    } = task;
    thread::scope(
        thread::scope_env(),
        rt,
        move |scope| -> Result<(Vec<Job>, Ended), RunFault>
            requires { All (HasTried (dealt lines.now senders keyed) 0) jobs.items }
            ensures ran { IfOk result (λ out. HaveRun (dealt lines.entry.now senders keyed) jobs.items out.0.items) }
            ensures lanes { IfOk result (λ out. lanes_of (parts_in out.1).intake ≡ lanes_of (intake_of service)) }
            ensures ended { IfOk result (λ out. HasEnded (core_of service) (intake_of service) out.1) }
        {
            let promise = Sending {
                lines,
                senders,
                keyed,
                before: Snapshot::of(&jobs),
            };
            let sending = scope.spawn_with(
                promise,
                move ||
                    requires { All (HasTried (dealt lines.now senders keyed) 0) jobs.items }
                { send_all(rt, jobs, lines, senders, keyed, flush_every, closer) },
            );
            let Ok(sending) = sending else {
                return Err(RunFault::OutOfMemory);
            };
            let ended = serve(rt, service);
            Ok((sending.join(rt), ended?))
        },
    )
}

/// Opens a producer over the broker at this address, and sends the lines. Timestamps are by the clock on the wall, or
/// count from now.
pub(crate) fn produce<R>(
    rt: &R,
    settings: Settings,
    wall: bool,
    keyed: bool,
    flush_every: Option<u64>,
    address: SocketAddr,
    lines: &[&[u8]],
) -> Result<Produced, RunFault>
where
    R: Wait + Threads + Clock + RandomSource + AllocGlobal + Sync,
    R: Net<Listener = TcpListener, Stream = TcpStream>,
    ensures lines { IfOk result (λ produced. Comes (dealt lines.now settings.senders keyed) (largest settings.config) produced.accepted produced.reports.items) }
    ensures in_order { IfOk result (λ produced. IsSorted by_place produced.reports.items) }

    // The reports are those of a service, of which the laws speak.
    ensures of_service { IfOk result (λ produced. AreOfService address settings produced.reports.items) }
{
    let alloc = rt.alloc();
    let stamps = Stamps::new(Instant::now(rt)?, wall);
    let senders = settings.senders;
    let opened = open(rt, address, settings)?;
    let Opened {
        producers,
        closer,
        service,
    } = opened;
    let jobs = jobs_of(alloc, producers, stamps)?;
    let task = Task {
        lines,
        senders,
        keyed,
        flush_every,
    };
    let (ran, ended) = run_all(rt, jobs, task, closer, service)?;
    gather(alloc, ran, ended, senders)
}
