//! A producer, from its opening to its settling.

ghost use Rattle.std.specs.Prelude.{◌≡◌, ◌∷◌, [], All, IfOk};
ghost use Rattle.kp_lanes.specs.Intake.{lanes_of};
ghost use Rattle.kp_lanes.specs.Sender.{IsSenderOf, sender_id, sender_number};
ghost use Rattle.kp_lanes.specs.Settling.{IsOf};
ghost use Rattle.kp_client.specs.Ends.{HasEnded};
ghost use Rattle.kp_client.specs.Left.{parts_in, IsOnly, IsSettled};
ghost use Rattle.kp_client.specs.Producer.{lane_of};
ghost use Rattle.kp_client.specs.Service.{core_of, intake_of};
ghost use Rattle.kp_client.specs.declared.left.Left.{Left as AllLeft};
ghost use Rattle.kp_client.specs.Brokers.{IsAt};
ghost use Rattle.kp_client.specs.Opening.{IsOpen};
ghost use Rattle.kp_client_runs.specs.Held.{AreNamed, FinishEach, WasHeld, WasServed};

use crate::playing::play_sender;
use crate::script::{Bootstrap, Over, Script};
use crate::stage::Stage;
use anyhow::{Context, Result};
use kp_client::{
    Ended, Finished, Left, OpenFault, Opened, Producer, Service, ServiceFault, Settings, open,
    open_cluster, open_single,
};
use std::alloc::{AllocError, AllocGlobal, Global};
use std::net::{Net, SocketAddr, TcpListener, TcpStream};
use std::random::RandomSource;
use std::sync::Wait;
use std::thread::{self, Threads};
use std::time::{Clock, Duration};

/// Plays each sender in a thread of its own, and closes the producer.
fn play_all<R>(
    rt: &R,
    producers: Vec<Producer>,
    stage: &Stage,
    steps: &str,
) -> Result<Vec<Finished>, AllocError>
where
    R: Wait + Threads + Clock + AllocGlobal + Sync,
    ensures { IfOk result (λ finished. FinishEach producers.items finished.items) }
{
    let finished = thread::map_vec(
        rt,
        producers,
        &|producer| play_sender(rt, producer, stage, steps),
    );
    stage.closer.lock(rt).close();
    finished
}

/// Runs the service so many milliseconds later.
fn serve<R>(rt: &R, service: Service, late: u64) -> Result<Ended, ServiceFault>
where
    R: Wait + Threads + Clock + RandomSource + AllocGlobal + Sync,
    R: Net<Listener = TcpListener, Stream = TcpStream>,
    ensures lanes { IfOk result (λ ended. lanes_of (parts_in ended).intake ≡ lanes_of (intake_of service)) }
    ensures ended { IfOk result (HasEnded (core_of service) (intake_of service)) }
{
    thread::sleep(rt, Duration::from_millis(late));
    service.run(rt)
}

/// How many records came back.
fn records_in(left: &Left) -> usize {
    let mut records = left.held.items.len();
    for items in &left.items {
        records = records.saturating_add(items.len());
    }
    records
}

/// Takes back what is left: how many records.
fn settle(alloc: Global, ended: Ended, finished: Vec<Finished>) -> Result<usize, AllocError>
    requires { All (IsOf (lanes_of (parts_in ended).intake)) finished.items }
    ensures { IfOk result (λ _. (left : AllLeft) × IsSettled (parts_in ended) finished.items left) }
{
    match ended.settle(alloc, finished) {
        Ok(left) => Ok(records_in(&left)),
        Err(_) => Err(AllocError),
    }
}

/// The same of a producer with one sender.
fn settle_only(alloc: Global, ended: Ended, finished: Finished) -> Result<usize, AllocError>
    requires { IsOnly (parts_in ended) finished }
    ensures { IfOk result (λ _. (left : AllLeft) × IsSettled (parts_in ended) (finished ∷ []) left) }
{
    match ended.settle_single(alloc, finished) {
        Ok(left) => Ok(records_in(&left)),
        Err(_) => Err(AllocError),
    }
}

/// Opens a producer over this.
fn open_over<R>(rt: &R, over: Over, settings: Settings) -> Result<Opened, OpenFault>
where
    R: Wait + Threads + Clock + RandomSource + AllocGlobal + Sync + Net,
    ensures { IfOk result (IsOpen (AreNamed over settings) settings) }
{
    match over {
        Over::One(address) => open(rt, address, settings),
        Over::Cluster(Bootstrap { addresses }) => open_cluster(rt, addresses, settings),
    }
}

/// Plays the senders of a producer that was opened beside its service, and takes back what is left.
fn hold_opened<R>(
    rt: &R,
    stage: &Stage,
    producers: Vec<Producer>,
    service: Service,
    late: u64,
    steps: &str,
) -> Result<()>
where
    R: Wait + Threads + Clock + RandomSource + AllocGlobal + Sync + Print,
    R: Net<Listener = TcpListener, Stream = TcpStream>,
    requires lanes { All (λ p. IsSenderOf (lanes_of (intake_of service)) (lane_of p)) producers.items }
    ensures { IfOk result (λ _. WasServed service) }
{
    let (finished, ended) = thread::join(
        rt,
        move || play_all(rt, producers, stage, steps),
        move || serve(rt, service, late),
    );
    let ended = ended.context("the service")?;
    let (ending, made) = (ended.ending(), ended.new_connections());
    let records = settle(rt.alloc(), ended, finished?)?;
    stage.print(rt, ending, made, records)?;
    Ok(())
}

/// Opens a producer, plays its senders, and takes back what is left.
pub(crate) fn hold<R>(rt: &R, script: Script<'_>) -> Result<()>
where
    R: Wait + Threads + Clock + RandomSource + AllocGlobal + Sync + Print,
    R: Net<Listener = TcpListener, Stream = TcpStream>,
    ensures { IfOk result (λ _. WasHeld (AreNamed script.entry.over script.entry.settings) script.entry.settings) }
{
    let Script {
        over,
        settings,
        late,
        steps,
    } = script;
    let Opened {
        producers,
        closer,
        service,
    } = open_over(rt, over, settings).context("not opened")?;
    let stage = Stage::new(rt, closer, producers.first().context("no sender")?)?;
    hold_opened(rt, &stage, producers, service, late, steps)
}

/// The same of one sender, the only one of its producer.
fn hold_alone<R>(
    rt: &R,
    stage: &Stage,
    producer: Producer,
    service: Service,
    late: u64,
    steps: &str,
) -> Result<()>
where
    R: Wait + Threads + Clock + RandomSource + AllocGlobal + Sync + Print,
    R: Net<Listener = TcpListener, Stream = TcpStream>,
    requires number { sender_number (lane_of producer) ≡ 0 }
    requires lane { lanes_of (intake_of service) ≡ sender_id (lane_of producer) ∷ [] }
    ensures { IfOk result (λ _. WasServed service) }
{
    let (finished, ended) = thread::join(
        rt,
        move || {
            let finished = play_sender(rt, producer, stage, steps);
            stage.closer.lock(rt).close();
            finished
        },
        move || serve(rt, service, late),
    );
    let ended = ended.context("the service")?;
    let (ending, made) = (ended.ending(), ended.new_connections());
    let records = settle_only(rt.alloc(), ended, finished)?;
    stage.print(rt, ending, made, records)?;
    Ok(())
}

/// Opens a producer with one sender, whatever the settings say of senders, over the broker at this address, plays it, and takes back
/// what is left.
pub(crate) fn hold_single<R>(
    rt: &R,
    address: SocketAddr,
    settings: Settings,
    late: u64,
    steps: &str,
) -> Result<()>
where
    R: Wait + Threads + Clock + RandomSource + AllocGlobal + Sync + Print,
    R: Net<Listener = TcpListener, Stream = TcpStream>,
    ensures { IfOk result (λ _. WasHeld (IsAt address settings) (record settings { senders = 1 })) }
{
    let (producer, closer, service) = open_single(rt, address, settings).context("not opened")?;
    let stage = Stage::new(rt, closer, &producer)?;
    hold_alone(rt, &stage, producer, service, late, steps)
}
