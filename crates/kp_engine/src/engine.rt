//! The engine.

ghost use Rattle.std.specs.Prelude.{◌≡◌, true, IfOk, IfErr, option_map, option_to_list};
ghost use Rattle.std.specs.List.{flat_map};
ghost use Rattle.std.specs.Option.{option_copied};
ghost use Rattle.futures.specs.Poll.{OnPending};
ghost use Rattle.futures.specs.Task.{Covers, Keeps};
ghost use Rattle.kp_rules.specs.Calls.{End, Step};
ghost use Rattle.kp_engine.specs.Engine.{fresh_wire, stop_in, IfOpen, IsNew, NeedsStream, is_sound};
ghost use Rattle.kp_engine.specs.Exchange.{OnlyCore};
ghost use Rattle.kp_engine.specs.Opening.{MayTurn};

use crate::clock::Clock;
use crate::exchange::Exchange;
use crate::moves::Moves;
use crate::parts::Parts;
use crate::stop::{Cause, Stop};
use crate::turn::away::turn_away;
use crate::turn::turn;
use crate::turned::Turned;
use futures::Future;
use futures::task::{Context, Poll};
use kp_connection::{Stream, Wire};
use kp_core::Core;
use kp_lanes::Intake;
use std::alloc::Global;

/// A core, the lanes that it serves and a connection. Each poll makes one turn.
#[derive(Drop)]
pub struct Engine<S, C> {
    alloc: Global,
    exchange: Exchange,
    clock: C,
    line: Line<S>,
    ghost sound: { is_sound line ≡ true },
}

/// The connection.
#[derive(Drop)]
pub(crate) enum Line<S> {
    Open(Wire<S>),
    /// It was given up, for this.
    Stopped(Stop),
}

impl<S: Stream, C: Clock> Engine<S, C> {
    ghost use Rattle.kp_engine.specs.Clocked.{PollsAway, PollsOnce};

    /// An engine over a fresh core, fresh lanes and a stream. With `keeps_turns` it keeps the calls of its last turn.
    /// Where memory is refused, the values come back.
    pub fn new(
        alloc: Global,
        core: Core,
        intake: Intake,
        stream: S,
        clock: C,
        keeps_turns: bool,
    ) -> Result<Engine<S, C>, (Core, Intake, S, C)>
        requires { MayTurn core intake }
        ensures made { IfOk result (λ e. IsNew core intake keeps_turns e.exchange) }
        ensures line { IfOk result (λ e. e.line ≡ Line.Open (fresh_wire stream)) }
        ensures clock { IfOk result (λ e. e.clock ≡ clock) }
        ensures back { IfErr result (λ given. given ≡ (core, intake, stream, clock)) }
    {
        match Exchange::new(alloc, core, intake, keeps_turns) {
            Ok(exchange) => Ok(Engine {
                alloc,
                exchange,
                clock,
                line: Line::Open(Wire::new(alloc, stream)),
            }),
            Err((core, intake)) => Err((core, intake, stream, clock)),
        }
    }

    /// The same with no connection yet: it needs its first stream.
    pub fn without_stream(
        alloc: Global,
        core: Core,
        intake: Intake,
        clock: C,
        keeps_turns: bool,
    ) -> Result<Engine<S, C>, (Core, Intake, C)>
        requires { MayTurn core intake }
        ensures made { IfOk result (λ e. IsNew core intake keeps_turns e.exchange) }
        ensures line { IfOk result (λ e. e.line ≡ Line.Stopped (Stop.NeedStream Cause.Io)) }
        ensures clock { IfOk result (λ e. e.clock ≡ clock) }
        ensures back { IfErr result (λ given. given ≡ (core, intake, clock)) }
    {
        match Exchange::new(alloc, core, intake, keeps_turns) {
            Ok(exchange) => Ok(Engine {
                alloc,
                exchange,
                clock,
                line: Line::Stopped(Stop::NeedStream(Cause::Io)),
            }),
            Err((core, intake)) => Err((core, intake, clock)),
        }
    }

    /// One turn, unless the connection was given up: then the same is answered again. Pending where the connection goes
    /// on.
    pub fn poll_turn(&mut self, cx: &mut Context<'_>) -> Poll<Stop>
        ensures polls { PollsOnce S.answers C.moments self.old result self.new }
        ensures registered { OnPending result (IfOpen self.new.line (λ wire. Covers cx.new (S.reader wire.stream))) }
        ensures kept { Keeps cx.old cx.new }
    {
        self.exchange.clear();
        let wire = match &mut self.line {
            Line::Stopped(stop) => return Poll::Ready(*stop),
            Line::Open(wire) => wire,
        };
        let now = self.clock.now();
        let polled = turn(&mut self.exchange, wire, cx, 0, now);
        if let Poll::Ready(stop) = &polled {
            self.line = Line::Stopped(*stop);
        }
        polled
    }

    /// One turn with no connection, where the last poll gave NeedStream: items, and the close; the tick; reports. Done
    /// and OutOfMemory end the engine; else it needs a stream still, for the same cause.
    pub fn poll_away(&mut self) -> Stop
        requires { NeedsStream self.old.line }
        ensures { PollsAway C.moments self.old result self.new }
    {
        let cause = self.cause();
        self.exchange.clear();
        let now = self.clock.now();
        let stop = turn_away(&mut self.exchange, cause, 0, now);
        self.line = Line::Stopped(stop);
        stop
    }

    /// What the connection was given up for.
    fn cause(&self) -> Cause
        requires { NeedsStream self.now.line }
        ensures { self.now.line ≡ Line.Stopped (Stop.NeedStream result) }
    {
        match &self.line {
            Line::Stopped(Stop::NeedStream(cause)) => *cause,
            _ => unreachable!(),
        }
    }

    /// Goes on over another stream, where the last poll gave NeedStream.
    pub fn give_stream(&mut self, stream: S)
        requires { NeedsStream self.old.line }
        ensures line { self.new.line ≡ Line.Open (fresh_wire stream) }
        ensures same { (self.new.exchange ≡ self.old.exchange) × (self.new.clock ≡ self.old.clock) }
    {
        self.line = Line::Open(Wire::new(self.alloc, stream));
    }

    /// The core.
    pub fn core(&self) -> &Core
        ensures { result.now ≡ self.now.exchange.core }
    {
        &self.exchange.core
    }

    /// What the last poll has moved.
    pub fn moves(&self) -> &Moves
        ensures { result.now ≡ self.now.exchange.notes.moves }
    {
        &self.exchange.notes.moves
    }

    /// The calls of the last turn, where they are kept.
    pub fn last_turn(&self) -> Option<&[Turned]>
        ensures { option_copied result ≡ option_map (λ v. v.items) self.now.exchange.notes.turn }
    {
        self.exchange.last_turn()
    }

    /// What the last poll gave, where it was ready and no stream was given since.
    pub fn stopped(&self) -> Option<Stop>
        ensures { result ≡ stop_in self.now.line }
    {
        match &self.line {
            Line::Stopped(stop) => Some(*stop),
            Line::Open(_) => None,
        }
    }

    /// Gives up all that is left: how many items were told of.
    pub fn end(&mut self) -> usize
        ensures step { Step self.old.exchange.core (End result) self.new.exchange.core }
        ensures same { OnlyCore self.old.exchange self.new.exchange × (self.new.exchange.notes ≡ self.old.exchange.notes) }
        ensures line { (self.new.line ≡ self.old.line) × (self.new.clock ≡ self.old.clock) }
    {
        self.exchange.end()
    }

    /// The core, the lanes' end and what is held between them.
    pub fn into_parts(self) -> Parts
        ensures core { (result.core ≡ self.exchange.core) × (result.intake ≡ self.exchange.intake) }
        ensures items { result.held.items.items ≡ flat_map option_to_list self.exchange.items.items }
        ensures reports { result.held.reports.items ≡ flat_map option_to_list self.exchange.reports.items }
    {
        let Engine { exchange, .. } = self;
        exchange.into_parts()
    }
}

impl<S: Stream, C: Clock> Future for Engine<S, C> {
    type Output = Stop;

    fn poll(&mut self, cx: &mut Context<'_>) -> Poll<Stop> {
        self.poll_turn(cx)
    }
}
