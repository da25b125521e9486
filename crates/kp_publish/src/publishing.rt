//! The future that publishes.

ghost use Rattle.std.specs.Prelude.{◌≡◌, [], IfOk, List, OnOk, false, true, ℕ};
ghost use Rattle.futures.specs.Poll.{OnPending};
ghost use Rattle.futures.specs.Task.{IsArmed, Keeps};
ghost use Rattle.kp_publish.specs.Input.{rest_of};
ghost use Rattle.kp_publish.specs.Publishing.{Draws, GoesOn, IsPublished, Turns};
ghost use Rattle.kp_publish.specs.declared.publishing.Next.TheVariants.{Gone};
ghost use Rattle.kp_send.specs.Sender.{is_ready};
ghost use Rattle.kp_send.specs.Streaming.{Goes};

use crate::fault::PublishFault;
use crate::files::Files;
use crate::input::{Input, len_of};
use crate::seen::{has_enough, is_spent, put_why, stays};
use crate::watch::Watch;
use futures::Future;
use futures::task::{Context, Poll};
use kp_batch::Timestamp;
use kp_dial::Pair;
use kp_drive::{HostNames, Named, SendFault, SocketDrive};
use kp_send::{Sender, Tellings, Texts};
use kp_stamps::wall_stamp;
use std::alloc::{AllocError, Global};
use std::io::Write;
use std::net::Net;
use std::time::Clock;

/// Whether a line is gone, or stays the next one.
#[derive(Clone, Copy, Debug, PartialEq, Eq)]
enum Next {
    Gone,
    Waits,
}

/// When lines are sent, by both clocks.
#[derive(Clone, Copy, Debug)]
struct Now {
    stamp: Timestamp,
    /// By the producer's clock.
    moment: u64,
}

/// Publishes what a thread reads, and is ready once each line was told of.
#[derive(Drop)]
pub(crate) struct Publishing<'r, R, F, O, E> {
    pub(crate) rt: &'r R,
    pub(crate) alloc: Global,
    pub(crate) drive: SocketDrive<'r, R, HostNames, Named>,
    /// What looks up names, and this.
    pub(crate) lookups: &'r Pair,
    pub(crate) sender: Sender,
    pub(crate) input: Input,
    /// How many lines wait for their reports at most.
    pub(crate) limit: usize,
    /// `batch.size`.
    pub(crate) batch_size: u64,
    pub(crate) files: Files<F>,
    pub(crate) watch: Watch,
    /// Whether it was said why nothing will be sent.
    pub(crate) has_said_why: bool,
    pub(crate) out: &'r mut O,
    pub(crate) err: &'r mut E,
}

impl<'r, R: Net + Clock, F: Write, O: Write, E: Write> Publishing<'r, R, F, O, E> {
    /// Whether nothing can be sent any more, and each line that was sent is told of.
    fn is_over(&self) -> bool {
        is_spent(self.drive.producer()) && self.sender.waiting() == 0
    }

    /// Where no report will come by itself, since all that was accepted lingers, it goes out now.
    fn press(&mut self)
        ensures sender { self.new.sender ≡ self.old.sender }
        ensures input { self.new.input ≡ self.old.input }
        ensures files { self.new.files ≡ self.old.files }
    {
        if self.drive.producer().statistics().requests_in_flight == 0 {
            self.drive.flush();
        }
    }

    /// Sends the line that is next, where one is.
    fn send_next(&mut self, now: Now, texts: &mut Texts) -> Result<Next, AllocError>
        ensures goes { OnOk result (Goes self.old.sender texts.old [] self.new.sender texts.new) }
        ensures input { self.new.input ≡ self.old.input }
        ensures files { self.new.files ≡ self.old.files }
    {
        if self.sender.waiting() >= self.limit {
            return Ok(Next::Waits);
        }
        self.sender.reserve()?;
        let Some(record) = self.sender.next_record(now.stamp)? else {
            return Ok(Next::Gone);
        };
        let mut refused = None;
        let target = self.sender.target();
        match self
            .drive
            .send_or_refuse(target, record, now.moment, &mut refused)
        {
            Ok(ticket) => {
                self.sender.accepted(ticket, texts)?;
                self.watch.sent(ticket)?;
            }
            Err(fault) if stays(self.drive.producer(), fault) => return Ok(Next::Waits),
            Err(fault) => self.sender.refused(fault, texts)?,
        }
        Ok(Next::Gone)
    }

    /// Sends what is left of the piece, until a line stays the next one.
    fn send_piece(&mut self, now: Now, texts: &mut Texts) -> Result<Next, PublishFault>
        ensures draws { OnOk result (Draws [] self.old.input self.old.sender texts.old self.new.input self.new.sender texts.new) }
        ensures all { IfOk result (λ next. next ≡ Gone → is_ready self.new.sender ≡ true → rest_of self.new.input ≡ []) }
        ensures files { self.new.files ≡ self.old.files }
    {
        for _ in 0..u64::MAX {
            if self.send_next(now, texts)? == Next::Waits {
                return Ok(Next::Waits);
            }
            if self.has_sent_piece() {
                return Ok(Next::Gone);
            }
            self.input.give_line(&mut self.sender)?;
        }
        Ok(Next::Waits)
    }

    /// Whether nothing of the piece is to be sent any more: the sender was given all of it, or takes no more.
    fn has_sent_piece(&self) -> bool
        ensures sent { result ≡ true → is_ready self.now.sender ≡ true → rest_of self.now.input ≡ [] }
        ensures takes_more { result ≡ false → is_ready self.now.sender ≡ true }
    {
        self.input.is_empty() || !self.sender.is_ready()
    }

    /// Sends what has come, and takes in the next piece unless that is early and enough is queued: whether there may be more.
    fn poll_input(
        &mut self,
        cx: &mut Context<'_>,
        is_early: bool,
        texts: &mut Texts,
    ) -> Result<bool, PublishFault>
        ensures draws { OnOk result ((came : List ℕ) × Draws came self.old.input self.old.sender texts.old self.new.input self.new.sender texts.new) }
        ensures files { self.new.files ≡ self.old.files }
        ensures kept { Keeps cx.old cx.new }
    {
        let now = Now {
            stamp: wall_stamp(self.rt),
            moment: self.drive.look(),
        };
        match self.send_piece(now, texts)? {
            Next::Gone => {}
            Next::Waits => {
                self.press();
                return Ok(false);
            }
        }
        if !self.sender.is_ready() {
            self.drive.close();
            return Ok(false);
        }
        if is_early && has_enough(self.drive.producer(), self.batch_size) {
            return Ok(false);
        }
        match self.input.poll_piece(cx) {
            Poll::Pending => Ok(false),
            Poll::Ready(piece) => {
                self.watch.came(len_of(&piece));
                self.input.take_in(&mut self.sender, piece)?;
                Ok(true)
            }
        }
    }

    /// Hears the reports that there are: whether there were some.
    fn hear(&mut self, texts: &mut Texts) -> Result<bool, AllocError>
        ensures goes { OnOk result (GoesOn self.old.sender texts.old self.new.sender texts.new) }
        ensures files { self.new.files ≡ self.old.files }
    {
        let mut heard = false;
        for _ in 0..u64::MAX {
            let Some(report) = self.drive.next_report() else {
                return Ok(heard);
            };
            self.sender.told(&report, texts)?;
            self.watch.told(&report);
            heard = true;
        }
        Ok(heard)
    }

    /// A turn: pending where nothing has moved, until something does. Nothing is made of an `err` that fails.
    fn poll_turn(&mut self, cx: &mut Context<'_>) -> Result<Poll<()>, PublishFault>
        ensures turns { OnOk result ((taken : List ℕ) × Turns F.contents self.old.sender self.old.files taken self.new.sender self.new.files) }
        ensures armed { IfOk result (λ turn. OnPending turn (IsArmed cx.new)) }
        ensures kept { Keeps cx.old cx.new }
    {
        let mut texts = Texts::new(self.alloc, self.files.offsets.is_some());
        self.watch.look(self.rt);
        let is_early = self.watch.is_early(cx);
        let more = self.poll_input(cx, is_early, &mut texts)?;
        let turn = self.drive.poll_turn(cx);
        let heard = self.hear(&mut texts)?;
        self.files.write(&texts)?;
        self.say(&texts.said)?;
        let told = self.poll_watch(cx)?;
        if more || heard || told {
            return Ok(Poll::Ready(()));
        }
        Ok(turn)
    }

    /// Says this, and why nothing will be sent, once that is known.
    fn say(&mut self, said: &[u8]) -> Result<(), AllocError>
        ensures sender { self.new.sender ≡ self.old.sender }
        ensures files { self.new.files ≡ self.old.files }
    {
        let mut text = Vec::new(self.alloc);
        if !self.has_said_why {
            self.has_said_why = put_why(self.drive.producer(), &mut text)?;
        }
        text.extend_from_slice(said)?;
        if !text.is_empty() {
            self.watch.clear(self.err);
            let _ = self.err.write_all(&text);
        }
        Ok(())
    }

    /// Tells how far the stream has come, where that is due: whether it was.
    fn poll_watch(&mut self, cx: &mut Context<'_>) -> Result<bool, AllocError>
        ensures sender { self.new.sender ≡ self.old.sender }
        ensures files { self.new.files ≡ self.old.files }
        ensures kept { Keeps cx.old cx.new }
    {
        let tellings = self.sender.tellings();
        let waiting = self.sender.waiting();
        let producer = self.drive.producer();
        self.watch
            .poll_due(cx, producer, tellings, waiting, self.out, self.err)
    }

    /// Gives up what is on its way, and tells of it.
    fn leave(&mut self) -> Result<(), PublishFault> {
        let mut texts = Texts::new(self.alloc, self.files.offsets.is_some());
        self.drive.end();
        self.hear(&mut texts)?;
        leave_next(&mut self.sender, wall_stamp(self.rt), &mut texts)?;
        self.files.write(&texts)?;
        self.say(&texts.said)?;
        Ok(self.say_end()?)
    }

    /// Why the stream ends before its input: its time is over, or nothing can be sent any more, and each line that was taken is told
    /// of.
    fn give_up(&mut self) -> PublishFault {
        match self.leave() {
            Ok(()) => {
                let tellings = self.sender.tellings();
                PublishFault::GivenUp(tellings.delivered.saturating_add(tellings.undelivered))
            }
            Err(fault) => fault,
        }
    }

    /// Says what there is to say at the end.
    fn say_end(&mut self) -> Result<(), AllocError>
        ensures { self.new.sender ≡ self.old.sender }
    {
        let tellings = self.sender.tellings();
        let mut said = Vec::new(self.alloc);
        tellings.end(&mut said)?;
        self.watch.clear(self.err);
        let _ = self.err.write_all(&said);
        let waiting = self.sender.waiting();
        self.watch
            .tell_statistics(self.drive.producer(), tellings, waiting, self.out)
    }

    /// Each line was told of: how many ended in which way.
    fn end(&mut self) -> Result<Tellings, PublishFault>
        ensures { IfOk result (λ tellings. self.old.sender.tellings ≡ tellings) }
    {
        self.say_end()?;
        if self.input.has_failed {
            return Err(PublishFault::Input);
        }
        Ok(self.sender.tellings())
    }
}

/// The line that is next is not sent any more, where one is.
fn leave_next(sender: &mut Sender, stamp: Timestamp, texts: &mut Texts) -> Result<(), AllocError> {
    if sender.next_record(stamp)?.is_some() {
        sender.refused(SendFault::Closed, texts)?;
    }
    Ok(())
}

impl<R: Net + Clock, F: Write + Drop, O: Write, E: Write> Future for Publishing<'_, R, F, O, E> {
    type Output = Result<Tellings, PublishFault>;

    ghost gives = { λ f r. IfOk r (IsPublished F.contents f.sender f.files) };

    fn poll(&mut self, cx: &mut Context<'_>) -> Poll<Result<Tellings, PublishFault>> {
        if self.watch.is_over(cx) || self.is_over() {
            return Poll::Ready(Err(self.give_up()));
        }
        // What looks up names ends before this only where memory is refused to it.
        if self.lookups.is_parted() {
            return Poll::Ready(Err(PublishFault::OutOfMemory));
        }
        let turn = match self.poll_turn(cx) {
            Ok(turn) => turn,
            Err(fault) => return Poll::Ready(Err(fault)),
        };
        if self.sender.is_done() {
            return Poll::Ready(self.end());
        }
        match turn {
            Poll::Pending => Poll::Pending,
            Poll::Ready(()) => cx.yield_now(),
        }
    }
}
