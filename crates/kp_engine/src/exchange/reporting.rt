//! Reports are fetched from the core and handed over to their senders.

ghost use Rattle.std.specs.Prelude.{◌≡◌, ◌≢◌, ◌<◌, ℕ, None, IfOk, IfSome, OnErr, []};
ghost use Rattle.kp_engine.specs.Agreement.{waiting_of};
ghost use Rattle.kp_engine.specs.Exchange.{OnlyCore, Runs, mail_of, senders_of};
ghost use Rattle.kp_engine.specs.Steps.{FetchesOne, HandsOne, OnlyMail, OnlyMails, OnlyReports, SendsEach, SendsFrom};

use crate::exchange::Exchange;
use crate::exchange::taking::both;
use crate::turned::Turned;
use kp_core::Report;
use std::alloc::AllocError;

impl Exchange {
    /// Fetches the sender's oldest report.
    fn fetch(&mut self, sender: u32) -> Result<Option<Report>, AllocError>
        requires { sender < senders_of self.old }
        ensures ok { IfOk result (λ found. FetchesOne sender self.old found self.new) }
        ensures err { OnErr result (Runs self.old [] self.new) }
        ensures same { OnlyCore self.old self.new }
        ensures others { (k : ℕ) → k ≢ sender → waiting_of self.new.core k ≡ waiting_of self.old.core k }
    {
        let Ok(()) = self.notes.reserve() else {
            return Err(AllocError);
        };
        match self.core.next_report(sender) {
            None => Ok(None),
            Some(report) => {
                self.notes.add(Turned::Told(report));
                Ok(Some(report))
            }
        }
    }

    /// Hands the report over to its sender, or holds it back where the sender's ring is full. Whether it was handed
    /// over.
    fn hand(&mut self, sender: u32, report: Report) -> bool
        requires its { report.sender ≡ sender }
        requires place { sender < senders_of self.old }
        ensures hands { HandsOne sender report self.old result self.new }
        ensures only { OnlyMail sender self.old self.new }
    {
        match self.intake.report(report) {
            Ok(()) => {
                self.notes.moves.serve(sender);
                true
            }
            Err(back) => {
                self.reports[sender as usize] = Some(back);
                false
            }
        }
    }

    /// Takes the sender's report that is held back.
    fn take_held_report(&mut self, sender: u32) -> Option<Report>
        requires { sender < senders_of self.old }
        ensures held { result ≡ (mail_of self.old sender).held }
        ensures its { IfSome result (λ r. r.sender ≡ sender) }
        ensures told { (mail_of self.new sender).told ≡ (mail_of self.old sender).told }
        ensures none { (mail_of self.new sender).held ≡ None }
        ensures only { OnlyMail sender self.old self.new }
    {
        self.reports[sender as usize].take()
    }

    /// Hands over the sender's reports: the one that is held back, and then those that wait in the core, until the
    /// sender's ring is full. Whether all were handed over.
    fn send_from(&mut self, sender: u32) -> Result<bool, AllocError>
        requires { sender < senders_of self.old }
        ensures sends { SendsFrom sender self.old result self.new }
        ensures only { OnlyReports sender self.old self.new }
    {
        match self.take_held_report(sender) {
            None => self.send_fetched(sender),
            Some(report) => {
                if !self.hand(sender, report) {
                    return Ok(false);
                }
                self.send_fetched(sender)
            }
        }
    }

    /// Hands over the sender's reports that wait in the core, until the sender's ring is full. Whether all were handed
    /// over.
    fn send_fetched(&mut self, sender: u32) -> Result<bool, AllocError>
        requires place { sender < senders_of self.old }
        requires free { (mail_of self.old sender).held ≡ None }
        ensures sends { SendsFrom sender self.old result self.new }
        ensures only { OnlyReports sender self.old self.new }
    {
        loop {
            match self.fetch(sender) {
                Err(refused) => return Err(refused),
                Ok(found) => match found {
                    None => return Ok(true),
                    Some(report) => {
                        if !self.hand(sender, report) {
                            return Ok(false);
                        }
                    }
                },
            }
        }
    }

    /// Each sender's part of a turn's last part. Whether all reports were handed over.
    pub(crate) fn send_all(&mut self) -> Result<bool, AllocError>
        ensures sends { SendsEach self.old result self.new }
        ensures only { OnlyMails self.old self.new }
    {
        let mut all = true;
        for sender in 0..self.items.len() as u32 {
            match self.send_from(sender) {
                Ok(sent) => all = both(all, sent),
                Err(refused) => return Err(refused),
            }
        }
        Ok(all)
    }
}
