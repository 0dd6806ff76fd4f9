// One line, watched call by call.
ghost use Rattle.std.specs.Prelude.{◌≡◌, IfOk};
ghost use Rattle.follower.specs.Hearing.{heard_in};

use crate::allowed::Breach;
use crate::call::{Asked, Done};
use crate::connection::Connection;
use crate::opening::Opening;
use crate::replies::{bytes, is_accepted, is_failed_logon, is_grant, is_reject, left_reject};
use crate::under_way::UnderWay;
use follower::heard::Heard;
use follower::reading::hear;
use gateway_runs::call::{Done as VenueDone, Reply};
use std::alloc::{AllocError, Global};
use std::marker::Model;

/// One line, as the calls so far left it.
#[derive(Drop)]
pub(crate) struct Watch<'a> {
    connection: Connection,
    // how the recovery channel of the connection began
    opening: Opening,
    // the reports under way on the real-time channel
    live: UnderWay<'a>,
    // what is under way on the recovery channel
    recovered: UnderWay<'a>,
    // the reports of a download that has not ended
    again: UnderWay<'a>,
    // the requests that the gateway was not given yet
    asked: UnderWay<'a>,
}

impl<'a> Model for Watch<'a> {
    ghost use Rattle.both_ends.specs.Allowed.{Line};

    ghost Value = { Line };

    ghost view = { λ w. record {
      connection = w.connection;
      opening = w.opening;
      live = w.live;
      recovered = w.recovered;
      again = w.again;
      asked = w.asked;
    } };
}

impl<'a> Watch<'a> {
    ghost use Rattle.both_ends.specs.Allowed.{quiet, answered, next_of, after_logon, after_recovery, after_failure, given_recovery, after_venue, after_up, out_of_turn, given_live, given_recovered, next_report, next_other, after_ask, after_call};
    ghost use Rattle.both_ends.specs.Deciding.{is_failed, onto};

    /// A line on which nothing was said.
    pub(crate) fn quiet(alloc: Global) -> Watch<'a>
        ensures { result ≡ quiet }
    {
        Watch {
            connection: Connection::Away,
            opening: Opening::Awaited,
            live: UnderWay::new(alloc),
            recovered: UnderWay::new(alloc),
            again: UnderWay::new(alloc),
            asked: UnderWay::new(alloc),
        }
    }

    /// Whether the recovery channel of the connection began with a Logon that is no message.
    pub(crate) fn has_failed(&self) -> bool
        ensures { result ≡ is_failed self.now.opening }
    {
        matches!(self.opening, Opening::Failed)
    }

    // An accepted Logon begins a new connection.
    fn after_logon(&mut self, is_accepted: bool) -> Result<(), Breach>
        ensures { after_logon is_accepted self.old ≡ onto result self.new }
    {
        if !is_accepted {
            return Ok(());
        }
        if self.connection.is_up() {
            return Err(Breach::StillUp);
        }
        self.connection = Connection::Ready;
        self.opening = Opening::Awaited;
        self.live.clear();
        self.recovered.clear();
        self.again.clear();
        self.asked.clear();
        Ok(())
    }

    // A request that the gateway was given is one that the follower wrote, and its answer is under way.
    fn answered(
        &mut self,
        request: &[u8],
        reply: &'a [u8],
    ) -> Result<Result<(), Breach>, AllocError>
        ensures { IfOk result (λ r. answered reply.now (next_of request.now self.old.asked) self.old ≡ onto r self.new) }
    {
        if !self.asked.take(request) {
            return Ok(Err(Breach::NotAsked));
        }
        self.recovered.push(reply)?;
        Ok(Ok(()))
    }

    fn after_recovery(
        &mut self,
        request: &[u8],
        reply: &'a [u8],
    ) -> Result<Result<(), Breach>, AllocError>
        ensures { IfOk result (λ r. after_recovery (heard_in reply.now) reply.now request.now self.old
            ≡ onto r self.new) }
    {
        match hear(reply) {
            Ok(Heard::Ack(_) | Heard::Reject) => self.answered(request, reply),
            Ok(Heard::Report(..) | Heard::End(_) | Heard::Nothing) | Err(_) => Ok(Ok(())),
        }
    }

    // The first Logon was no message; its Reject is under way.
    fn fail(&mut self, reject: &'a [u8]) -> Result<(), AllocError>
        ensures { IfOk result (λ _. self.new ≡ after_failure reject.now self.old) }
    {
        if !is_reject(reject) {
            self.opening = Opening::Open;
            return Ok(());
        }
        self.opening = Opening::Failed;
        self.recovered.push(reject)
    }

    // What is given on the recovery channel, by how it began.
    fn given_recovery(
        &mut self,
        message: &[u8],
        reply: &'a Reply,
    ) -> Result<Result<(), Breach>, AllocError>
        ensures { IfOk result (λ r. given_recovery self.old.opening message.now reply.now self.old ≡ onto r self.new) }
    {
        match self.opening {
            Opening::Awaited => {
                if is_failed_logon(reply, message) {
                    self.fail(left_reject(reply))?;
                    return Ok(Ok(()));
                }
                self.opening = Opening::Open;
            }
            Opening::Open => {}
            Opening::Failed => {
                if is_grant(bytes(reply)) {
                    return Ok(Err(Breach::GrantedOverFailure));
                }
            }
        }
        self.after_recovery(message, bytes(reply))
    }

    fn after_venue(
        &mut self,
        line: usize,
        done: &'a VenueDone,
    ) -> Result<Result<(), Breach>, AllocError>
        ensures { IfOk result (λ r. after_venue line done.now self.old ≡ onto r self.new) }
    {
        match done {
            VenueDone::RealTime(at, _, _, reply) => {
                if *at == line {
                    return Ok(self.after_logon(is_accepted(bytes(reply))));
                }
            }
            VenueDone::Recovery(at, request, _, reply) => {
                if *at == line {
                    return self.given_recovery(request, reply);
                }
            }
            VenueDone::Send(at, reply) => {
                if *at == line {
                    self.live.hand_out(bytes(reply))?;
                }
            }
            VenueDone::SendRecovered(at, reply) => {
                if *at == line {
                    self.recovered.hand_out(bytes(reply))?;
                }
            }
            VenueDone::Step(..) | VenueDone::CancelTrade(..) | VenueDone::LineLost(..) => {}
        }
        Ok(Ok(()))
    }

    fn after_up(&mut self) -> Result<(), Breach>
        ensures { after_up self.old.connection self.old ≡ onto result self.new }
    {
        match self.connection {
            Connection::Ready => {
                self.connection = Connection::Up;
                Ok(())
            }
            Connection::Away | Connection::Up => Err(Breach::NoLogon),
        }
    }

    // What is not the next under way changes nothing where the follower is not up, and else the line does not bring it.
    fn out_of_turn(&self, breach: Breach) -> Result<(), Breach>
        ensures { out_of_turn breach self.now ≡ onto result self.now }
    {
        if !self.connection.is_up() {
            return Ok(());
        }
        Err(breach)
    }

    // A report that is given live is the next under way.
    fn given_live(&mut self, message: &[u8]) -> Result<(), Breach>
        ensures { given_live message.now (heard_in message.now) self.old ≡ onto result self.new }
    {
        if let Ok(Heard::Report(..)) = hear(message) {
            if !self.live.take(message) {
                return self.out_of_turn(Breach::LiveOutOfTurn);
            }
        }
        Ok(())
    }

    // A report on the recovery channel is the next under way, or one of the download that came before.
    fn next_report(&mut self, message: &'a [u8]) -> Result<Result<(), Breach>, AllocError>
        ensures { IfOk result (λ r. next_report message.now (next_of message.now self.old.recovered) self.old
            ≡ onto r self.new) }
    {
        if self.recovered.take(message) {
            self.again.push_front(message)?;
            return Ok(Ok(()));
        }
        if !self.again.contains(message) {
            return Ok(self.out_of_turn(Breach::RecoveredOutOfTurn));
        }
        Ok(Ok(()))
    }

    // Once anything else came, no report comes again.
    fn next_other(&mut self, message: &[u8]) -> Result<(), Breach>
        ensures { next_other (next_of message.now self.old.recovered) self.old ≡ onto result self.new }
    {
        if !self.recovered.take(message) {
            return self.out_of_turn(Breach::RecoveredOutOfTurn);
        }
        self.again.clear();
        Ok(())
    }

    fn given_recovered(&mut self, message: &'a [u8]) -> Result<Result<(), Breach>, AllocError>
        ensures { IfOk result (λ r. given_recovered message.now (heard_in message.now) self.old ≡ onto r self.new) }
    {
        match hear(message) {
            Ok(Heard::Report(..)) => self.next_report(message),
            Ok(Heard::Ack(_) | Heard::End(_) | Heard::Reject) => Ok(self.next_other(message)),
            Ok(Heard::Nothing) | Err(_) => Ok(Ok(())),
        }
    }

    fn after_ask(&mut self, asked: &'a Asked) -> Result<(), AllocError>
        ensures { IfOk result (λ _. self.new ≡ after_ask asked.now.answer asked.now.after.items self.old) }
    {
        if let Ok(count) = asked.answer {
            self.asked
                .push(&asked.after[..count.min(asked.after.len())])?;
        }
        Ok(())
    }

    /// One call more, if the line allows it; its second error is want of memory.
    pub(crate) fn after_call(
        &mut self,
        line: usize,
        done: &'a Done,
    ) -> Result<Result<(), Breach>, AllocError>
        ensures { IfOk result (λ r. after_call line done.now self.old ≡ onto r self.new) }
    {
        match done {
            Done::Venue(done) => self.after_venue(line, done),
            Done::Up => Ok(self.after_up()),
            Done::Lost => {
                self.connection = self.connection.lost();
                Ok(Ok(()))
            }
            Done::Live(message, _) => Ok(self.given_live(message)),
            Done::Recovered(message, _) => self.given_recovered(message),
            Done::Ask(_, asked) => {
                self.after_ask(asked)?;
                Ok(Ok(()))
            }
        }
    }
}
