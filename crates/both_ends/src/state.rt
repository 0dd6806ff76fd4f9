// A gateway and a desk's follower as one value.
ghost use Rattle.std.specs.Prelude.{◌≡◌, [], IfOk, IsOk, OnOk, OnErr};
ghost use Rattle.both_ends.specs.Agreement.{Agrees};
ghost use Rattle.both_ends.specs.Allowed.{after_log, quiet};
ghost use Rattle.both_ends.specs.Asking.{made};
ghost use Rattle.both_ends.specs.Both.{Answers, Guided, Holds, IsLast, Steps, StepsAll, StepsFront};
ghost use Rattle.both_ends.specs.Deciding.{verdict};
ghost use Rattle.both_ends.specs.Runs.{fresh};
ghost use Rattle.gateway.specs.Starting.{Starts, is_new, opened};
ghost use Rattle.venue.specs.Books.{fresh as fresh_books};
ghost use Rattle.both_ends.specs.declared.entry.Step.TheVariants.{Make, Midpoint, Ask};

use crate::allowed::{Breach, line_allows};
use crate::call::Call;
use crate::entry::{Entry, Step};
use crate::making::make;
use crate::question::Question;
use configuration::config::{Config, StartRefusal};
use follower::pending::Pending;
use follower::state::Follower;
use gateway::gateway::{Gateway, is_new};
use matching::matcher::Matcher;
use matching::midpoint::MidpointRefusal;
use std::alloc::{AllocError, Global};
use std::marker::Model;
use std::mem;
use store::Store;
use texts::values::Price;

/// A gateway and a desk's follower, the token of a download that is owed, and the log: what both were given to do, in
/// order, with what came back. In a contract these values; its type says that the log leads from a start to what it
/// holds. Where it is let go the line is lost for good, so that nothing stays owed.
pub struct BothEnds<M: Matcher, S: Store, Q: Question<A>, A: Copy> {
    gateway: Gateway<M, S>,
    follower: Follower,
    token: Pending,
    log: Vec<Entry<Q, A>>,
    pub(crate) heap: Global,
}

impl<M: Matcher, S: Store, Q: Question<A>, A: Copy> Model for BothEnds<M, S, Q, A> {
    ghost use Rattle.std.specs.Coded.{codes};
    ghost use Rattle.std.specs.FinMap as map;
    ghost use Rattle.both_ends.specs.Both.{Ends, Ran};

    ghost Value = { Ends M Q A };

    ghost coded = { Prim.hlevel (codes, map.code, M.code, Q.code, A.code) };

    ghost view = { λ b. record {
      log = b.log.items;
      gateway = b.gateway;
      desk = record { follower = b.follower; token = b.token };
    } };

    ghost invariant = { λ b. Ran M.meaning M.Did M.guided M.Learns Q.answer (record {
      log = b.log.items;
      gateway = b.gateway;
      desk = record { follower = b.follower; token = b.token };
    }) };
}

impl<M: Matcher, S: Store, Q: Question<A>, A: Copy> BothEnds<M, S, Q, A> {
    /// Starts both ends, with nothing in the log. Refused exactly as a gateway's start is: with 61 where the matcher holds
    /// an order or the store a report, and without a number where memory is short. Matcher and store are then given back.
    pub fn start(
        alloc: Global,
        config: Config,
        matcher: M,
        store: S,
    ) -> Result<BothEnds<M, S, Q, A>, (StartRefusal, M, S)>
        ensures { Starts (is_new (M.meaning matcher) (S.kept store))
            (λ b. b ≡ record {
              log = [];
              gateway = opened config.participants.items (record {
                state = fresh_books config.instruments.items (M.meaning matcher);
                engine = matcher;
                free = S.free store;
              });
              desk = fresh;
            }) matcher store result }
    {
        if !is_new(&matcher, &store) {
            return Err((StartRefusal::NotEmpty, matcher, store));
        }
        let Ok(follower) = Follower::new(alloc) else {
            return Err((StartRefusal::NoMemory, matcher, store));
        };
        match Gateway::start(alloc, config, matcher, store) {
            Err(back) => Err(back),
            Ok(gateway) => Ok(BothEnds {
                gateway,
                follower,
                token: Pending::Idle,
                log: Vec::new(alloc),
                heap: alloc,
            }),
        }
    }

    /// Makes a call on its end, and keeps it in the log with what came back. Its one error is want of memory; then nothing
    /// was called, and nothing is changed.
    pub fn make(&mut self, call: Call) -> Result<(), AllocError>
        ensures made { OnOk result (Steps M.Did M.guided M.Learns Q.answer (Make call) self.old self.new) }
        ensures error { OnErr result (self.new ≡ self.old) }
    {
        self.log.reserve(1)?;
        let token = mem::replace(&mut self.token, Pending::Idle);
        let (done, token) = make(
            self.heap,
            &mut self.gateway,
            &mut self.follower,
            token,
            call,
        );
        self.token = token;
        // for the proof: what every gateway keeps, also after this call
        self.gateway.venue().sound();
        let done = done?;
        self.log.push_reserved(Entry::Made(done));
        Ok(())
    }

    /// Tells the matcher an instrument's midpoint price, or that it has none, keeps it in the log with the answer, and hands
    /// the answer out; all that both ends show stays. It is refused with 21 where the matcher is not told midpoints, else with
    /// 20 or 22. Its one error is want of memory; then nothing was told.
    pub fn midpoint(
        &mut self,
        instrument: usize,
        price: Option<Price>,
    ) -> Result<Result<(), MidpointRefusal>, AllocError>
        ensures told { IfOk result (λ r. Guided M.guided M.Learns instrument price r self.old self.new) }
        ensures made { IfOk result (λ _. Steps M.Did M.guided M.Learns Q.answer (Midpoint instrument price)
            self.old self.new) }
        ensures error { OnErr result (self.new ≡ self.old) }
    {
        self.log.reserve(1)?;
        let answer = self.gateway.midpoint(instrument, price);
        self.log
            .push_reserved(Entry::Midpoint(instrument, price, answer));
        Ok(answer)
    }

    /// Asks a question, keeps it in the log with its answer, and hands the answer out; both ends stay as they are. Its one
    /// error is want of memory; then nothing is kept.
    pub fn ask(&mut self, question: Q) -> Result<A, AllocError>
        ensures answered { IfOk result (λ a. Answers Q.answer question a self.old self.new) }
        ensures made { IfOk result (λ _. Steps M.Did M.guided M.Learns Q.answer (Ask question) self.old self.new) }
        ensures error { OnErr result (self.new ≡ self.old) }
    {
        self.log.reserve(1)?;
        let answer = question.ask(self.heap, &self.gateway, &self.follower)?;
        self.log.push_reserved(Entry::Asked(question, answer));
        Ok(answer)
    }

    /// Takes one step: makes a call, tells a midpoint or asks a question, with the same error.
    pub fn take(&mut self, step: Step<Q>) -> Result<(), AllocError>
        ensures made { OnOk result (Steps M.Did M.guided M.Learns Q.answer step self.old self.new) }
        ensures error { OnErr result (self.new ≡ self.old) }
    {
        match step {
            Step::Make(call) => self.make(call),
            Step::Midpoint(instrument, price) => {
                let _answer = self.midpoint(instrument, price)?;
                Ok(())
            }
            Step::Ask(question) => {
                let _answer = self.ask(question)?;
                Ok(())
            }
        }
    }

    /// Takes each step in turn. Its one error is want of memory, at the first step for which it is short; those before it
    /// were taken, and none behind.
    pub fn run(&mut self, steps: Vec<Step<Q>>) -> Result<(), AllocError>
        ensures all { OnOk result (StepsAll M.Did M.guided M.Learns Q.answer steps.items self.old self.new) }
        ensures front { OnErr result (StepsFront M.Did M.guided M.Learns Q.answer steps.items self.old self.new) }
    {
        for step in steps {
            self.take(step)?;
        }
        Ok(())
    }

    /// What was taken last, with what came back; none where nothing was.
    pub fn last(&self) -> Option<&Entry<Q, A>>
        ensures { IsLast self.now.log result }
    {
        self.log.last()
    }

    /// What was taken, in order, each with what came back.
    pub fn log(&self) -> &[Entry<Q, A>]
        ensures { result.now ≡ self.now.log }
    {
        &self.log
    }

    /// The gateway.
    pub fn gateway(&self) -> &Gateway<M, S>
        ensures { result.now ≡ self.now.gateway }
    {
        &self.gateway
    }

    /// The follower.
    pub fn follower(&self) -> &Follower
        ensures { result.now ≡ self.now.desk.follower }
    {
        &self.follower
    }

    /// The token of the download that is owed, if one is.
    pub fn token(&self) -> &Pending
        ensures { result.now ≡ self.now.desk.token }
    {
        &self.token
    }

    /// Whatever was taken: the matcher was asked exactly what the acts of the calls ask and told the midpoints, of every order the quantity last
    /// accepted is accounted for, and whichever line allows the calls, the ends of that line agree.
    pub fn law(&self)
        ensures { Holds M.meaning M.Did M.guided M.Learns Q.answer self.now }
    {
        let _ = &self.log;
    }

    /// Whether the line of a CompID allows what was called, or the first breach. Where it does, both ends agree: no report
    /// was lost unnoticed or counted twice, none was refused by the fold, and where the follower says level and was given
    /// every report, both ends show the same orders. Its one error is want of memory.
    pub fn verdict(&self, line: usize) -> Result<Result<(), Breach>, AllocError>
        ensures decided { IfOk result (λ r. r ≡ verdict (after_log line (made self.now.log) quiet)) }
        ensures agreed { IfOk result (λ r. IsOk r
            → Agrees line (made self.now.log) self.now.gateway.state self.now.desk) }
    {
        line_allows(self.heap, line, &self.log)
    }
}

impl<M: Matcher + Drop, S: Store + Drop, Q: Question<A>, A: Copy> BothEnds<M, S, Q, A> {
    fn close(self) {
        let BothEnds {
            gateway,
            mut follower,
            token,
            log,
            heap: _,
        } = self;
        let _idle = follower.lost(token);
        drop(gateway);
        drop(log);
        drop(follower);
    }
}

impl<M: Matcher + Drop, S: Store + Drop, Q: Question<A>, A: Copy> Drop for BothEnds<M, S, Q, A> {
    /// What is owed ends: the line is lost for good.
    fn drop(self) {
        self.close();
    }
}
