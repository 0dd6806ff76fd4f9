// A gateway: what it keeps, how it starts, and its seven calls.
ghost use Rattle.std.specs.Prelude.{◌≡◌, ◌<◌, [], length, replicate, IfOk};
ghost use Rattle.std.specs.Result.{result_err};
ghost use Rattle.sessions.specs.Sessions.{fresh as fresh_session};
ghost use Rattle.gateway.specs.Starting.{is_new};

use crate::fault::{GatewayFault, SessionFault};
use codes::session::Partition;
use configuration::config::{Config, StartRefusal};
use configuration::participant::Participant;
use matching::matcher::Matcher;
use partitions::per_partition::PerPartition;
use sessions::session::{Channel, Session};
use std::alloc::{AllocError, Global};
use std::marker::Model;
use store::Store;
use venue::venue::Venue;
use wire::message::BUFFER;

/// A venue's order gateway: in a contract, its CompIDs, the session of each line and the venue's books, and beside them
/// the matcher as it is and how many places the store has free.
#[derive(Drop)]
pub struct Gateway<M: Matcher, S: Store> {
    pub(crate) participants: Vec<Participant>,
    pub(crate) sessions: Vec<Session>,
    pub(crate) venue: Venue<M, S>,
}

impl<M: Matcher, S: Store> Model for Gateway<M, S> {
    ghost use Rattle.std.specs.Prelude.{◌≡◌, length};
    ghost use Rattle.std.specs.Coded.{codes};
    ghost use Rattle.std.specs.FinMap as map;
    ghost use Rattle.gateway.specs.State.{State};
    ghost use Rattle.venue.specs.Books.{Over};

    ghost Value = { Over State M };

    ghost coded = { Prim.hlevel (codes, map.code) };

    ghost view = { λ g. record {
      state = record { participants = g.participants.items; lines = g.sessions.items; venue = g.venue.state };
      engine = g.venue.engine;
      free = g.venue.free;
    } };

    ghost invariant = { λ g. length g.sessions.items ≡ length g.participants.items };
}

fn new_sessions(alloc: Global, count: usize) -> Result<Vec<Session>, AllocError>
    ensures { IfOk result (λ v. v.items ≡ replicate count fresh_session) }
{
    vec![in alloc; Session::new(); count]
}

/// Whether a matcher holds no order and a store no report.
pub fn is_new<M: Matcher, S: Store>(matcher: &M, store: &S) -> bool
    ensures { result ≡ is_new (M.meaning matcher.now) (S.kept store.now) }
{
    matcher.is_empty()
        && store.last(Partition::One) == 0
        && store.last(Partition::Two) == 0
        && store.last(Partition::Three) == 0
}

impl<M: Matcher, S: Store> Gateway<M, S> {
    ghost use Rattle.gateway.specs.Starting.{Starts, opened};
    ghost use Rattle.gateway.specs.Calls.{on_fault};
    ghost use Rattle.gateway.specs.Hearing.{call_fault, line_fault};
    ghost use Rattle.gateway.specs.Doing.{Stays};
    ghost use Rattle.gateway.specs.State.{session, with_session, lasts};
    ghost use Rattle.venue.specs.Books.{fresh as fresh_books};

    /// Starts a day: nobody is logged on. Refused with 61 where the matcher holds an order or the store a report, and
    /// without a number where memory is short; 60 is the configuration's, and comes before. Whoever is refused gets
    /// matcher and store back.
    pub fn start(
        alloc: Global,
        config: Config,
        matcher: M,
        store: S,
    ) -> Result<Gateway<M, S>, (StartRefusal, M, S)>
        ensures { Starts (is_new (M.meaning matcher) (S.kept store)) (λ g. g ≡ opened config.participants.items (record {
          state = fresh_books config.instruments.items (M.meaning matcher);
          engine = matcher;
          free = S.free store;
        })) matcher store result }
    {
        if !is_new(&matcher, &store) {
            return Err((StartRefusal::NotEmpty, matcher, store));
        }
        let Config {
            participants,
            instruments,
        } = config;
        let Ok(sessions) = new_sessions(alloc, participants.len()) else {
            return Err((StartRefusal::NoMemory, matcher, store));
        };
        match Venue::new(alloc, instruments, matcher, store) {
            Err((matcher, store)) => Err((StartRefusal::NoMemory, matcher, store)),
            Ok(venue) => Ok(Gateway {
                participants,
                sessions,
                venue,
            }),
        }
    }

    // The session of a line.
    pub(crate) fn session(&self, line: usize) -> Session
        requires { line < length self.now.state.lines }
        ensures { result ≡ session self.now.state line }
    {
        self.sessions[line]
    }

    pub(crate) fn set_session(&mut self, line: usize, session: Session)
        requires { line < length self.old.state.lines }
        ensures { Stays self.old self.new (with_session self.old.state line session) [] }
    {
        self.sessions[line] = session;
    }

    // The last number of each partition.
    pub(crate) fn lasts(&self) -> PerPartition<u32>
        ensures { result ≡ lasts self.now.state.venue.kept }
    {
        PerPartition {
            one: self.venue.last(Partition::One),
            two: self.venue.last(Partition::Two),
            three: self.venue.last(Partition::Three),
        }
    }

    // There is such a line.
    pub(crate) fn check_line(&self, line: usize) -> Result<(), GatewayFault>
        ensures { result_err result ≡ line_fault line self.now.state }
    {
        if line >= self.sessions.len() {
            return Err(GatewayFault::NoSuchLine);
        }
        Ok(())
    }

    // The buffer has room for any message, and there is such a line.
    pub(crate) fn check_call(&self, room: usize, line: usize) -> Result<(), GatewayFault>
        ensures { result_err result ≡ call_fault room line self.now.state }
    {
        if room < BUFFER {
            return Err(GatewayFault::ShortBuffer);
        }
        self.check_line(line)
    }

    // The line is logged on, on the channel.
    pub(crate) fn check_on(&self, channel: Channel, line: usize) -> Result<(), GatewayFault>
        requires { line < length self.now.state.lines }
        ensures { result_err result ≡ on_fault channel line self.now.state }
    {
        if !self.session(line).is_on(channel) {
            return Err(GatewayFault::Session(SessionFault::NotLoggedOn));
        }
        Ok(())
    }
}
