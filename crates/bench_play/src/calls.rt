// The twelve calls, each made on both ends, and its answer printed.
use crate::day::Day;
use crate::state::{Carried, State, front};
use bench_account::answer::{Answer, Trade};
use bench_words::command::{Call as Called, Desk};
use both_ends::call::{Asked, Call, Done};
use both_ends::entry::Entry;
use follower::answer::{Live, Recovered};
use follower::fault::FollowerFault;
use gateway::fault::GatewayFault;
use gateway_runs::call::{Call as VenueCall, Done as VenueDone, Reply};
use std::alloc::{AllocError, Global};
use std::io;
use texts::values::Price;
use venue::step::Step;
use wire::kinds::{Channel, Kind};
use wire::message::BUFFER;

/// A buffer for what a call writes.
pub fn buffer(heap: Global) -> Result<Vec<u8>, AllocError> {
    vec![in heap; 0; BUFFER]
}

fn refused<R: Print>(rt: &R, state: &mut State, fault: GatewayFault) -> io::Result<()> {
    state.tell(rt, Answer::Refused(fault.number()))
}

// What a message was answered with.
fn answered<R: Print + AllocGlobal>(
    rt: &R,
    state: &mut State,
    channel: Channel,
    line: usize,
    reply: &Reply,
) -> io::Result<()> {
    match reply.answer {
        Ok(0) => state.tell(rt, Answer::Nothing),
        Ok(length) => {
            let message = front(&reply.after, length);
            state.under_way.carry(rt.alloc(), channel, line, message)?;
            state.tell_message(rt, Carried::Answer, message)
        }
        Err(fault) => match fault.offset() {
            Some(offset) => {
                let carried = Carried::Reject(fault.number(), offset);
                let message = front(&reply.after, Kind::Reject.total());
                state.under_way.carry(rt.alloc(), channel, line, message)?;
                state.tell_message(rt, carried, message)
            }
            None => refused(rt, state, fault),
        },
    }
}

fn told(step: Step) -> Answer<'static> {
    match step {
        Step::Nothing => Answer::Nothing,
        Step::Expired(number) => Answer::Expired(number),
        Step::Traded {
            number,
            passive,
            aggressive,
            quantity,
            price,
        } => Answer::Traded(Trade {
            number,
            passive,
            aggressive,
            quantity,
            price,
        }),
    }
}

// What an event of the matcher was. Says whether another may follow.
fn stepped<R: Print>(
    rt: &R,
    state: &mut State,
    outcome: Result<Step, GatewayFault>,
) -> io::Result<bool> {
    match outcome {
        Ok(step) => {
            state.tell(rt, told(step))?;
            Ok(!matches!(step, Step::Nothing))
        }
        Err(fault) => {
            refused(rt, state, fault)?;
            Ok(false)
        }
    }
}

fn ended<R: Print>(
    rt: &R,
    state: &mut State,
    outcome: Result<(), GatewayFault>,
    done: Answer<'_>,
) -> io::Result<()> {
    match outcome {
        Ok(()) => state.tell(rt, done),
        Err(fault) => refused(rt, state, fault),
    }
}

// What a call that sends handed out. Says whether more may follow.
fn handed<R: Print + AllocGlobal>(
    rt: &R,
    state: &mut State,
    channel: Channel,
    line: usize,
    reply: &Reply,
) -> io::Result<bool> {
    match reply.answer {
        Ok(0) => {
            state.tell(rt, Answer::Nothing)?;
            Ok(false)
        }
        Ok(length) => {
            let message = front(&reply.after, length);
            state.under_way.carry(rt.alloc(), channel, line, message)?;
            state.tell_message(rt, Carried::Sent, message)?;
            Ok(true)
        }
        Err(fault) => {
            refused(rt, state, fault)?;
            Ok(false)
        }
    }
}

// A call of the gateway that was made.
fn on_gateway<R: Print + AllocGlobal>(
    rt: &R,
    state: &mut State,
    done: &VenueDone,
) -> io::Result<bool> {
    match done {
        VenueDone::RealTime(line, _, _, reply) => {
            answered(rt, state, Channel::RealTime, *line, reply)?
        }
        VenueDone::Recovery(line, _, _, reply) => {
            answered(rt, state, Channel::Recovery, *line, reply)?
        }
        VenueDone::Step(_, outcome) => return stepped(rt, state, *outcome),
        VenueDone::CancelTrade(_, _, outcome) => ended(rt, state, *outcome, Answer::Cancelled)?,
        VenueDone::LineLost(_, _, outcome) => ended(rt, state, *outcome, Answer::Closed)?,
        VenueDone::Send(line, reply) => return handed(rt, state, Channel::RealTime, *line, reply),
        VenueDone::SendRecovered(line, reply) => {
            return handed(rt, state, Channel::Recovery, *line, reply);
        }
    }
    Ok(false)
}

// A call of the follower that was refused.
fn turned_down<R: Print>(rt: &R, state: &mut State, fault: FollowerFault) -> io::Result<()> {
    match fault {
        FollowerFault::Message(fault) => {
            state.tell(rt, Answer::RefusedAt(fault.number(), fault.offset()))
        }
        fault => state.tell(rt, Answer::Refused(fault.number())),
    }
}

// What a message that came live became, in a word, or the check that refused it.
fn became_live<R: Print>(
    rt: &R,
    state: &mut State,
    outcome: Result<Live, FollowerFault>,
) -> io::Result<()> {
    match outcome {
        Ok(live) => {
            state.came.live(live);
            state.tell(rt, Answer::Became(live.text()))
        }
        Err(fault) => turned_down(rt, state, fault),
    }
}

// The same of a message of the recovery channel.
fn became_recovered<R: Print>(
    rt: &R,
    state: &mut State,
    outcome: Result<Recovered, FollowerFault>,
) -> io::Result<()> {
    match outcome {
        Ok(recovered) => {
            state.came.recovered(recovered);
            state.tell(rt, Answer::Became(recovered.text()))
        }
        Err(fault) => turned_down(rt, state, fault),
    }
}

fn asked_for<R: Print + AllocGlobal>(rt: &R, state: &mut State, asked: &Asked) -> io::Result<()> {
    match asked.answer {
        Ok(length) => state.tell_message(rt, Carried::Request, front(&asked.after, length)),
        Err(fault) => turned_down(rt, state, fault),
    }
}

/// Prints what came back of a call that was made. Says whether more of its kind may follow.
pub fn tell<R: Print + AllocGlobal>(rt: &R, state: &mut State, done: &Done) -> io::Result<bool> {
    match done {
        Done::Venue(done) => return on_gateway(rt, state, done),
        Done::Up => state.tell(rt, Answer::Up)?,
        Done::Lost => state.tell(rt, Answer::Lost)?,
        Done::Live(_, outcome) => became_live(rt, state, *outcome)?,
        Done::Recovered(_, outcome) => became_recovered(rt, state, *outcome)?,
        Done::Ask(_, asked) => asked_for(rt, state, asked)?,
    }
    Ok(false)
}

/// Makes a call, and prints what came back. Says whether more of its kind may follow: an event, a report to send.
pub fn make<R: Print + AllocGlobal>(
    rt: &R,
    state: &mut State,
    day: &mut Day,
    call: Call,
) -> io::Result<bool> {
    day.make(call)?;
    match day.last() {
        Some(Entry::Made(done)) => tell(rt, state, done),
        _ => Ok(false),
    }
}

/// Tells the matcher a midpoint, and prints whether it is set.
pub fn midpoint<R: Print>(
    rt: &R,
    state: &mut State,
    day: &mut Day,
    instrument: usize,
    price: Option<Price>,
) -> io::Result<()> {
    match day.midpoint(instrument, price)? {
        Ok(()) => state.tell(rt, Answer::Set),
        Err(refusal) => state.tell(rt, Answer::Refused(refusal.number())),
    }
}

/// The gateway's call that a line of a script asks for.
pub fn called(heap: Global, call: Called<'_>) -> Result<Call, AllocError> {
    Ok(Call::Venue(match call {
        Called::RealTime(line, time, bytes) => {
            VenueCall::RealTime(line, bytes.to_vec(heap)?, time, buffer(heap)?)
        }
        Called::Recovery(line, time, bytes) => {
            VenueCall::Recovery(line, bytes.to_vec(heap)?, time, buffer(heap)?)
        }
        Called::Step(time) => VenueCall::Step(time),
        Called::CancelTrade(number, time) => VenueCall::CancelTrade(number, time),
        Called::LineLost(line, time) => VenueCall::LineLost(line, time),
        Called::Send(line) => VenueCall::Send(line, buffer(heap)?),
        Called::SendRecovered(line) => VenueCall::SendRecovered(line, buffer(heap)?),
    }))
}

/// The follower's call that a line of a script asks for.
pub fn followed(heap: Global, call: Desk<'_>) -> Result<Call, AllocError> {
    Ok(match call {
        Desk::Up => Call::Up,
        Desk::Live(bytes) => Call::Live(bytes.to_vec(heap)?),
        Desk::Ask(partition) => Call::Ask(partition, buffer(heap)?),
        Desk::Recovered(bytes) => Call::Recovered(bytes.to_vec(heap)?),
        Desk::Lost => Call::Lost,
    })
}
