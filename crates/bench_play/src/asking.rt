// Messages that a person asks for: built from words, and taken in as any other.
use crate::calls::{buffer, make};
use crate::day::Day;
use crate::failure::Failure;
use crate::preview::preview;
use crate::state::State;
use bench_words::command::Request;
use bench_words::letter::Letter;
use bench_words::session::Sender;
use both_ends::call::Call;
use gateway_runs::call::Call as VenueCall;
use limits::MESSAGE_BYTES;
use std::io;
use wire::message::write;

// Who sends on a line; nobody where there is no such line.
fn sender(day: &Day, line: usize) -> Sender {
    match day.participants().get(line) {
        Some(participant) => Sender {
            name: participant.name,
            password: participant.password,
        },
        None => Sender::nobody(),
    }
}

fn is_on_recovery(request: &Request<'_>) -> bool {
    matches!(request, Request::Recover | Request::Missed { .. })
}

// The bytes of the message that is asked for on a line.
fn written<R: AllocGlobal>(
    rt: &R,
    day: &Day,
    line: usize,
    request: &Request<'_>,
) -> Result<Vec<u8>, Failure> {
    let letter = match Letter::of(request, &sender(day, line)) {
        Ok(letter) => letter,
        Err(why) => return Err(Failure::Misread(why)),
    };
    let mut message = [0; MESSAGE_BYTES];
    let length = write(&letter.message(), &mut message).unwrap();
    Ok(Vec::from_slice(rt.alloc(), &message[..length])?)
}

/// Builds a message and has it taken in on its line, at the time of the clock.
pub fn ask<R: Print + AllocGlobal>(
    rt: &R,
    state: &mut State,
    day: &mut Day,
    line: usize,
    request: Request<'_>,
) -> Result<(), Failure> {
    let bytes = written(rt, day, line, &request)?;
    let buffer = buffer(rt.alloc())?;
    let call = if is_on_recovery(&request) {
        VenueCall::Recovery(line, bytes, state.clock, buffer)
    } else {
        VenueCall::RealTime(line, bytes, state.clock, buffer)
    };
    let _more = make(rt, state, day, Call::Venue(call))?;
    Ok(())
}

/// Builds a message and shows what would go by it, if it is a mass cancel.
pub fn foresee<R: Print + AllocGlobal>(
    rt: &R,
    day: &mut Day,
    line: usize,
    request: Request<'_>,
) -> Result<(), Failure> {
    let bytes = written(rt, day, line, &request)?;
    preview(rt, day, line, bytes)?;
    Ok(())
}

/// Every event of the matcher until there is none.
pub fn run<R: Print + AllocGlobal>(rt: &R, state: &mut State, day: &mut Day) -> io::Result<()> {
    for _ in 0..u64::MAX {
        let call = Call::Venue(VenueCall::Step(state.clock));
        if !make(rt, state, day, call)? {
            break;
        }
    }
    Ok(())
}

/// Every report that a line has still to be sent.
pub fn drain<R: Print + AllocGlobal>(
    rt: &R,
    state: &mut State,
    day: &mut Day,
    line: usize,
) -> io::Result<()> {
    for _ in 0..u64::MAX {
        let call = Call::Venue(VenueCall::Send(line, buffer(rt.alloc())?));
        if !make(rt, state, day, call)? {
            break;
        }
    }
    Ok(())
}

/// Everything of a line's download.
pub fn download<R: Print + AllocGlobal>(
    rt: &R,
    state: &mut State,
    day: &mut Day,
    line: usize,
) -> io::Result<()> {
    for _ in 0..u64::MAX {
        let call = Call::Venue(VenueCall::SendRecovered(line, buffer(rt.alloc())?));
        if !make(rt, state, day, call)? {
            break;
        }
    }
    Ok(())
}
