// The line that is followed, as a person plays it: what is under way comes, comes again or is lost, and the follower
// catches up.
use crate::asking;
use crate::calls::{buffer, make, tell};
use crate::day::Day;
use crate::failure::Failure;
use crate::state::State;
use bench_account::remark::Remark;
use bench_words::command::{Cable, Request};
use both_ends::call::{Call, Done};
use both_ends::entry::Entry;
use codes::session::Partition;
use gateway_runs::call::Call as VenueCall;
use std::io;
use wire::kinds::Channel;
use wire::message::{Message, read};

/// Does what a person asks of the line that is followed.
pub fn play<R: Print + AllocGlobal>(
    rt: &R,
    state: &mut State,
    day: &mut Day,
    line: usize,
    action: Cable,
) -> Result<(), Failure> {
    match action {
        Cable::Deliver => {
            if !deliver(rt, state, day)? {
                rt.println(Remark::NothingUnderWay)?;
            }
        }
        Cable::DeliverRecovered => {
            if !deliver_recovered(rt, state, day)? {
                rt.println(Remark::NothingUnderWay)?;
            }
        }
        Cable::Repeat(back) => repeat(rt, state, day, back)?,
        Cable::RepeatRecovered => repeat_recovered(rt, state, day)?,
        Cable::Pull => pull(rt, state, day, line)?,
        Cable::Reconnect => reconnect(rt, state, day, line)?,
        Cable::CatchUp => catch_up(rt, state, day, line)?,
    }
    Ok(())
}

// The next live message comes. Says whether there was one.
fn deliver<R: Print + AllocGlobal>(rt: &R, state: &mut State, day: &mut Day) -> io::Result<bool> {
    if !state.under_way.live.come() {
        return Ok(false);
    }
    repeat(rt, state, day, 1)?;
    Ok(true)
}

// The same of the recovery channel.
fn deliver_recovered<R: Print + AllocGlobal>(
    rt: &R,
    state: &mut State,
    day: &mut Day,
) -> io::Result<bool> {
    if !state.under_way.recovered.come() {
        return Ok(false);
    }
    repeat_recovered(rt, state, day)?;
    Ok(true)
}

// A message that came live comes, once more.
fn repeat<R: Print + AllocGlobal>(
    rt: &R,
    state: &mut State,
    day: &mut Day,
    back: usize,
) -> io::Result<()> {
    match state.under_way.live.again(back) {
        Some(message) => {
            let message = Vec::from_slice(rt.alloc(), message)?;
            let _more = make(rt, state, day, Call::Live(message))?;
            Ok(())
        }
        None => rt.println(Remark::NoneCame),
    }
}

// The message of the recovery channel that came last comes, once more.
fn repeat_recovered<R: Print + AllocGlobal>(
    rt: &R,
    state: &mut State,
    day: &mut Day,
) -> io::Result<()> {
    match state.under_way.recovered.again(1) {
        Some(message) => {
            let message = Vec::from_slice(rt.alloc(), message)?;
            let _more = make(rt, state, day, Call::Recovered(message))?;
            Ok(())
        }
        None => rt.println(Remark::NoneCame),
    }
}

// The cable is cut: what is under way is gone, and both ends are told.
fn pull<R: Print + AllocGlobal>(
    rt: &R,
    state: &mut State,
    day: &mut Day,
    line: usize,
) -> io::Result<()> {
    state.under_way.cut();
    let lost = Call::Venue(VenueCall::LineLost(line, state.clock));
    let _more = make(rt, state, day, lost)?;
    let _more = make(rt, state, day, Call::Lost)?;
    Ok(())
}

// Whether the message that was sent last accepts a Logon.
fn is_accepted(state: &State) -> bool {
    let Some(reply) = state.under_way.live.newest() else {
        return false;
    };
    match read(Channel::Follower, reply) {
        Ok(Message::LogonReply(reply)) => reply.reject_code == 0,
        _ => false,
    }
}

// Both channels are logged on, and the follower is up. The Logon Replies are for the desk's link.
fn reconnect<R: Print + AllocGlobal>(
    rt: &R,
    state: &mut State,
    day: &mut Day,
    line: usize,
) -> Result<(), Failure> {
    asking::ask(rt, state, day, line, Request::Logon)?;
    if !is_accepted(state) {
        return Ok(());
    }
    asking::ask(rt, state, day, line, Request::Recover)?;
    state.under_way.cut();
    let _more = make(rt, state, day, Call::Up)?;
    Ok(())
}

// What both ends were given to do while they caught up, each thing printed as it came.
fn tell_from<R: Print + AllocGlobal>(
    rt: &R,
    state: &mut State,
    day: &Day,
    start: usize,
) -> io::Result<()> {
    for entry in day.log().iter().skip(start) {
        if let Entry::Made(done) = entry {
            if matches!(done, Done::Recovered(_, _)) {
                let _came = state.under_way.recovered.come();
            }
            let _more = tell(rt, state, done)?;
        }
    }
    Ok(())
}

// Downloads each partition until it is level, behind what a download that is owed still brings.
fn catch_up<R: Print + AllocGlobal>(
    rt: &R,
    state: &mut State,
    day: &mut Day,
    line: usize,
) -> io::Result<()> {
    finish(rt, state, day, line)?;
    let start = day.log().len();
    day.catch_up(line, state.clock)?;
    tell_from(rt, state, day, start)?;
    let all = [Partition::One, Partition::Two, Partition::Three];
    if all
        .iter()
        .all(|partition| day.follower().is_level(*partition))
    {
        return Ok(());
    }
    rt.println(Remark::NotLevel)
}

// A download that is owed to its end, or as far as it comes.
fn finish<R: Print + AllocGlobal>(
    rt: &R,
    state: &mut State,
    day: &mut Day,
    line: usize,
) -> io::Result<()> {
    for _ in 0..u64::MAX {
        if deliver_recovered(rt, state, day)? {
            continue;
        }
        if !day.owes() {
            break;
        }
        let sent = Call::Venue(VenueCall::SendRecovered(line, buffer(rt.alloc())?));
        if !make(rt, state, day, sent)? {
            break;
        }
    }
    Ok(())
}
