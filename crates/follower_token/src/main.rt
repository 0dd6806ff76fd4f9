// A day of a desk's follower: reports come live before and after a download, the line is lost, and one message more
// comes than there is room for in a hold. A second desk, whose follower is up for nothing, shows whose the token is.
#![tactic(auto)]

mod line;
mod sent;

use crate::line::{Event, day};
use crate::sent::{Said, ack, end, report};
use codes::report::{Liquidity, Status, TradeType};
use codes::session::{AckResponse, Partition, ReportResponse};
use follower::side::State;
use follower::state::Follower;
use std::alloc::{AllocError, Global};
use std::io;
use terms::execution::Execution;

fn added(order: u64, quantity: i32) -> Said {
    Said {
        order,
        execution: Execution::New,
        status: Status::New,
        quantity: 0,
        leaves: quantity,
    }
}

fn filled(order: u64, quantity: i32, leaves: i32) -> Said {
    Said {
        order,
        execution: Execution::Trade(Liquidity::Added, TradeType::Visible),
        status: Status::PartiallyFilled,
        quantity,
        leaves,
    }
}

// Reports 5 and 9 come live before the download of 2 and 5 is complete.
fn first_connection(alloc: Global, events: &mut Vec<Event>) -> Result<(), AllocError> {
    let second = report(alloc, 2, added(1, 100))?;
    let fifth = report(alloc, 5, added(2, 50))?;
    let ninth = report(alloc, 9, filled(1, 40, 60))?;
    events.push(Event::Up)?;
    events.push(Event::Live(fifth.clone()?))?;
    events.push(Event::Live(ninth.clone()?))?;
    events.push(Event::Ask(1))?;
    events.push(Event::Recovered(ack(alloc, AckResponse::Successful)?))?;
    events.push(Event::Recovered(second.clone()?))?;
    events.push(Event::Recovered(second))?;
    events.push(Event::Recovered(fifth))?;
    events.push(Event::Ask(1))?;
    events.push(Event::Recovered(end(alloc, ReportResponse::Complete)?))?;
    events.push(Event::Live(ninth))?;
    events.push(Event::Live(report(alloc, 11, filled(2, 50, 0))?))?;
    Ok(())
}

// The line is lost and comes back: what is asked is refused, and what fills order 3 does not fit, since it is not
// known.
fn second_connection(alloc: Global, events: &mut Vec<Event>) -> Result<(), AllocError> {
    events.push(Event::Lost)?;
    events.push(Event::Ask(1))?;
    events.push(Event::Up)?;
    events.push(Event::Ask(4))?;
    events.push(Event::Ask(1))?;
    events.push(Event::Recovered(ack(alloc, AckResponse::LimitReached)?))?;
    events.push(Event::Ask(1))?;
    events.push(Event::Recovered(ack(alloc, AckResponse::Successful)?))?;
    events.push(Event::Recovered(report(alloc, 12, filled(3, 10, 0))?))?;
    events.push(Event::Recovered(end(alloc, ReportResponse::MessageLimit)?))?;
    events.push(Event::Recovered(end(alloc, ReportResponse::Complete)?))?;
    events.push(Event::Ask(2))?;
    Ok(())
}

// One report more than a hold has room for: it passes, and so does what comes behind it.
fn too_many(alloc: Global, events: &mut Vec<Event>) -> Result<(), AllocError> {
    for number in 20..53 {
        events.push(Event::Live(report(alloc, number, added(9, 1))?))?;
    }
    events.push(Event::Live(Vec::new(alloc)))?;
    events.push(Event::Live(report(alloc, 60, added(9, 1))?))?;
    Ok(())
}

// The download that was asked goes on. The next one ends below what passed, so the partition is overrun still; the last
// reaches it.
fn overrun(alloc: Global, events: &mut Vec<Event>) -> Result<(), AllocError> {
    events.push(Event::Recovered(ack(alloc, AckResponse::Successful)?))?;
    events.push(Event::Recovered(end(alloc, ReportResponse::Complete)?))?;
    events.push(Event::Ask(1))?;
    events.push(Event::Recovered(ack(alloc, AckResponse::Successful)?))?;
    events.push(Event::Recovered(report(alloc, 20, added(9, 1))?))?;
    events.push(Event::Recovered(end(alloc, ReportResponse::Complete)?))?;
    events.push(Event::Live(report(alloc, 53, added(9, 1))?))?;
    events.push(Event::Ask(1))?;
    events.push(Event::Recovered(ack(alloc, AckResponse::Successful)?))?;
    events.push(Event::Recovered(report(alloc, 60, filled(9, 1, 0))?))?;
    events.push(Event::Recovered(end(alloc, ReportResponse::Complete)?))?;
    events.push(Event::Live(report(alloc, 60, filled(9, 1, 0))?))?;
    Ok(())
}

fn events(alloc: Global) -> Result<Vec<Event>, AllocError> {
    let mut events = Vec::new(alloc);
    first_connection(alloc, &mut events)?;
    second_connection(alloc, &mut events)?;
    too_many(alloc, &mut events)?;
    overrun(alloc, &mut events)?;
    Ok(events)
}

// What the follower knows at the end.
fn show<R: Print>(rt: &R, follower: &Follower) -> io::Result<()> {
    let state = match follower.state(Partition::One) {
        State::Level => "level",
        State::Behind(_) => "behind",
        State::Overrun(_) => "overrun",
    };
    println!(rt; "{state} at {}", follower.place(Partition::One))?;
    let mut from = 0;
    for _ in 0..follower.len() {
        let Some(known) = follower.first_from(from) else {
            return Ok(());
        };
        let standing = known.standing;
        println!(rt;
            "order {}: {} executed, {} open",
            known.number, standing.executed, standing.leaves
        )?;
        from = known.number.saturating_add(1);
    }
    Ok(())
}

fn main(rt: HostRuntime) -> anyhow::Result<()> {
    let mut follower = Follower::new(rt.alloc())?;
    let mut other = Follower::new(rt.alloc())?;
    let events = events(rt.alloc())?;
    day(&rt, &mut follower, &mut other, &events)?;
    show(&rt, &follower)?;
    Ok(())
}
