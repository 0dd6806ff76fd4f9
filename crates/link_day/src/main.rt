// A desk's link on one line of a gateway, both in one process: the desk logs on, writes an order, hears its report and
// logs out. What one end writes is handed to the other, and printed as text.
#![tactic(auto)]

mod desk;
mod host;

use crate::desk::{Desk, MARKET};
use crate::host::{CLOCK, LINE, Venue, open};
use anyhow::{Context, bail};
use inspector::answer::answer_message;
use link::awaiting::NotTrading;
use link::offline::Offline;
use link::trading::Trading;
use std::io;
use wire::kinds::Channel;
use wire::message::{BUFFER, Message, read};

// The message at the front of a buffer; a call says how many bytes it has, and 0 for none.
fn front(buffer: &[u8; BUFFER], length: usize) -> &[u8] {
    &buffer[..length.min(BUFFER)]
}

// Who wrote a message, and what the other end reads.
fn show<R: Print + AllocGlobal>(
    rt: &R,
    who: &str,
    reader: Channel,
    message: &[u8],
) -> io::Result<()> {
    if message.is_empty() {
        return println!(rt; "{who}: nothing");
    }
    let answer = answer_message(rt.alloc(), reader, message)?;
    println!(rt; "{who}: {}", answer.text.as_str())
}

// The desk asks for a session, and takes the answer: only an accepting one makes a link that writes orders.
fn log_on<R: Print + AllocGlobal>(
    rt: &R,
    desk: &Desk,
    gateway: &mut Venue,
) -> anyhow::Result<Trading> {
    let mut asked = [0; BUFFER];
    let mut answer = [0; BUFFER];
    let logon = Offline.logon(&desk.logon(), &mut asked).ok();
    let (length, awaiting) = logon.context("no room for a Logon")?;
    let asked = front(&asked, length);
    show(rt, "desk", Channel::RealTime, asked)?;

    let length = gateway.real_time_message(LINE, asked, CLOCK, &mut answer)?;
    let answer = front(&answer, length);
    show(rt, "gateway", Channel::Follower, answer)?;
    match awaiting.reply(answer) {
        Ok(link) => Ok(link),
        Err(NotTrading::Refused(_, code)) => bail!("the Logon is refused with {code}"),
        Err(NotTrading::Unanswered(_, _)) => bail!("the Logon is not answered"),
    }
}

// The desk writes an order. The gateway answers nothing to it: what becomes of an order is told by a report.
fn order<R: Print + AllocGlobal>(
    rt: &R,
    desk: &Desk,
    link: &Trading,
    gateway: &mut Venue,
) -> anyhow::Result<()> {
    let mut asked = [0; BUFFER];
    let mut answer = [0; BUFFER];
    let written = link.new_order(&desk.order(), &mut asked).ok();
    let asked = front(&asked, written.context("no room for an order")?);
    show(rt, "desk", Channel::RealTime, asked)?;

    let length = gateway.real_time_message(LINE, asked, CLOCK, &mut answer)?;
    show(
        rt,
        "gateway answers",
        Channel::Follower,
        front(&answer, length),
    )?;
    Ok(())
}

// The gateway sends what it has for the line, and the desk reads it.
fn hear<R: Print + AllocGlobal>(rt: &R, gateway: &mut Venue) -> anyhow::Result<()> {
    let mut sent = [0; BUFFER];
    let length = gateway.send(LINE, &mut sent)?;
    let sent = front(&sent, length);
    show(rt, "gateway sends", Channel::Follower, sent)?;
    match read(Channel::Follower, sent)? {
        Message::ExecutionReport(report) => println!(rt;
            "desk: report {} says that {} shares are open",
            report.sequence, report.leaves_quantity
        )?,
        _ => bail!("that is no Execution Report"),
    }
    Ok(())
}

fn log_out<R: Print + AllocGlobal>(
    rt: &R,
    desk: &Desk,
    link: Trading,
    gateway: &mut Venue,
) -> anyhow::Result<()> {
    let mut asked = [0; BUFFER];
    let mut answer = [0; BUFFER];
    let written = link.logout(&desk.logout(), &mut asked).ok();
    let (length, _offline) = written.context("no room for a Logout")?;
    let asked = front(&asked, length);
    show(rt, "desk", Channel::RealTime, asked)?;

    let length = gateway.real_time_message(LINE, asked, CLOCK, &mut answer)?;
    show(
        rt,
        "gateway answers",
        Channel::Follower,
        front(&answer, length),
    )?;
    Ok(())
}

fn main(rt: HostRuntime) -> anyhow::Result<()> {
    let mut gateway = open(rt.alloc())?;
    let desk = Desk::new().context("a name that is none")?;
    let link = log_on(&rt, &desk, &mut gateway)?;
    println!(rt; "desk: the Logon is accepted, so orders for {MARKET} can be written")?;
    order(&rt, &desk, &link, &mut gateway)?;
    hear(&rt, &mut gateway)?;
    log_out(&rt, &desk, link, &mut gateway)?;
    Ok(())
}
