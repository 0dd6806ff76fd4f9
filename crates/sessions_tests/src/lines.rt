// A line that misses a report and asks for it again.
use codes::session::{AckResponse, Partition, ReportResponse};
use partitions::per_partition::PerPartition;
use refusals::Refusal;
use reports::report::{CancelReject, Entry, Report};
use sessions::download::HandedOut;
use sessions::session::{Channel, Session};
use std::test::Fail;
use store::Store;
use store::records::Records;
use texts::fixed::FixedText;
use texts::values::Time;

fn entry(owner: usize) -> Entry {
    let reject = CancelReject {
        client: FixedText::empty(),
        reason: Refusal::NoSuchOrder,
        time: Time {
            seconds: 0,
            microseconds: 0,
        },
    };
    Entry {
        owner,
        report: Report::CancelReject(reject),
    }
}

fn lasts(store: &Records) -> PerPartition<u32> {
    PerPartition {
        one: store.last(Partition::One),
        two: store.last(Partition::Two),
        three: store.last(Partition::Three),
    }
}

// A line that is accepted on a channel more.
fn on(line: Session, channel: Channel, store: &Records) -> Result<Session, Fail> {
    Ok(line.logon(channel, lasts(store)).ok().ok_or("refused")?)
}

// One more report for CompID 1, in partition 2.
fn tell(store: &mut Records) -> Result<(), Fail> {
    store.append(Partition::Two, entry(1)).ok_or("full")?;
    Ok(())
}

// A line that is on since a report was told, and the report that it is sent once another is.
fn sent(store: &mut Records) -> Result<Option<(Partition, u32)>, Fail> {
    tell(store)?;
    let mut line = on(Session::new(), Channel::RealTime, store)?;
    if line.next_live(1, store).is_some() {
        return Err(Fail::new("sent what was told before"));
    }
    tell(store)?;
    Ok(line.next_live(1, store))
}

#[test]
fn sent_once(rt: HostRuntime) -> Result<(), Fail> {
    let mut store = Records::new(rt.alloc(), 2)?;
    let sent = sent(&mut store);
    drop(store);
    assert!(rt; sent? == Some((Partition::Two, 2)));
    Ok(())
}

// A line that asks for what it missed, and is told that it will have it.
fn asking(store: &mut Records) -> Result<Session, Fail> {
    let line = on(Session::new(), Channel::RealTime, store)?;
    let line = line
        .logon(Channel::Recovery, lasts(store))
        .ok()
        .ok_or("refused")?;
    tell(store)?;
    let (line, answer) = line.request(Some(Partition::Two), 0, 1).ok().ok_or("busy")?;
    if answer == AckResponse::Successful {
        Ok(line)
    } else {
        Err(Fail::new("not taken"))
    }
}

// What it is then handed: a report, and the end.
fn handed(store: &mut Records) -> Result<(Option<HandedOut>, Option<HandedOut>), Fail> {
    let mut line = asking(store)?;
    let first = line.next_recovered(1, store);
    Ok((first, line.next_recovered(1, store)))
}

#[test]
fn recovered(rt: HostRuntime) -> Result<(), Fail> {
    let mut store = Records::new(rt.alloc(), 1)?;
    let handed = handed(&mut store);
    drop(store);
    let (first, last) = handed?;
    assert!(rt; matches!(first, Some(HandedOut::Report(Partition::Two, 1))));
    assert!(rt; matches!(last, Some(HandedOut::Ended(ReportResponse::Complete))));
    Ok(())
}
