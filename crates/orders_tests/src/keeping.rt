// A store that fills up, and what it hands out.
use codes::session::Partition;
use limits::MESSAGE_BYTES;
use refusals::Refusal;
use reports::report::{CancelReject, Entry, Report};
use std::test::Fail;
use store::Store;
use store::records::Records;
use texts::fixed::FixedText;
use texts::values::Time;

fn entry(owner: usize, reason: Refusal) -> Entry {
    let reject = CancelReject {
        client: FixedText::empty(),
        reason,
        time: Time {
            seconds: 0,
            microseconds: 0,
        },
    };
    Entry {
        owner,
        report: Report::CancelReject(reject),
    }
}

fn same<T: PartialEq + Drop>(got: T, wanted: T) -> Result<(), Fail> {
    if got == wanted {
        Ok(())
    } else {
        Err(Fail::new("not what was wanted"))
    }
}

// A store of three places, empty.
fn numbers_and_owners<S: Store>(store: &mut S) -> Result<(), Fail> {
    same(
        store.append(Partition::Two, entry(0, Refusal::NoSuchOrder)),
        Some(1),
    )?;
    same(
        store.append(Partition::Two, entry(1, Refusal::NotOpen)),
        Some(2),
    )?;
    same(
        store.append(Partition::One, entry(1, Refusal::TimeInForceDiffers)),
        Some(1),
    )?;
    same(store.last(Partition::Two), 2)?;
    same(store.next(Partition::Two, 1, 0), Some(2))?;
    same(store.next(Partition::Two, 1, 2), None)?;
    same(store.read(Partition::Three, 1).is_none(), true)?;
    let read = store.read(Partition::Two, 2).ok_or("not read")?;
    same(read.owner, 1)?;
    let Report::CancelReject(reject) = read.report else {
        return Err(Fail::new("read as another report"));
    };
    same(reject.reason, Refusal::NotOpen)?;
    Ok(())
}

// The same message of each number, with the same bytes behind it, and nothing where there is no report.
fn same_messages<S: Store, T: Store>(one: &S, other: &T) -> Result<(), Fail> {
    for partition in [Partition::One, Partition::Two, Partition::Three] {
        for number in 0..4 {
            let mut here = [7; 2 * MESSAGE_BYTES];
            let mut there = [7; 2 * MESSAGE_BYTES];
            let len = one.write_message(partition, number, &mut here);
            same(len == 0, number == 0 || number > one.last(partition))?;
            same(other.write_message(partition, number, &mut there), len)?;
            same(here == there, true)?;
        }
    }
    Ok(())
}

#[test]
fn records_keep(rt: HostRuntime) -> Result<(), Fail> {
    let mut store = Records::new(rt.alloc(), 3)?;
    let kept = numbers_and_owners(&mut store);
    assert_eq!(rt; store.places(), 0);
    assert_eq!(rt;
        store.append(Partition::Three, entry(1, Refusal::TimeInForceDiffers)),
        None
    );
    drop(store);
    kept
}

#[test]
fn wire_bytes_keep(rt: HostRuntime) -> Result<(), Fail> {
    let mut store = wire_store::new(rt.alloc(), 3 * MESSAGE_BYTES)?;
    assert_eq!(rt; store.places(), 3);
    let kept = numbers_and_owners(&mut store);
    assert_eq!(rt; store.places(), 1);
    assert_eq!(rt;
        store.append(Partition::Three, entry(1, Refusal::TimeInForceDiffers)),
        Some(1)
    );
    assert_eq!(rt; store.places(), 1);
    drop(store);
    kept
}

#[test]
fn both_hand_out_the_same(rt: HostRuntime) -> Result<(), Fail> {
    let mut records = Records::new(rt.alloc(), 3)?;
    let mut bytes = wire_store::new(rt.alloc(), 3 * MESSAGE_BYTES)?;
    numbers_and_owners(&mut records)?;
    numbers_and_owners(&mut bytes)?;
    same_messages(&records, &bytes)
}
