// Reports folded into standings, good and bad ones.
use codes::report::{ExecType, Status};
use codes::session::Partition;
use reports::standing::Told;
use reports::standings::Standings;
use std::test::Fail;
use texts::identifiers::OrderId;

fn told(kind: ExecType, quantity: i32, leaves: i32) -> Option<Told> {
    Some(Told {
        order: Some(OrderId { number: 7 }),
        kind,
        status: Status::New,
        quantity,
        leaves,
    })
}

fn refusal(standings: &mut Standings, told: Option<Told>) -> u8 {
    match standings.fold(Partition::One, told) {
        Ok(()) => 0,
        Err(refusal) => refusal.number(),
    }
}

#[test]
fn counted_once(rt: HostRuntime) -> Result<(), Fail> {
    let mut s = Standings::new(rt.alloc())?;
    assert_eq!(rt; refusal(&mut s, told(ExecType::Trade, 40, 60)), 53);
    assert_eq!(rt; refusal(&mut s, told(ExecType::New, 0, 100)), 0);
    assert_eq!(rt; refusal(&mut s, told(ExecType::New, 0, 100)), 53);
    assert_eq!(rt; refusal(&mut s, told(ExecType::Trade, 40, 60)), 0);
    assert_eq!(rt; refusal(&mut s, told(ExecType::Trade, 40, 60)), 53);
    assert_eq!(rt; refusal(&mut s, told(ExecType::Rejected, 40, 60)), 0);
    let known = s.standing(7);
    drop(s);
    let standing = known.ok_or("not known")?;
    assert_eq!(rt; standing.executed, 40);
    assert_eq!(rt; standing.leaves, 60);
    Ok(())
}

#[test]
fn undone_takes_off_executed(rt: HostRuntime) -> Result<(), Fail> {
    let mut s = Standings::new(rt.alloc())?;
    assert_eq!(rt; refusal(&mut s, told(ExecType::New, 0, 100)), 0);
    assert_eq!(rt; refusal(&mut s, told(ExecType::Trade, 40, 60)), 0);
    assert_eq!(rt; refusal(&mut s, told(ExecType::TradeCancel, 41, 60)), 53);
    assert_eq!(rt; refusal(&mut s, told(ExecType::TradeCancel, 40, 60)), 0);
    assert_eq!(rt; refusal(&mut s, told(ExecType::Unspecified, 0, -1)), 53);
    let known = s.standing(7);
    drop(s);
    let standing = known.ok_or("not known")?;
    assert_eq!(rt; standing.executed, 0);
    assert_eq!(rt; standing.leaves, 60);
    Ok(())
}
