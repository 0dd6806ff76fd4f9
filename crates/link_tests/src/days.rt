// What a link writes and takes, against messages from outside.
use codes::order::{
    AutoCancel, Book, ClearingAccount, OrderCapacity, OrderSubType, PassiveOnly, Side, TimeInForce,
};
use codes::session::Version;
use layout::fault::Fault;
use link::awaiting::{Awaiting, NoReply, NotTrading};
use link::offline::Offline;
use link::trading::Trading;
use order_messages::new_order::NewOrder;
use order_messages::order_cancel_replace_request::OrderCancelReplaceRequest;
use order_messages::order_cancel_request::OrderCancelRequest;
use order_messages::order_mass_cancel_request::{OrderMassCancelRequest, Scope};
use session_messages::logon::Logon;
use session_messages::logout::Logout;
use std::test::Fail;
use terms::pricing::Pricing;
use terms::target::Target;
use texts::fixed::{FixedText, RequestId};
use texts::values::Price;
use wire::kinds::Kind;
use wire::message::BUFFER;

const LOGON: &str =
    "024d004143300000000000000000000000000000000000000000000000503000000000000000000000000000000000000000000000000000000000000000000000000000000000000000000000000001";

const ACCEPTED: &str =
    "0223004200000000000000000000000000000000000000000000000000000000000000000000";

const REFUSED: &str =
    "022300420c000000000000000000000000000000000000000000000000000000000000000000";

const ORDER: &str =
    "025e0044633700000000000000000000000000000000000000000000000000000000000000000000000000000001533000000000020300000000020a0000000a000000010000000000000001010000000000000000000001000000000000000000";

const CANCEL: &str =
    "02460046633300000000000000000000000000000000000063380000000000000000000000000000000000000000000000000000000000005331000000000101000000000000000000";

const LOGOUT: &str = "021500350000000000000000000000000000000000000000";

const HEARTBEAT: &str = "02010030";

fn logged_on(out: &mut [u8]) -> Result<(usize, Awaiting), Fail> {
    let comp_id = FixedText::new(b"C0").ok_or("name")?;
    let password = FixedText::new(b"P0").ok_or("name")?;
    let none = FixedText::empty();
    let logon = Logon {
        comp_id: comp_id.as_text(),
        password: password.as_text(),
        new_password: none.as_text(),
        version: Version::One,
    };
    let (len, link) = Offline.logon(&logon, out).ok().ok_or("short")?;
    Ok((len, link))
}

fn trading(out: &mut [u8], reply: &[u8]) -> Result<Trading, Fail> {
    let (_, link) = logged_on(out)?;
    let link = link.reply(reply).ok().ok_or("refused")?;
    Ok(link)
}

#[test]
fn logs_on(rt: HostRuntime) -> Result<(), Fail> {
    let mut out = [7; BUFFER];
    let (len, _) = logged_on(&mut out)?;
    assert!(rt; len <= BUFFER);
    assert_eq!(rt; hex::encode(rt.alloc(), &out[..len])?.as_str(), LOGON);
    Ok(())
}

#[test]
fn is_refused(rt: HostRuntime) -> Result<(), Fail> {
    let mut out = [7; BUFFER];
    let refusal = hex::decode(rt.alloc(), REFUSED)?;
    let (_, link) = logged_on(&mut out)?;
    assert!(rt; matches!(link.reply(&refusal), Err(NotTrading::Refused(_, 12))));
    Ok(())
}

#[test]
fn awaits(rt: HostRuntime) -> Result<(), Fail> {
    let mut out = [7; BUFFER];
    let heartbeat = hex::decode(rt.alloc(), HEARTBEAT)?;
    let (_, link) = logged_on(&mut out)?;
    assert!(rt;
        matches!(
            link.reply(&heartbeat),
            Err(NotTrading::Unanswered(_, NoReply::Other(Kind::Heartbeat)))
        )
    );
    let (_, link) = logged_on(&mut out)?;
    assert!(rt;
        matches!(
            link.reply(&[]),
            Err(NotTrading::Unanswered(_, NoReply::Fault(Fault::Short)))
        )
    );
    Ok(())
}

#[test]
fn orders(rt: HostRuntime) -> Result<(), Fail> {
    let mut out = [7; BUFFER];
    let accepted = hex::decode(rt.alloc(), ACCEPTED)?;
    let link = trading(&mut out, &accepted)?;
    let id = RequestId::new(b"c7").ok_or("name")?;
    let symbol = FixedText::new(b"S0").ok_or("name")?;
    let trader = FixedText::empty();
    let account = FixedText::empty();
    let order = NewOrder {
        client_order_id: id.as_name(),
        trader_id: trader.as_text(),
        account: account.as_text(),
        clearing_account: ClearingAccount::Client,
        symbol: symbol.as_text(),
        pricing: Pricing::Limit(Price { raw: 1 }),
        time_in_force: TimeInForce::ImmediateOrCancel,
        expire_time: 0,
        side: Side::Sell,
        quantity: 10,
        display_quantity: 10,
        capacity: OrderCapacity::RisklessPrincipal,
        auto_cancel: AutoCancel::AsConfigured,
        sub_type: OrderSubType::Order,
        target: Target::Integrated,
        min_quantity: 0,
        passive_only: PassiveOnly::NoConstraint,
    };
    let len = link.new_order(&order, &mut out).ok().ok_or("short")?;
    assert!(rt; len <= BUFFER);
    assert_eq!(rt; hex::encode(rt.alloc(), &out[..len])?.as_str(), ORDER);
    Ok(())
}

#[test]
fn cancels(rt: HostRuntime) -> Result<(), Fail> {
    let mut out = [7; BUFFER];
    let accepted = hex::decode(rt.alloc(), ACCEPTED)?;
    let link = trading(&mut out, &accepted)?;
    let id = RequestId::new(b"c3").ok_or("name")?;
    let original = FixedText::new(b"c8").ok_or("name")?;
    let symbol = FixedText::new(b"S1").ok_or("name")?;
    let request = OrderCancelRequest {
        client_order_id: id.as_name(),
        original_id: original.as_text(),
        order_id: None,
        symbol: symbol.as_text(),
        side: Side::Buy,
        book: Book::Integrated,
    };
    let len = link.cancel(&request, &mut out).ok().ok_or("short")?;
    assert!(rt; len <= BUFFER);
    assert_eq!(rt; hex::encode(rt.alloc(), &out[..len])?.as_str(), CANCEL);
    let request = OrderMassCancelRequest {
        client_order_id: id.as_name(),
        scope: Scope::CompId,
    };
    assert!(rt; link.mass_cancel(&request, &mut out) == Ok(46));
    assert_eq!(rt; out[3], b'q');
    Ok(())
}

#[test]
fn replaces(rt: HostRuntime) -> Result<(), Fail> {
    let mut out = [7; BUFFER];
    let accepted = hex::decode(rt.alloc(), ACCEPTED)?;
    let link = trading(&mut out, &accepted)?;
    let id = RequestId::new(b"c3").ok_or("name")?;
    let original = FixedText::new(b"c8").ok_or("name")?;
    let account = FixedText::empty();
    let symbol = FixedText::new(b"S1").ok_or("name")?;
    let request = OrderCancelReplaceRequest {
        client_order_id: id.as_name(),
        original_id: original.as_text(),
        order_id: None,
        symbol: symbol.as_text(),
        expire_time: 0,
        quantity: 20,
        display_quantity: 20,
        limit_price: Price { raw: 1 },
        account: account.as_text(),
        time_in_force: TimeInForce::Day,
        side: Side::Buy,
        target: Target::Integrated,
        min_quantity: 0,
        passive_only: PassiveOnly::NoConstraint,
    };
    assert!(rt; link.replace(&request, &mut out) == Ok(112));
    assert_eq!(rt; out[3], b'G');
    Ok(())
}

#[test]
fn logs_out(rt: HostRuntime) -> Result<(), Fail> {
    let mut out = [7; BUFFER];
    let accepted = hex::decode(rt.alloc(), ACCEPTED)?;
    let link = trading(&mut out, &accepted)?;
    let len = link.heartbeat(&mut out).ok().ok_or("short")?;
    assert!(rt; len <= BUFFER);
    assert_eq!(rt; hex::encode(rt.alloc(), &out[..len])?.as_str(), HEARTBEAT);
    let none = FixedText::empty();
    let logout = Logout {
        reason: none.as_text(),
    };
    let (len, _) = link.logout(&logout, &mut out).ok().ok_or("short")?;
    assert!(rt; len <= BUFFER);
    assert_eq!(rt; hex::encode(rt.alloc(), &out[..len])?.as_str(), LOGOUT);
    Ok(())
}

#[test]
fn is_lost(rt: HostRuntime) -> Result<(), Fail> {
    let mut out = [7; BUFFER];
    let accepted = hex::decode(rt.alloc(), ACCEPTED)?;
    let (_, link) = logged_on(&mut out)?;
    assert_eq!(rt; link.comp_id().as_bytes(), b"C0".as_slice());
    let _ = link.lost();
    let link = trading(&mut out, &accepted)?;
    assert_eq!(rt; link.comp_id().as_bytes(), b"C0".as_slice());
    let _ = link.lost();
    Ok(())
}
