// What the desk asks for. A message borrows its texts, so the desk keeps them.
use codes::order::{
    AutoCancel, ClearingAccount, OrderCapacity, OrderSubType, PassiveOnly, Side, TimeInForce,
};
use codes::session::Version;
use order_messages::new_order::NewOrder;
use session_messages::logon::Logon;
use session_messages::logout::Logout;
use terms::pricing::Pricing;
use terms::target::Target;
use texts::fixed::{FixedText, RequestId};
use texts::values::Price;

pub const NAME: &str = "DESK";

pub const PASSWORD: &str = "secret";

pub const MARKET: &str = "VOD";

/// A desk with its names.
#[derive(Clone, Copy)]
pub struct Desk {
    comp_id: FixedText<25>,
    password: FixedText<25>,
    symbol: FixedText<6>,
    client_order_id: RequestId,
    none: FixedText<25>,
    no_trader: FixedText<11>,
    no_account: FixedText<10>,
    no_reason: FixedText<20>,
}

impl Desk {
    /// None where a name does not fit its field.
    pub fn new() -> Option<Desk> {
        Some(Desk {
            comp_id: FixedText::new(NAME.as_bytes())?,
            password: FixedText::new(PASSWORD.as_bytes())?,
            symbol: FixedText::new(MARKET.as_bytes())?,
            client_order_id: RequestId::new(b"buy-1")?,
            none: FixedText::empty(),
            no_trader: FixedText::empty(),
            no_account: FixedText::empty(),
            no_reason: FixedText::empty(),
        })
    }

    pub fn logon(&self) -> Logon<'_> {
        Logon {
            comp_id: self.comp_id.as_text(),
            password: self.password.as_text(),
            new_password: self.none.as_text(),
            version: Version::One,
        }
    }

    /// Buys 100 at 101, until the day's end.
    pub fn order(&self) -> NewOrder<'_> {
        NewOrder {
            client_order_id: self.client_order_id.as_name(),
            trader_id: self.no_trader.as_text(),
            account: self.no_account.as_text(),
            clearing_account: ClearingAccount::Client,
            symbol: self.symbol.as_text(),
            pricing: Pricing::Limit(Price {
                raw: 10_100_000_000,
            }),
            time_in_force: TimeInForce::Day,
            expire_time: 0,
            side: Side::Buy,
            quantity: 100,
            display_quantity: 100,
            capacity: OrderCapacity::RisklessPrincipal,
            auto_cancel: AutoCancel::AsConfigured,
            sub_type: OrderSubType::Order,
            target: Target::Integrated,
            min_quantity: 0,
            passive_only: PassiveOnly::NoConstraint,
        }
    }

    pub fn logout(&self) -> Logout<'_> {
        Logout {
            reason: self.no_reason.as_text(),
        }
    }
}
