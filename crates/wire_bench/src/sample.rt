// The messages that are written and read, with their texts short or full.
use codes::order::{
    AutoCancel, Book, ClearingAccount, OrderCapacity, OrderSubType, PassiveOnly, Side, TimeInForce,
};
use codes::report::{Capacity, Liquidity, PriceDifferential, Status, TradeType};
use codes::session::Partition;
use order_messages::execution_report::ExecutionReport;
use order_messages::new_order::NewOrder;
use terms::execution::Execution;
use terms::pricing::Pricing;
use terms::target::Target;
use texts::fixed::{FixedText, RequestId};
use texts::values::{Price, Time};

/// The texts that a message lends: 20, 11, 10, 6 and 12 bytes where they are full.
#[derive(Clone, Copy)]
pub struct Texts {
    client: RequestId,
    name: FixedText<20>,
    trader: FixedText<11>,
    account: FixedText<10>,
    symbol: FixedText<6>,
    number: FixedText<12>,
}

impl Texts {
    /// Texts that leave some of their fields null.
    pub fn short() -> Texts {
        Texts {
            client: RequestId::new(b"ORDER-0000000001").unwrap(),
            name: FixedText::new(b"ORDER-0000000001").unwrap(),
            trader: FixedText::new(b"TRADER7").unwrap(),
            account: FixedText::new(b"ACCOUNT1").unwrap(),
            symbol: FixedText::new(b"VOD").unwrap(),
            number: FixedText::new(b"E000004gf").unwrap(),
        }
    }

    /// Texts that fill their fields.
    pub fn full() -> Texts {
        Texts {
            client: RequestId::new(b"ORDER-00000000000001").unwrap(),
            name: FixedText::new(b"ORDER-00000000000001").unwrap(),
            trader: FixedText::new(b"TRADER-0007").unwrap(),
            account: FixedText::new(b"ACCOUNT-01").unwrap(),
            symbol: FixedText::new(b"VODLSE").unwrap(),
            number: FixedText::new(b"E000004gfFC5").unwrap(),
        }
    }

    /// A limit order for so many shares.
    pub fn order(&self, quantity: i32) -> NewOrder<'_> {
        NewOrder {
            client_order_id: self.client.as_name(),
            trader_id: self.trader.as_text(),
            account: self.account.as_text(),
            clearing_account: ClearingAccount::Client,
            symbol: self.symbol.as_text(),
            pricing: Pricing::Limit(Price {
                raw: 10_050_000_000,
            }),
            time_in_force: TimeInForce::Day,
            expire_time: 0,
            side: Side::Buy,
            quantity,
            display_quantity: quantity,
            capacity: OrderCapacity::Principal,
            auto_cancel: AutoCancel::AsConfigured,
            sub_type: OrderSubType::Order,
            target: Target::Integrated,
            min_quantity: 0,
            passive_only: PassiveOnly::NoConstraint,
        }
    }

    /// A report of a trade that leaves so many shares open.
    pub fn report(&self, leaves: i32) -> ExecutionReport<'_> {
        ExecutionReport {
            partition: Partition::One,
            sequence: 1,
            execution_id: self.number.as_text(),
            client_order_id: self.name.as_text(),
            order_id: self.number.as_text(),
            execution: Some(Execution::Trade(Liquidity::Added, TradeType::Visible)),
            reference_id: self.number.as_text(),
            status: Status::PartiallyFilled,
            executed_price: Price {
                raw: 10_050_000_000,
            },
            executed_quantity: 30,
            leaves_quantity: leaves,
            display_quantity: 100,
            symbol: self.symbol.as_text(),
            side: Side::Buy,
            secondary_order_id: 0,
            counterparty: self.trader.as_text(),
            trade_match_id: 1,
            transact_time: Time {
                seconds: 1_356_998_400,
                microseconds: 0,
            },
            book: Book::Integrated,
            capacity: Capacity::Principal,
            price_differential: PriceDifferential::Unspecified,
        }
    }
}
