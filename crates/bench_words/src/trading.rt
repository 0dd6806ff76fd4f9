// Requests with texts of their own, which their messages lend.
ghost use Rattle.std.specs.Prelude.{◌≡◌, [], IfOk};
ghost use Rattle.std.specs.Result.{result_err};
ghost use Rattle.texts.specs.Bytes.{said};
ghost use Rattle.bench_words.specs.Marks.{auto_cancel_of, target_of, time_in_force_of};

use crate::fields;
use crate::misread::Misread;
use codes::order::{
    AutoCancel, Book, ClearingAccount, ExecInstruction, OrderCapacity, OrderSubType, PassiveOnly,
    Side, TimeInForce,
};
use order_messages::new_order::NewOrder;
use order_messages::order_cancel_replace_request::OrderCancelReplaceRequest;
use order_messages::order_cancel_request::OrderCancelRequest;
use terms::lifetime::Lifetime;
use terms::pricing::Pricing;
use terms::target::Target;
use texts::fixed::{FixedText, RequestId};
use texts::names::{Account, ClientOrderId, Symbol, TraderId};
use texts::values::Price;

/// An order of a house account, as principal.
#[derive(Clone, Copy)]
pub struct Order {
    client: RequestId,
    symbol: Symbol,
    side: Side,
    shares: i32,
    pricing: Pricing,
    lifetime: Lifetime,
    marked: bool,
    book: Book,
    trader: TraderId,
    account: Account,
    ghost nobody: { said trader.bytes ≡ [] },
    ghost none: { said account.bytes ≡ [] },
}

fn auto_cancel(marked: bool) -> AutoCancel
    ensures { result ≡ auto_cancel_of marked }
{
    if marked {
        AutoCancel::AsConfigured
    } else {
        AutoCancel::Keep
    }
}

fn time_in_force(lifetime: Lifetime) -> TimeInForce
    ensures { result ≡ time_in_force_of lifetime }
{
    match lifetime {
        Lifetime::Day => TimeInForce::Day,
        Lifetime::ImmediateOrCancel => TimeInForce::ImmediateOrCancel,
    }
}

fn target(book: Book) -> Target
    ensures { result ≡ target_of book }
{
    match book {
        Book::DarkMidpoint => Target::DarkMidpoint(ExecInstruction::ContinuousAndPeriodic),
        Book::Integrated => Target::Integrated,
    }
}

impl Order {
    ghost use Rattle.order_messages.specs.Requests.{new_order_contents};
    ghost use Rattle.bench_words.specs.Letters.{order_contents, order_wrong, order_asked};

    /// An order whose words fit, or the first that does not.
    pub fn new(
        side: Side,
        symbol: &str,
        shares: i32,
        pricing: Pricing,
        client: &str,
        lifetime: Lifetime,
        marked: bool,
        book: Book,
    ) -> Result<Order, Misread>
        ensures wrong { result_err result ≡ order_wrong symbol.now client.now }
        ensures asked { IfOk result (λ o. order_contents o
            ≡ order_asked side symbol.now shares pricing client.now lifetime marked book) }
    {
        let symbol = fields::symbol(symbol)?;
        let client = fields::client(client)?;
        Ok(Order {
            client,
            symbol,
            side,
            shares,
            pricing,
            lifetime,
            marked,
            book,
            trader: FixedText::empty(),
            account: FixedText::empty(),
        })
    }

    /// The message, which lends the order's texts.
    pub fn message(&self) -> NewOrder<'_>
        ensures { new_order_contents result ≡ order_contents self.now }
    {
        NewOrder {
            client_order_id: self.client.as_name(),
            trader_id: self.trader.as_text(),
            account: self.account.as_text(),
            clearing_account: ClearingAccount::House,
            symbol: self.symbol.as_text(),
            pricing: self.pricing,
            time_in_force: time_in_force(self.lifetime),
            expire_time: 0,
            side: self.side,
            quantity: self.shares,
            display_quantity: self.shares,
            capacity: OrderCapacity::Principal,
            auto_cancel: auto_cancel(self.marked),
            sub_type: OrderSubType::Order,
            target: target(self.book),
            min_quantity: 0,
            passive_only: PassiveOnly::NoConstraint,
        }
    }
}

/// A cancel of an order that is named by its Client Order ID.
#[derive(Clone, Copy)]
pub struct Cancel {
    client: RequestId,
    original: ClientOrderId,
    symbol: Symbol,
    side: Side,
    book: Book,
}

impl Cancel {
    ghost use Rattle.order_messages.specs.Requests.{order_cancel_request_contents};
    ghost use Rattle.bench_words.specs.Letters.{cancel_contents, cancel_wrong, cancel_asked};

    /// A cancel whose words fit, or the first that does not.
    pub fn new(
        symbol: &str,
        side: Side,
        client: &str,
        original: &str,
        book: Book,
    ) -> Result<Cancel, Misread>
        ensures wrong { result_err result ≡ cancel_wrong symbol.now client.now original.now }
        ensures asked { IfOk result (λ c. cancel_contents c ≡ cancel_asked symbol.now side client.now original.now book) }
    {
        let symbol = fields::symbol(symbol)?;
        let client = fields::client(client)?;
        let original = fields::original(original)?;
        Ok(Cancel {
            client,
            original,
            symbol,
            side,
            book,
        })
    }

    /// The message, which lends the cancel's texts.
    pub fn message(&self) -> OrderCancelRequest<'_>
        ensures { order_cancel_request_contents result ≡ cancel_contents self.now }
    {
        OrderCancelRequest {
            client_order_id: self.client.as_name(),
            original_id: self.original.as_text(),
            order_id: None,
            symbol: self.symbol.as_text(),
            side: self.side,
            book: self.book,
        }
    }
}

/// A replacement of the quantity and the price of an order that is named by its Client Order ID.
#[derive(Clone, Copy)]
pub struct Replace {
    client: RequestId,
    original: ClientOrderId,
    symbol: Symbol,
    side: Side,
    shares: i32,
    price: Price,
    lifetime: Lifetime,
    book: Book,
    account: Account,
    ghost none: { said account.bytes ≡ [] },
}

impl Replace {
    ghost use Rattle.order_messages.specs.Requests.{order_cancel_replace_request_contents};
    ghost use Rattle.bench_words.specs.Letters.{cancel_wrong, replace_contents, replace_asked};

    /// A replacement whose words fit, or the first that does not.
    pub fn new(
        symbol: &str,
        side: Side,
        shares: i32,
        price: Price,
        client: &str,
        original: &str,
        lifetime: Lifetime,
        book: Book,
    ) -> Result<Replace, Misread>
        ensures wrong { result_err result ≡ cancel_wrong symbol.now client.now original.now }
        ensures asked { IfOk result (λ r. replace_contents r
            ≡ replace_asked symbol.now side shares price client.now original.now lifetime book) }
    {
        let symbol = fields::symbol(symbol)?;
        let client = fields::client(client)?;
        let original = fields::original(original)?;
        Ok(Replace {
            client,
            original,
            symbol,
            side,
            shares,
            price,
            lifetime,
            book,
            account: FixedText::empty(),
        })
    }

    /// The message, which lends the replacement's texts.
    pub fn message(&self) -> OrderCancelReplaceRequest<'_>
        ensures { order_cancel_replace_request_contents result ≡ replace_contents self.now }
    {
        OrderCancelReplaceRequest {
            client_order_id: self.client.as_name(),
            original_id: self.original.as_text(),
            order_id: None,
            symbol: self.symbol.as_text(),
            expire_time: 0,
            quantity: self.shares,
            display_quantity: self.shares,
            limit_price: self.price,
            account: self.account.as_text(),
            time_in_force: time_in_force(self.lifetime),
            side: self.side,
            target: target(self.book),
            min_quantity: 0,
            passive_only: PassiveOnly::NoConstraint,
        }
    }
}
