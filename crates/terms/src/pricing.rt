// An order's type and its limit.
ghost use Rattle.std.specs.Prelude.{◌≡◌};

use codes::order::OrderType;
use texts::values::Price;

/// Whether an order has a limit, and which: only a limit order has one.
#[derive(Clone, Copy, Debug, PartialEq)]
pub enum Pricing {
    Market,
    Limit(Price),
}

impl Pricing {
    ghost use Rattle.terms.specs.Pricing.{order_type_of, price_of, pricing_of};

    /// What an order of a type is priced at, by the price that comes with it; a market order keeps none.
    pub fn new(order_type: OrderType, price: Price) -> Pricing
        ensures { result ≡ pricing_of order_type price }
    {
        match order_type {
            OrderType::Market => Pricing::Market,
            OrderType::Limit => Pricing::Limit(price),
        }
    }

    /// The type that such an order has.
    pub fn order_type(&self) -> OrderType
        ensures { result ≡ order_type_of self.now }
    {
        match self {
            Pricing::Market => OrderType::Market,
            Pricing::Limit(_) => OrderType::Limit,
        }
    }

    /// The limit; 0 of a market order, which has none.
    pub fn price(&self) -> Price
        ensures { result ≡ price_of self.now }
    {
        match self {
            Pricing::Market => Price { raw: 0 },
            Pricing::Limit(price) => *price,
        }
    }
}
