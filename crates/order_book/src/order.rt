// An order of a book, and the questions that every book asks of it.
ghost use Rattle.std.specs.Prelude.{◌≡◌, Some};
ghost use Rattle.order_book.specs.Lists.{order_number};
ghost use Rattle.order_book.specs.Orders.{accepts, goes_back, opposes, price, reprices, rests, with_limit};
ghost use Rattle.order_book.specs.Rules.{order_of};
ghost use Rattle.order_book.specs.Texts.{order_text, pricing_text};

use codes::order::Side;
use keyed::Numbered;
use matching::matcher::Ticket;
use std::fmt;
use terms::lifetime::Lifetime;
use terms::pricing::Pricing;
use texts::values::Price;

/// An open order of a book.
#[derive(Clone, Copy, Debug, PartialEq)]
pub struct Order {
    pub number: u64,
    pub instrument: u8,
    pub side: Side,
    pub pricing: Pricing,
    pub lifetime: Lifetime,
    /// The open quantity, in shares.
    pub quantity: u32,
}

impl Numbered for Order {
    ghost key = { order_number };

    fn number(&self) -> u64 {
        self.number
    }
}

// An order as a book shows it: what it wants, at which price, and its number.
impl fmt::Display for Order {
    ghost output = { λ order. Some (order_text order) };

    fn fmt<W: fmt::Write>(&self, f: &mut fmt::Formatter<W>) -> fmt::Result {
        let instrument = self.instrument;
        let side = self.side;
        let quantity = self.quantity;
        let price = Asked(self.pricing);
        let number = self.number;
        write!(f, "{instrument} {side} {quantity} at {price}: {number}")
    }
}

// The price that an order asks for.
#[derive(Clone, Copy)]
struct Asked(Pricing);

impl fmt::Display for Asked {
    ghost output = { λ asked. Some (pricing_text asked.0) };

    fn fmt<W: fmt::Write>(&self, f: &mut fmt::Formatter<W>) -> fmt::Result {
        match self.0 {
            Pricing::Market => f.write_str("market"),
            Pricing::Limit(price) => write!(f, "{price}"),
        }
    }
}

impl Order {
    /// An order of these terms under a number.
    pub fn new(number: u64, terms: Ticket) -> Order
        ensures { result ≡ order_of number terms }
    {
        Order {
            number,
            instrument: terms.instrument,
            side: terms.side,
            pricing: terms.pricing,
            lifetime: terms.lifetime,
            quantity: terms.quantity,
        }
    }

    /// Whether it takes a price: a buy at its limit or below, a sell at its limit or above, a market order any.
    pub fn accepts(&self, at: Price) -> bool
        ensures { result ≡ accepts self.now.side self.now.pricing at }
    {
        match (self.side, self.pricing) {
            (_, Pricing::Market) => true,
            (Side::Buy, Pricing::Limit(limit)) => at.raw <= limit.raw,
            (Side::Sell, Pricing::Limit(limit)) => limit.raw <= at.raw,
        }
    }

    /// Whether the other is of the other side.
    pub fn opposes(&self, other: &Order) -> bool
        ensures { result ≡ opposes self.now.side other.now.side }
    {
        match (self.side, other.side) {
            (Side::Buy, Side::Sell) => true,
            (Side::Sell, Side::Buy) => true,
            _ => false,
        }
    }

    /// The limit; 0 of a market order, which has none and never rests.
    pub fn price(&self) -> Price
        ensures { result ≡ price self.now }
    {
        self.pricing.price()
    }

    // Whether what does not trade comes to rest.
    pub(crate) fn rests(&self) -> bool
        ensures { result ≡ rests self.now }
    {
        match (self.pricing, self.lifetime) {
            (Pricing::Limit(_), Lifetime::Day) => true,
            _ => false,
        }
    }

    // Whether a price is another than its limit.
    fn reprices(&self, at: Price) -> bool
        ensures { result ≡ reprices self.now.pricing at }
    {
        match self.pricing {
            Pricing::Market => false,
            Pricing::Limit(limit) => limit.raw < at.raw || at.raw < limit.raw,
        }
    }

    // Whether such a change sends it to the back of the waiting.
    pub(crate) fn goes_back(&self, quantity: u32, at: Price) -> bool
        ensures { result ≡ goes_back self.now quantity at }
    {
        self.quantity < quantity || self.reprices(at)
    }

    // The order with another limit; a market order stays one.
    pub(crate) fn with_limit(self, at: Price) -> Order
        ensures { result ≡ with_limit self at }
    {
        match self.pricing {
            Pricing::Market => self,
            Pricing::Limit(_) => Order {
                pricing: Pricing::Limit(at),
                ..self
            },
        }
    }
}
