// The pairing rule of the lit book: the best price, and at one price the first to rest.
ghost use Rattle.std.specs.Prelude.{◌≡◌};
ghost use Rattle.lit_book.specs.Keeping.{lit_keeps};
ghost use Rattle.lit_book.specs.Orders.{crosses, prefers};
ghost use Rattle.lit_book.specs.Rules.{lit_rule};
ghost use Rattle.order_book.specs.Orders.{price};

use codes::order::Side;
use order_book::order::Order;
use order_book::rule::PairingRule;
use terms::pricing::Pricing;
use texts::values::Price;

/// An order trades with the best-priced one at rest that it crosses, the first to rest among equals, at the resting price.
#[derive(Clone, Copy)]
pub struct BestPrice;

// A lower price is better for a buy, a higher one for a sell.
fn prefers(side: Side, one: Price, other: Price) -> bool
    ensures { result ≡ prefers side one other }
{
    match side {
        Side::Buy => one.raw < other.raw,
        Side::Sell => other.raw < one.raw,
    }
}

impl PairingRule for BestPrice {
    ghost rule = { λ r. lit_rule };

    ghost keeps = { λ r. lit_keeps };

    fn fits(&self, order: &Order, other: &Order) -> bool
        ensures { result ≡ crosses order.now other.now }
    {
        if order.instrument != other.instrument || !order.opposes(other) {
            return false;
        }
        match other.pricing {
            Pricing::Market => false,
            Pricing::Limit(at) => order.accepts(at),
        }
    }

    fn beats(&self, order: &Order, one: &Order, other: &Order) -> bool
        ensures { result ≡ prefers order.now.side (price one.now) (price other.now) }
    {
        prefers(order.side, one.price(), other.price())
    }

    fn price(&self, _order: &Order, other: &Order) -> Price
        ensures { result ≡ price other.now }
    {
        other.price()
    }
}
