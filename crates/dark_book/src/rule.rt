// The pairing rule of the dark book: at the midpoint, the largest order first, and of equals the first to rest.
ghost use Rattle.std.specs.Prelude.{◌≡◌, ◌&&◌, length, nat_lt, None, Some, replicate, slice_set};
ghost use Rattle.dark_book.specs.Keeping.{dark_keeps};
ghost use Rattle.dark_book.specs.Rules.{at_midpoint, dark_rule, meets, midpoint_of, takes_part};

use limits::INSTRUMENTS;
use order_book::order::Order;
use order_book::rule::PairingRule;
use texts::values::Price;

/// Each instrument's midpoint, if it has one. By them an order trades with the largest one at rest that takes part, the
/// first to rest among equals, at the midpoint of its instrument.
#[derive(Drop)]
pub struct Midpoint {
    pub(crate) prices: [Option<Price>; INSTRUMENTS],
}

// Whether an order takes part at a midpoint.
fn takes_part(midpoint: Option<Price>, order: &Order) -> bool
    ensures { result ≡ takes_part midpoint order.now }
{
    match midpoint {
        Some(price) => order.accepts(price),
        None => false,
    }
}

impl Midpoint {
    // No instrument has one.
    pub(crate) fn none() -> Midpoint
        ensures { result.prices ≡ replicate 32 None }
    {
        Midpoint {
            prices: [None; INSTRUMENTS],
        }
    }

    // The midpoint of an instrument, if it has one.
    fn of(&self, instrument: u8) -> Option<Price>
        ensures { result ≡ midpoint_of self.now.prices instrument }
    {
        match self.prices.get(instrument as usize) {
            Some(midpoint) => *midpoint,
            None => None,
        }
    }
}

impl PairingRule for Midpoint {
    ghost rule = { λ r. dark_rule r.prices };

    ghost keeps = { λ r. dark_keeps r.prices };

    fn fits(&self, order: &Order, other: &Order) -> bool
        ensures { result ≡ meets (midpoint_of self.now.prices order.now.instrument) order.now other.now }
    {
        if order.instrument != other.instrument || !order.opposes(other) {
            return false;
        }
        let midpoint = self.of(order.instrument);
        takes_part(midpoint, order) && takes_part(midpoint, other)
    }

    fn beats(&self, _order: &Order, one: &Order, other: &Order) -> bool
        ensures { result ≡ nat_lt other.now.quantity one.now.quantity }
    {
        other.quantity < one.quantity
    }

    fn price(&self, order: &Order, _other: &Order) -> Price
        ensures { result ≡ at_midpoint (midpoint_of self.now.prices order.now.instrument) }
    {
        match self.of(order.instrument) {
            Some(price) => price,
            None => Price { raw: 0 },
        }
    }
}
