// The trait of a pairing rule: what one book differs from another in.
ghost use Rattle.std.specs.Prelude.{◌≡◌, ◌<◌, ◌&&◌, IfSome, length};
ghost use Rattle.order_book.specs.Pairing.{BestAt, Keeps, Rule, improves, standing};

use crate::order::Order;
use texts::values::Price;

/// Whom of those at rest an order trades with, and at which price: of all that fit, the one that no other beats, and of
/// such the first to rest. It is a function of the two orders, and of what the rule itself keeps.
pub trait PairingRule {
    ghost rule: { Self → Rule };

    /// Whether an order trades with another, which is at rest: it is of the other side in the instrument, and both take
    /// the price.
    fn fits(&self, order: &Order, other: &Order) -> bool
        ensures { result ≡ (rule self.now).fits order.now other.now };

    /// Whether an order trades with the one at rest rather than with the other.
    fn beats(&self, order: &Order, one: &Order, other: &Order) -> bool
        ensures { result ≡ (rule self.now).beats order.now one.now other.now };

    /// The price at which an order trades with one at rest.
    fn price(&self, order: &Order, other: &Order) -> Price
        ensures { result ≡ (rule self.now).price order.now other.now };

    // Who trades faces the other, and its preference orders those at rest.
    ghost keeps: { (r : Self) → Keeps (rule r) };
}

// Whether the next order at rest fits, and beats the best so far.
fn improves<R: PairingRule>(
    rule: &R,
    order: &Order,
    resting: &[Order],
    best: Option<usize>,
    other: &Order,
) -> bool
    requires { IfSome best (λ i. i < length resting.now) }
    ensures { let r = R.rule rule.now in result ≡ (r.fits order.now other.now
        && improves r order.now other.now (standing resting.now other.now best)) }
{
    match best {
        Some(place) => rule.fits(order, other) && rule.beats(order, other, &resting[place]),
        None => rule.fits(order, other),
    }
}

// The place of the order at rest that is best for an order; of equals the first.
#[tactic(auto, using(crate::proofs::Places::looked, crate::proofs::Places::best_at))]
pub(crate) fn best_of<R: PairingRule>(rule: &R, order: &Order, resting: &[Order]) -> Option<usize>
    ensures { BestAt (R.rule rule.now) order.now resting.now result }
{
    let mut best = None;
    for (place, other) in resting.iter().enumerate() {
        if improves(rule, order, resting, best, other) {
            best = Some(place);
        }
    }
    best
}
