// What an order may ask for.
ghost use Rattle.std.specs.Prelude.{◌≡◌, true};
ghost use Rattle.requests.specs.Checks.{shares, shown, is_plain, is_above_zero, is_priced, may_cost, is_own, told_capacity};

use codes::order::{OrderCapacity, OrderType, PassiveOnly};
use codes::report::Capacity;
use orders::order::is_orderable;
use terms::pricing::Pricing;
use texts::values::Price;

fn shares(quantity: i32) -> Option<u32>
    ensures { result ≡ shares quantity }
{
    let quantity = u32::try_from(quantity).ok()?;
    if !is_orderable(quantity) {
        return None;
    }
    Some(quantity)
}

// The shares asked for, where they can be ordered and are all shown.
pub(crate) fn shown(quantity: i32, display: i32) -> Option<u32>
    ensures { result ≡ shown quantity display }
{
    if display != quantity {
        return None;
    }
    shares(quantity)
}

pub(crate) fn is_plain(least: i32, passive: PassiveOnly) -> bool
    ensures { result ≡ is_plain least passive }
{
    match passive {
        PassiveOnly::NoConstraint => least == 0,
        _ => false,
    }
}

fn is_above_zero(price: Price) -> bool
    ensures { result ≡ is_above_zero price }
{
    price.raw > 0
}

pub(crate) fn is_priced(pricing: Pricing) -> bool
    ensures { result ≡ is_priced pricing }
{
    match pricing {
        Pricing::Market => true,
        Pricing::Limit(price) => is_above_zero(price),
    }
}

pub(crate) fn may_cost(kind: OrderType, price: Price) -> bool
    ensures { result ≡ may_cost kind price }
{
    match kind {
        OrderType::Market => true,
        OrderType::Limit => is_above_zero(price),
    }
}

pub(crate) fn is_own(capacity: OrderCapacity) -> bool
    ensures { result ≡ is_own capacity }
{
    match capacity {
        OrderCapacity::CfdGiveUp => false,
        _ => true,
    }
}

pub(crate) fn told_capacity(capacity: OrderCapacity) -> Capacity
    ensures { result ≡ told_capacity capacity }
{
    match capacity {
        OrderCapacity::RisklessPrincipal => Capacity::RisklessPrincipal,
        OrderCapacity::Principal | OrderCapacity::CfdGiveUp => Capacity::Principal,
        OrderCapacity::Agency => Capacity::Agency,
    }
}
