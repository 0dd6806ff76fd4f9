// What two or more fields of a message tell together, as one value: an order's price, its book, why a report is sent; and how
// long an order waits.
#![tactic(auto)]

pub mod execution;
pub mod lifetime;
pub mod pricing;
pub mod target;
