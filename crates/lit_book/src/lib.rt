// A lit order book: orders match by price, and at one price by the time at which they came to rest.
#![tactic(auto)]

pub mod book;
pub mod rule;
