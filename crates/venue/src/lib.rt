// The orders, the trades, a matcher and a store of one day, kept in step: the venue under the gateway's lines.
#![tactic(auto)]

mod asking;
pub mod laws;
pub mod ledger;
pub mod step;
mod trading;
pub mod venue;
