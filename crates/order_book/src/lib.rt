// The orders of a book: those at rest and those that wait, how each call moves them, and what comes next by a pairing
// rule.
#![tactic(auto)]

pub mod book;
pub mod order;
pub mod rule;
mod turns;
