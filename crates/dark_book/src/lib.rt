// A dark midpoint book: orders match at the instrument's midpoint price, the largest first.
#![tactic(auto)]

pub mod book;
pub mod rule;
