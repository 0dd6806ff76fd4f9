// Orders and trades of a day: their records, their changes and their tables.
#![tactic(auto)]

pub mod examples;
pub mod order;
pub mod row;
mod sums;
pub mod table;
pub mod trade;
