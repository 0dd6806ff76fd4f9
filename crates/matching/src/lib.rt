// What a matching engine means, as a trait, and an engine that plays given trades.
#![tactic(auto)]

pub mod event;
pub mod matcher;
pub mod midpoint;
pub mod tape;
