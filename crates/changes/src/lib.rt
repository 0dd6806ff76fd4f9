// What can happen to an order, what the order is after it, and the reports that tell it: whoever folds them follows.
#![tactic(auto)]

pub mod change;
pub mod laws;
