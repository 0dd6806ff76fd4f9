// Two matching engines as one: each takes the orders of its book, and what they hold is counted together.
#![tactic(auto)]

pub mod pair;
