// A desk's own table of what its orders have open, from the reports that come live and those that it downloads.
#![tactic(auto)]

pub mod answer;
mod calls;
pub mod fault;
mod folding;
pub mod heard;
pub mod hold;
pub mod laws;
pub mod line;
pub mod number;
mod ordered;
pub mod pending;
mod questions;
pub mod reading;
pub mod request;
pub mod side;
pub mod stage;
pub mod state;
mod taking;
