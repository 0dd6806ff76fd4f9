// A stored report as the message that tells it to its owner, and its bytes.
#![tactic(auto)]

pub mod back;
pub mod sending;
pub mod telling;
