// A venue's order gateway on the native binary protocol, over any matching engine and any message store.
#![tactic(auto)]

pub mod calls;
pub mod fault;
pub mod gateway;
mod hearing;
mod lines;
pub mod preview;
