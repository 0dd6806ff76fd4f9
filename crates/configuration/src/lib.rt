// What a gateway is started with: who trades, and what can be traded.
#![tactic(auto)]

pub mod config;
pub mod instrument;
mod naming;
pub mod participant;
