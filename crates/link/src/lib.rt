// A desk's link to a gateway: it logs on, and then writes requests. Its states are types, moved from one to the next, and
// only the last of them writes orders.
#![tactic(auto)]

pub mod awaiting;
pub mod offline;
mod sending;
pub mod trading;
