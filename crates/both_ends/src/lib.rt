// Both ends: a gateway and a desk's follower, and any list of the twelve calls on them.
#![tactic(auto)]

pub mod allowed;
pub mod call;
mod catching;
pub mod connection;
pub mod entry;
pub mod laws;
mod making;
pub mod opening;
pub mod question;
mod replies;
pub mod state;
mod under_way;
mod watch;
