// What a gateway keeps of one line: on which channels it is logged on, how far reports were sent, and what it
// downloads.
#![tactic(auto)]

pub mod download;
pub mod laws;
pub mod session;
