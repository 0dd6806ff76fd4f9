// Reports, and what an owner knows of its orders from them.
#![tactic(auto)]

pub mod laws;
pub mod report;
pub mod standing;
pub mod standings;
