// The words of a script of calls on a lit book, and what comes of it.
#![tactic(auto)]

pub mod account;
pub mod command;
pub mod ladder;
pub mod line;
mod words;
