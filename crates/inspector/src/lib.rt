// Reads lines that hold captured messages, or a captured stream; shows each message as text, and keeps the account.
#![tactic(auto)]

pub mod account;
pub mod answer;
pub mod capture;
mod labels;
pub mod line;
mod shown;
mod words;
