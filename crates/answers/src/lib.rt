// What a gateway answers and sends, as bytes: the answer to a message, a report under its number, the end of a download.
#![tactic(auto)]

pub mod answer;
pub mod sending;
