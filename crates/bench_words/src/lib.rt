// The lines of a script: their words and what each says, the commands that they are, and the messages that words for a
// person mean; and a made-up day's requests, in the same words.
#![tactic(auto)]

pub mod bytes;
pub mod command;
mod fields;
pub mod letter;
pub mod line;
pub mod mass;
pub mod misread;
pub mod mistake;
pub mod plan;
mod prices;
pub mod session;
pub mod tape;
pub mod trading;
pub mod verb;
pub mod words;
