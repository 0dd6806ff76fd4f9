// Plays the lines of a script on both ends: a gateway, over either engine and either store, and a desk's follower of one
// of its lines.
#![tactic(auto)]

pub mod asking;
pub mod cable;
pub mod calls;
pub mod came;
pub mod day;
pub mod failure;
pub mod opening;
pub mod play;
pub mod preview;
pub mod ruling;
pub mod show;
pub mod sides;
pub mod state;
pub mod tables;
pub mod under_way;
