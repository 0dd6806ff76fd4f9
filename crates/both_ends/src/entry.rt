// A call, a midpoint or a question, and what is kept of it.
use crate::call::{Call, Done};
use matching::midpoint::MidpointRefusal;
use texts::values::Price;

/// What both ends are given to do: one of the twelve calls, an instrument's midpoint price that the matcher is told, or that
/// there is none, or a question.
#[derive(Drop)]
pub enum Step<Q> {
    Make(Call),
    Midpoint(usize, Option<Price>),
    Ask(Q),
}

/// What they were given to do, with what came back.
#[derive(Drop)]
pub enum Entry<Q, A> {
    Made(Done),
    Midpoint(usize, Option<Price>, Result<(), MidpointRefusal>),
    Asked(Q, A),
}
