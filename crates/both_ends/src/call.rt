// A call on one of both ends, and one that was made.
use follower::answer::{Live, Recovered};
use follower::fault::FollowerFault;
use gateway_runs::call::{Call as VenueCall, Done as VenueDone};

/// A call: one of the gateway's seven, or one of the follower's five, with what is passed; a request is written to the
/// caller's buffer, of any length and content.
#[derive(Drop)]
pub enum Call {
    Venue(VenueCall),
    Up,
    Live(Vec<u8>),
    Ask(u8, Vec<u8>),
    Recovered(Vec<u8>),
    Lost,
}

/// What an asked request left: its answer, which says how many bytes stand at the front of the buffer, and the buffer as
/// it was passed and as it then is.
#[derive(Drop)]
pub struct Asked {
    pub answer: Result<usize, FollowerFault>,
    pub before: Vec<u8>,
    pub after: Vec<u8>,
}

/// A call that was made, with what came back.
#[derive(Drop)]
pub enum Done {
    Venue(VenueDone),
    Up,
    Live(Vec<u8>, Result<Live, FollowerFault>),
    Ask(u8, Asked),
    Recovered(Vec<u8>, Result<Recovered, FollowerFault>),
    Lost,
}
