// A call of a gateway, and one that was made.
use gateway::fault::GatewayFault;
use texts::values::Time;
use venue::step::Step;

/// A call of a gateway, with what is passed; last, where something is written, the caller's buffer, of any length and
/// content. A line is named by its place.
#[derive(Drop)]
pub enum Call {
    RealTime(usize, Vec<u8>, Time, Vec<u8>),
    Recovery(usize, Vec<u8>, Time, Vec<u8>),
    Step(Time),
    CancelTrade(u64, Time),
    LineLost(usize, Time),
    Send(usize, Vec<u8>),
    SendRecovered(usize, Vec<u8>),
}

/// What a call that writes left: its answer, which says how many bytes stand at the front of the buffer, and the buffer
/// as it was passed and as it then is.
#[derive(Drop)]
pub struct Reply {
    pub answer: Result<usize, GatewayFault>,
    pub before: Vec<u8>,
    pub after: Vec<u8>,
}

/// A call that was made, with what came back.
#[derive(Drop)]
pub enum Done {
    RealTime(usize, Vec<u8>, Time, Reply),
    Recovery(usize, Vec<u8>, Time, Reply),
    Step(Time, Result<Step, GatewayFault>),
    CancelTrade(u64, Time, Result<(), GatewayFault>),
    LineLost(usize, Time, Result<(), GatewayFault>),
    Send(usize, Reply),
    SendRecovered(usize, Reply),
}
