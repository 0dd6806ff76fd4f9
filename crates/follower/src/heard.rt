// What a follower hears: a message as it matters to it.
use crate::number::Number;
use codes::session::{AckResponse, Partition, ReportResponse};
use reports::standing::Told;

/// A numbered report: its sequence number as the message states it, and what it tells of an order, if it tells of
/// one.
#[derive(Clone, Copy)]
pub struct NumberedReport {
    pub sequence: i32,
    pub told: Option<Told>,
}

/// What a follower takes from a message: a numbered report of a partition, how a request was answered, how a
/// download ended, a refusal, or nothing.
#[derive(Clone, Copy)]
pub enum Heard {
    Report(Partition, NumberedReport),
    Ack(AckResponse),
    End(ReportResponse),
    Reject,
    Nothing,
}

impl NumberedReport {
    ghost use Rattle.std.specs.Prelude.{◌≡◌};
    ghost use Rattle.follower.specs.Numbers.{number_of};

    /// The number that the report states; one below 0 counts as 0.
    pub fn number(&self) -> Number
        ensures { result ≡ number_of self.now }
    {
        Number::stated(&self.sequence)
    }
}
