// What a follower hears in a message.
ghost use Rattle.std.specs.Prelude.{◌≡◌};
ghost use Rattle.follower.specs.Hearing.{heard, heard_in, numbered};

use crate::heard::{Heard, NumberedReport};
use layout::fault::Fault;
use report_messages::back::told_by;
use wire::kinds::Channel;
use wire::message::{Message, read};

fn numbered(sequence: &i32, message: &Message<'_>) -> NumberedReport
    ensures { result ≡ numbered sequence.now message.now }
{
    NumberedReport {
        sequence: *sequence,
        told: told_by(message),
    }
}

fn hear_message(message: &Message<'_>) -> Heard
    ensures { result ≡ heard message.now }
{
    match message {
        Message::ExecutionReport(m) => Heard::Report(m.partition, numbered(&m.sequence, message)),
        Message::OrderCancelReject(m) => Heard::Report(m.partition, numbered(&m.sequence, message)),
        Message::OrderMassCancelReport(m) => {
            Heard::Report(m.partition, numbered(&m.sequence, message))
        }
        Message::MissedMessageRequestAck(m) => Heard::Ack(m.response),
        Message::MissedMessageReport(m) => Heard::End(m.response),
        Message::Reject(_) => Heard::Reject,
        _ => Heard::Nothing,
    }
}

/// What is heard in the bytes of a message, or the first check that they fail, as a follower reads them.
#[tactic(auto, using(crate::proofs::Hears::hears, crate::proofs::Hears::refused))]
pub fn hear(bytes: &[u8]) -> Result<Heard, Fault>
    ensures { result ≡ heard_in bytes.now }
{
    let message = read(Channel::Follower, bytes)?;
    Ok(hear_message(&message))
}
