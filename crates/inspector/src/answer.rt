// What a line of input is answered.
ghost use Rattle.std.specs.Prelude.{◌≡◌, true, length, IfOk, string_bytes};
ghost use Rattle.std.specs.Str.{bytes_eq};
ghost use Rattle.layout.specs.Layout.{Says, within};
ghost use Rattle.wire.specs.Kinds.{table_of};
ghost use Rattle.wire.specs.Messages.{kind_of, contents_of, written};
ghost use Rattle.inspector.specs.Shown.{message_text};
ghost use Rattle.inspector.specs.Answers.{AnswersFrom, AnswersRead, Answered, Refuses, Shows};

use crate::account::Outcome;
use crate::line::{Line, is_text, parse};
use crate::shown::Shown;
use layout::fault::Fault;
use layout::reader::Reader;
use limits::MESSAGE_BYTES;
use std::alloc::{AllocError, Global};
use wire::kinds::Channel;
use wire::message::{Message, read, write};

/// The text to print for a line, and how the line counts.
#[derive(Drop)]
pub struct Answer {
    pub text: String,
    pub outcome: Outcome,
}

// A message as a line of text, from the bytes that it was read from.
#[tactic(auto, using(crate::proofs::Shows::says_shown))]
fn render(heap: Global, message: &Message<'_>, bytes: &[u8]) -> Result<String, AllocError>
    requires inside { within (length bytes.now) (table_of (kind_of message.now)) ≡ true }
    requires says { Says (contents_of message.now) (table_of (kind_of message.now)) bytes.now }
    ensures { IfOk result (λ s. string_bytes s ≡ message_text (kind_of message.now) (contents_of message.now)) }
{
    let kind = message.kind();
    let shown = Shown {
        kind,
        reader: Reader { src: bytes },
    };
    shown.to_string(heap)
}

// Whether a message that was read from these bytes is written to the very same.
fn is_same_again(message: &Message<'_>, bytes: &[u8]) -> bool
    ensures { result ≡ bytes_eq (written message.now) bytes.now }
{
    let mut out = [0; MESSAGE_BYTES];
    let n = write(message, &mut out).unwrap();
    is_text(&out[..n], bytes)
}

// What is wrong with the bytes of a message, with an offset.
pub(crate) fn refusal(heap: Global, fault: Fault, offset: u64) -> Result<Answer, AllocError>
    ensures { IfOk result (λ a. Refuses fault offset a) }
{
    let number = fault.number();
    Ok(Answer {
        text: format!(in heap; "refused {number} at {offset}")?,
        outcome: Outcome::Refused(fault),
    })
}

// What a message that was read says, and whether it comes out the same.
fn reading(heap: Global, message: &Message<'_>, bytes: &[u8]) -> Result<Answer, AllocError>
    requires inside { within (length bytes.now) (table_of (kind_of message.now)) ≡ true }
    requires says { Says (contents_of message.now) (table_of (kind_of message.now)) bytes.now }
    ensures { IfOk result (λ a. Shows message.now bytes.now a) }
{
    Ok(Answer {
        text: render(heap, message, bytes)?,
        outcome: Outcome::Read(is_same_again(message, bytes)),
    })
}

/// What the bytes of a message are answered: the message as text, or the check that refuses it and the offset.
#[tactic(auto, using(crate::proofs::Buffers::read_inside))]
pub fn answer_message(heap: Global, channel: Channel, bytes: &[u8]) -> Result<Answer, AllocError>
    ensures { IfOk result (λ a. AnswersRead channel bytes.now a) }
{
    match read(channel, bytes) {
        Err(fault) => refusal(heap, fault, fault.offset() as u64),
        Ok(message) => reading(heap, &message, bytes),
    }
}

/// The same of a message whose first byte stands at an offset of a stream: what is wrong with it is told by its own
/// offset there.
#[tactic(auto, using(crate::proofs::Buffers::read_inside))]
pub(crate) fn answer_from(
    heap: Global,
    channel: Channel,
    bytes: &[u8],
    at: u64,
) -> Result<Answer, AllocError>
    ensures { IfOk result (λ a. AnswersFrom at channel bytes.now a) }
{
    match read(channel, bytes) {
        Err(fault) => refusal(heap, fault, at.saturating_add(fault.offset() as u64)),
        Ok(message) => reading(heap, &message, bytes),
    }
}

/// The answer to a line, or none where it is skipped.
pub fn answer_to(heap: Global, line: &[u8]) -> Result<Option<Answer>, AllocError>
    ensures { IfOk result (λ a. Answered line.now a) }
{
    match parse(heap, line)? {
        Line::Skipped => Ok(None),
        Line::Unclear(why) => Ok(Some(Answer {
            text: why.to_string(heap)?,
            outcome: Outcome::NotUnderstood,
        })),
        Line::Message(channel, bytes) => Ok(Some(answer_message(heap, channel, bytes.as_slice())?)),
    }
}
