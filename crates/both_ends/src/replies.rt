// What calls answered.
ghost use Rattle.std.specs.Prelude.{◌≡◌, take};
ghost use Rattle.std.specs.Str.{bytes_eq};
ghost use Rattle.follower.specs.Hearing.{heard_in};
ghost use Rattle.both_ends.specs.Allowed.{accepted, is_failed_logon, is_grant, is_no_message, is_reject, left_reject};
ghost use Rattle.both_ends.specs.Downloading.{written};
ghost use Rattle.gateway_runs.specs.Runs.{bytes_of};

use crate::call::Asked;
use answers::answer::{Admission, Answer};
use codes::session::AckResponse;
use follower::answer::Live;
use follower::fault::FollowerFault;
use follower::heard::Heard;
use follower::reading::hear;
use gateway::fault::{GatewayFault, SessionFault};
use gateway_runs::call::Reply;
use wire::kinds::Kind;
use wire::message::BUFFER;

/// Whether two messages have the same bytes.
pub(crate) fn same(message: &[u8], other: &[u8]) -> bool
    ensures { result ≡ bytes_eq message.now other.now }
{
    message == other
}

// So many bytes of the buffer, or all where it has fewer.
fn front<'a>(reply: &'a Reply, count: usize) -> &'a [u8]
    ensures { result.now ≡ take count reply.now.after.items }
{
    &reply.after[..count.min(reply.after.len())]
}

/// The bytes that a call that writes left; a refused one none.
pub(crate) fn bytes<'a>(reply: &'a Reply) -> &'a [u8]
    ensures { result.now ≡ bytes_of reply.now }
{
    match reply.answer {
        Ok(count) => front(reply, count),
        Err(_) => &[],
    }
}

/// The request that a call which asks wrote; a refused one none.
pub(crate) fn written<'a>(asked: &'a Asked) -> &'a [u8]
    ensures { result.now ≡ written asked.now.answer asked.now.after.items }
{
    match asked.answer {
        Ok(count) => &asked.after[..count.min(asked.after.len())],
        Err(_) => &[],
    }
}

/// Whether a reply accepts a Logon.
pub(crate) fn is_accepted(reply: &[u8]) -> bool
    ensures { result ≡ bytes_eq reply.now accepted }
{
    let mut buffer = [0; BUFFER];
    let count = Answer::LogonReply(Admission::Accepted).write(&mut buffer);
    same(reply, &buffer[..count])
}

/// Whether what was given is a Logon by its type, and was answered as no message.
pub(crate) fn is_failed_logon(reply: &Reply, message: &[u8]) -> bool
    ensures { result ≡ is_failed_logon reply.now.answer message.now }
{
    let is_no_message = matches!(
        reply.answer,
        Err(GatewayFault::Session(SessionFault::Wire(_)))
    );
    is_no_message && message.get(3).copied().unwrap_or(0) == Kind::Logon.letter()
}

/// The Reject that stands at the front of the buffer where what was given was no message.
pub(crate) fn left_reject<'a>(reply: &'a Reply) -> &'a [u8]
    ensures { result.now ≡ left_reject reply.now }
{
    front(reply, Kind::Reject.total())
}

/// Whether a message is heard as a Reject.
pub(crate) fn is_reject(message: &[u8]) -> bool
    ensures { result ≡ is_reject (heard_in message.now) }
{
    matches!(hear(message), Ok(Heard::Reject))
}

/// Whether a reply grants a request.
pub(crate) fn is_grant(reply: &[u8]) -> bool
    ensures { result ≡ is_grant (heard_in reply.now) }
{
    matches!(hear(reply), Ok(Heard::Ack(AckResponse::Successful)))
}
