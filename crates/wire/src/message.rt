// Any message: read from bytes, and written to bytes.
ghost use Rattle.std.specs.Prelude.{◌≡◌, ◌≤◌, ◌++◌, length, drop, IfOk, OnOk};
ghost use Rattle.limits.specs.declared.TheConstants.{MESSAGE_BYTES};
ghost use Rattle.wire.specs.Kinds.{total_of};
ghost use Rattle.wire.specs.Messages.{opening, kind_of, written, Holdable, GivenBack, Apart, Again, WasRead, Wrote};

use crate::each_message;
use crate::kinds::{Channel, Kind};
use layout::fault::Fault;
use layout::framed;
use layout::put::START;
use layout::reader::Reader;
use order_messages::execution_report::ExecutionReport;
use order_messages::new_order::NewOrder;
use order_messages::order_cancel_reject::OrderCancelReject;
use order_messages::order_cancel_replace_request::OrderCancelReplaceRequest;
use order_messages::order_cancel_request::OrderCancelRequest;
use order_messages::order_mass_cancel_report::OrderMassCancelReport;
use order_messages::order_mass_cancel_request::OrderMassCancelRequest;
use session_messages::heartbeat::Heartbeat;
use session_messages::logon::Logon;
use session_messages::logon_reply::LogonReply;
use session_messages::logout::Logout;
use session_messages::missed_message_report::MissedMessageReport;
use session_messages::missed_message_request::MissedMessageRequest;
use session_messages::missed_message_request_ack::MissedMessageRequestAck;
use session_messages::reject::Reject;

/// How many bytes a buffer has at least that takes any message.
pub const BUFFER: usize = 512;

/// A message. Its texts are lent: by the bytes that it was read from, or by whoever writes it.
#[derive(Clone, Copy, Debug)]
pub enum Message<'a> {
    Logon(Logon<'a>),
    LogonReply(LogonReply<'a>),
    Logout(Logout<'a>),
    Heartbeat(Heartbeat),
    MissedMessageRequest(MissedMessageRequest),
    MissedMessageRequestAck(MissedMessageRequestAck),
    MissedMessageReport(MissedMessageReport),
    Reject(Reject<'a>),
    NewOrder(NewOrder<'a>),
    OrderCancelRequest(OrderCancelRequest<'a>),
    OrderCancelReplaceRequest(OrderCancelReplaceRequest<'a>),
    OrderMassCancelRequest(OrderMassCancelRequest<'a>),
    ExecutionReport(ExecutionReport<'a>),
    OrderCancelReject(OrderCancelReject<'a>),
    OrderMassCancelReport(OrderMassCancelReport<'a>),
}

macro_rules! kind_of {
    ($message:expr; $($name:ident,)*) => {
        match $message {
            $(Message::$name(_) => Kind::$name,)*
        }
    };
}

macro_rules! read_as {
    ($kind:expr, $r:expr; $($name:ident,)*) => {
        match $kind {
            $(Kind::$name => Ok(Message::$name(framed::read($r)?)),)*
        }
    };
}

macro_rules! write_of {
    ($message:expr, $out:expr; $($name:ident,)*) => {
        match $message {
            $(Message::$name(m) => framed::write(m, $out),)*
        }
    };
}

/// A buffer that is too short for a message, which needs this many bytes.
#[derive(Clone, Copy, Debug, PartialEq)]
pub struct TooShort {
    pub needed: usize,
}

impl Message<'_> {
    /// What kind of message it is.
    pub fn kind(&self) -> Kind
        ensures { result ≡ kind_of self.now }
    {
        each_message!(kind_of, self)
    }
}

// The checks of the header, in their order.
#[tactic(auto, using(crate::proofs::Headers::long), unfolding(crate::specs::Messages::opening))]
fn open(channel: Channel, r: &Reader<'_>) -> Result<Kind, Fault>
    ensures checks { result ≡ opening channel r.now.src.now }
    ensures long { IfOk result (λ k. length r.now.src.now ≡ total_of k) }
{
    let given = r.src.len();
    if given < 4 || given < usize::from(r.u16(1)) + 3 {
        return Err(Fault::Short);
    }
    if r.u8(0) != START {
        return Err(Fault::Start);
    }
    let Some(kind) = channel.kind(r.u8(3)) else {
        return Err(Fault::Unknown);
    };
    let stated = usize::from(r.u16(1)) + 3;
    if stated != kind.total() || stated != given {
        return Err(Fault::Length);
    }
    Ok(kind)
}

#[tactic(auto, using(crate::proofs::Reading::reads, crate::proofs::Reading::refused))]
fn read_kind<'a>(channel: Channel, bytes: &'a [u8]) -> Result<Message<'a>, Fault>
    ensures { WasRead channel bytes.now result }
{
    let r = Reader { src: bytes };
    each_message!(read_as, open(channel, &r)?, &r)
}

/// Reads one message, or says which check is the first to fail, and where.
#[tactic(auto, using(crate::proofs::Rewriting::again))]
pub fn read<'a>(channel: Channel, bytes: &'a [u8]) -> Result<Message<'a>, Fault>
    ensures checks { WasRead channel bytes.now result }
    ensures again { IfOk result (λ m. Again bytes.now m) }
{
    read_kind(channel, bytes)
}

#[tactic(auto, using(crate::proofs::Writing::one_form, crate::proofs::Writing::holdable))]
fn write_kind(message: &Message<'_>, out: &mut [u8])
    requires { total_of (kind_of message.now) ≤ length out.old }
    ensures wrote { out.new ≡ written message.now ++ drop (total_of (kind_of message.now)) out.old }
    ensures holds { Holdable message.now }
{
    each_message!(write_of, message, out)
}

/// Writes a message in its one form to the front of a buffer, and says how many bytes it has; those past it stay.
/// A buffer that is too short stays as it is.
#[tactic(auto, using(crate::proofs::Returning::given_back, crate::proofs::Returning::apart))]
pub fn write(message: &Message<'_>, out: &mut [u8]) -> Result<usize, TooShort>
    ensures bytes { Wrote message.now out.old out.new result }
    ensures longest { total_of (kind_of message.now) ≤ MESSAGE_BYTES }
    ensures holds { OnOk result (Holdable message.now) }
    ensures back { OnOk result (GivenBack message.now) }
    ensures apart { OnOk result (Apart message.now) }
{
    let total = message.kind().total();
    if out.len() < total {
        return Err(TooShort { needed: total });
    }
    write_kind(message, out);
    Ok(total)
}
