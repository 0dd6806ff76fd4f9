// The kinds of messages, and which of them each reader takes.
ghost use Rattle.std.specs.Prelude.{◌≡◌, ◌≤◌};
ghost use Rattle.limits.specs.declared.TheConstants.{MESSAGE_BYTES};
ghost use Rattle.layout.specs.Shapes.{Shaped};
ghost use Rattle.wire.specs.Kinds.{kinds_of, layout_of, letter_of, total_of, table_of, takes};

use layout::{Field, Layout, Shape};
use order_messages::execution_report::ExecutionReport;
use order_messages::new_order::NewOrder;
use order_messages::order_cancel_reject::OrderCancelReject;
use order_messages::order_cancel_replace_request::OrderCancelReplaceRequest;
use order_messages::order_cancel_request::OrderCancelRequest;
use order_messages::order_mass_cancel_report::OrderMassCancelReport;
use order_messages::order_mass_cancel_request::OrderMassCancelRequest;
use session_messages::heartbeat::Heartbeat;
use session_messages::logon::Logon;
use session_messages::logon_reply::LogonReply;
use session_messages::logout::Logout;
use session_messages::missed_message_report::MissedMessageReport;
use session_messages::missed_message_request::MissedMessageRequest;
use session_messages::missed_message_request_ack::MissedMessageRequestAck;
use session_messages::reject::Reject;

/// Who reads: the gateway on one of its two channels, or a follower.
#[derive(Clone, Copy, Debug, PartialEq)]
pub enum Channel {
    RealTime,
    Recovery,
    Follower,
}

/// The kind of a message.
#[derive(Clone, Copy, Debug, PartialEq)]
pub enum Kind {
    Logon,
    LogonReply,
    Logout,
    Heartbeat,
    MissedMessageRequest,
    MissedMessageRequestAck,
    MissedMessageReport,
    Reject,
    NewOrder,
    OrderCancelRequest,
    OrderCancelReplaceRequest,
    OrderMassCancelRequest,
    ExecutionReport,
    OrderCancelReject,
    OrderMassCancelReport,
}

/// What the gateway reads on its real-time channel, what comes most often first.
pub const REAL_TIME: [Kind; 7] = [
    Kind::NewOrder,
    Kind::OrderCancelReplaceRequest,
    Kind::OrderCancelRequest,
    Kind::OrderMassCancelRequest,
    Kind::Heartbeat,
    Kind::Logon,
    Kind::Logout,
];

/// What the gateway reads on its recovery channel.
pub const RECOVERY: [Kind; 4] = [
    Kind::MissedMessageRequest,
    Kind::Heartbeat,
    Kind::Logon,
    Kind::Logout,
];

/// What a follower reads.
pub const FOLLOWER: [Kind; 9] = [
    Kind::ExecutionReport,
    Kind::OrderCancelReject,
    Kind::OrderMassCancelReport,
    Kind::Reject,
    Kind::Heartbeat,
    Kind::LogonReply,
    Kind::MissedMessageRequestAck,
    Kind::MissedMessageReport,
    Kind::Logout,
];

/// Calls the macro `$arms` with what is given behind its name and then every message's name: so a match over the kinds,
/// or over the messages, has one arm for all.
#[macro_export]
macro_rules! each_message {
    ($arms:ident, $($given:expr),+) => {
        $arms!(
            $($given),+;
            Logon,
            LogonReply,
            Logout,
            Heartbeat,
            MissedMessageRequest,
            MissedMessageRequestAck,
            MissedMessageReport,
            Reject,
            NewOrder,
            OrderCancelRequest,
            OrderCancelReplaceRequest,
            OrderMassCancelRequest,
            ExecutionReport,
            OrderCancelReject,
            OrderMassCancelReport,
        )
    };
}

macro_rules! shape_of {
    ($kind:expr; $($name:ident,)*) => {
        match $kind {
            $(Kind::$name => $name::shape(),)*
        }
    };
}

impl Kind {
    // How its messages are laid out.
    fn shape(self) -> Shape
        ensures { Shaped (layout_of self) result }
    {
        each_message!(shape_of, self)
    }

    /// The byte that names the kind.
    pub fn letter(self) -> u8
        ensures { result ≡ letter_of self }
    {
        self.shape().letter
    }

    /// How many bytes a message of the kind has in all.
    pub fn total(self) -> usize
        ensures total { result ≡ total_of self }
        ensures longest { result ≤ MESSAGE_BYTES }
    {
        usize::from(self.shape().total)
    }

    /// The fields of a message of the kind, one behind the other.
    pub fn table(self) -> &'static [Field]
        ensures { result.now ≡ table_of self }
    {
        self.shape().table
    }
}

impl Channel {
    /// The kinds that are read here.
    pub fn kinds(self) -> &'static [Kind]
        ensures { result.now ≡ kinds_of self }
    {
        match self {
            Channel::RealTime => &REAL_TIME,
            Channel::Recovery => &RECOVERY,
            Channel::Follower => &FOLLOWER,
        }
    }

    /// The kind that a type byte names, if it is one of those that are read here.
    pub fn kind(self, letter: u8) -> Option<Kind>
        ensures { result ≡ takes self letter }
    {
        self.kinds().iter().copied().find(|k| k.letter() == letter)
    }
}
