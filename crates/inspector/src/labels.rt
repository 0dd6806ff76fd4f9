// The names of the messages and of their fields, without blanks.
ghost use Rattle.std.specs.Prelude.{◌≡◌};
ghost use Rattle.inspector.specs.Labels.{title_of, names_of, spelt};

use wire::each_message;
use wire::kinds::Kind;

// The names of a message's fields, in the order of its layout. A reserved field has none.
pub(crate) const LOGON: [&str; 4] = ["CompID", "Password", "NewPassword", "MessageVersion"];

pub(crate) const LOGON_REPLY: [&str; 2] = ["RejectCode", "PasswordExpiryDayCount"];

pub(crate) const LOGOUT: [&str; 1] = ["LogoutReason"];

pub(crate) const MISSED_MESSAGE_REQUEST: [&str; 2] = ["AppID", "LastMsgSeqNum"];

pub(crate) const MISSED_MESSAGE_REQUEST_ACK: [&str; 1] = ["ResponseType"];

pub(crate) const MISSED_MESSAGE_REPORT: [&str; 1] = ["ResponseType"];

pub(crate) const REJECT: [&str; 4] = [
    "RejectCode",
    "RejectReason",
    "RejectedMessageType",
    "ClientOrderID",
];

pub(crate) const NEW_ORDER: [&str; 21] = [
    "ClientOrderID",
    "TraderID",
    "Account",
    "ClearingAccount",
    "CommonSymbol",
    "OrderType",
    "TIF",
    "ExpireDateTime",
    "Side",
    "OrderQty",
    "DisplayQty",
    "LimitPrice",
    "Capacity",
    "AutoCancel",
    "OrderSubType",
    "",
    "TargetBook",
    "ExecInstruction",
    "MinQty",
    "",
    "PassiveOnlyOrder",
];

pub(crate) const ORDER_CANCEL_REQUEST: [&str; 7] = [
    "ClientOrderID",
    "OriginalClientOrderID",
    "OrderID",
    "CommonSymbol",
    "Side",
    "TargetBook",
    "",
];

pub(crate) const ORDER_CANCEL_REPLACE_REQUEST: [&str; 17] = [
    "ClientOrderID",
    "OriginalClientOrderID",
    "OrderID",
    "CommonSymbol",
    "ExpireDateTime",
    "OrderQty",
    "DisplayQty",
    "LimitPrice",
    "Account",
    "TIF",
    "Side",
    "",
    "TargetBook",
    "ExecInstruction",
    "MinQty",
    "PassiveOnlyOrder",
    "",
];

pub(crate) const ORDER_MASS_CANCEL_REQUEST: [&str; 7] = [
    "ClientOrderID",
    "MassCancelType",
    "CommonSymbol",
    "Segment",
    "",
    "TargetBook",
    "",
];

pub(crate) const EXECUTION_REPORT: [&str; 26] = [
    "AppID",
    "SequenceNo",
    "ExecutionID",
    "ClientOrderID",
    "OrderID",
    "ExecType",
    "ExecutionReportRefID",
    "OrderStatus",
    "OrderRejectCode",
    "ExecutedPrice",
    "ExecutedQty",
    "LeavesQty",
    "",
    "DisplayQty",
    "CommonSymbol",
    "Side",
    "SecondaryOrderID",
    "Counterparty",
    "TradeLiquidityIndicator",
    "TradeMatchID",
    "TransactTime",
    "TargetBook",
    "TypeOfTrade",
    "Capacity",
    "PriceDifferential",
    "",
];

pub(crate) const ORDER_CANCEL_REJECT: [&str; 7] = [
    "AppID",
    "SequenceNo",
    "ClientOrderID",
    "OrderID",
    "CancelRejectReason",
    "TransactTime",
    "",
];

pub(crate) const ORDER_MASS_CANCEL_REPORT: [&str; 8] = [
    "AppID",
    "SequenceNo",
    "ClientOrderID",
    "MassCancelResponse",
    "MassCancelRejectReason",
    "",
    "TransactTime",
    "",
];

macro_rules! title_of {
    ($kind:expr; $($name:ident,)*) => {
        match $kind {
            $(Kind::$name => stringify!($name),)*
        }
    };
}

pub(crate) fn title(kind: Kind) -> &'static str
    ensures { result.now ≡ title_of kind }
{
    each_message!(title_of, kind)
}

pub(crate) fn names(kind: Kind) -> &'static [&'static str]
    ensures { spelt result.now ≡ names_of kind }
{
    match kind {
        Kind::Logon => &LOGON,
        Kind::LogonReply => &LOGON_REPLY,
        Kind::Logout => &LOGOUT,
        Kind::Heartbeat => &[],
        Kind::MissedMessageRequest => &MISSED_MESSAGE_REQUEST,
        Kind::MissedMessageRequestAck => &MISSED_MESSAGE_REQUEST_ACK,
        Kind::MissedMessageReport => &MISSED_MESSAGE_REPORT,
        Kind::Reject => &REJECT,
        Kind::NewOrder => &NEW_ORDER,
        Kind::OrderCancelRequest => &ORDER_CANCEL_REQUEST,
        Kind::OrderCancelReplaceRequest => &ORDER_CANCEL_REPLACE_REQUEST,
        Kind::OrderMassCancelRequest => &ORDER_MASS_CANCEL_REQUEST,
        Kind::ExecutionReport => &EXECUTION_REPORT,
        Kind::OrderCancelReject => &ORDER_CANCEL_REJECT,
        Kind::OrderMassCancelReport => &ORDER_MASS_CANCEL_REPORT,
    }
}
