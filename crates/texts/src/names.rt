// The texts of the protocol, by what they name.
use crate::fixed::FixedText;

/// A CompID's name.
pub type CompId = FixedText<25>;

/// The password of a CompID.
pub type Password = FixedText<25>;

/// What a client calls an order. It may be empty where a message need not carry one; a request's own is a `RequestId`.
pub type ClientOrderId = FixedText<20>;

/// Who traded.
pub type TraderId = FixedText<11>;

/// For whom an order is.
pub type Account = FixedText<10>;

/// What an instrument is called.
pub type Symbol = FixedText<6>;

/// A group of instruments.
pub type Segment = FixedText<4>;

/// The text of an Order ID or an Execution ID, or nothing.
pub type Identifier = FixedText<12>;

/// The other side of a trade.
pub type Counterparty = FixedText<11>;

/// Why a message was not taken.
pub type Reason = FixedText<30>;

/// Why a session ended.
pub type LogoutReason = FixedText<20>;
