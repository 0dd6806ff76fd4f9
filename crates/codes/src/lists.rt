// The lists of codes, by name: what a field may hold, and what makes another field matter.
ghost use Rattle.std.specs.Prelude.{◌≡◌};
ghost use Rattle.codes.specs.Member.{member};
ghost use Rattle.codes.specs.Lists.{alpha, listed};

use crate::code::Code;
use crate::order::*;
use crate::report::*;
use crate::session::*;

/// A list of bytes: the values of a field, or those of its values that make another field matter.
#[derive(Clone, Copy, Debug, PartialEq, Eq)]
pub enum Codes {
    Sides,
    OrderTypes,
    TimesInForce,
    ClearingAccounts,
    OrderCapacities,
    AutoCancels,
    OrderSubTypes,
    Books,
    ExecInstructions,
    PassiveOnlys,
    MassCancelTypes,
    Versions,
    Partitions,
    AckResponses,
    ReportResponses,
    ExecTypes,
    Statuses,
    Liquidities,
    TradeTypes,
    Capacities,
    PriceDifferentials,
    MassResponses,
    /// A limit order.
    LimitOnly,
    /// An order of the dark book.
    DarkOnly,
    /// A mass cancel by instrument.
    ByInstrument,
    /// A mass cancel by segment.
    BySegment,
    /// A report of a rejected order.
    RejectedOnly,
    /// A report of a trade.
    TradeOnly,
    /// A report of a trade or of its cancellation.
    TradeOrCancel,
}

impl Codes {
    /// Whether the list has this byte.
    pub fn has(self, byte: u8) -> bool
        ensures { result ≡ member byte (listed self) }
    {
        match self {
            Codes::Sides => Side::of(byte).is_some(),
            Codes::OrderTypes => OrderType::of(byte).is_some(),
            Codes::TimesInForce => TimeInForce::of(byte).is_some(),
            Codes::ClearingAccounts => ClearingAccount::of(byte).is_some(),
            Codes::OrderCapacities => OrderCapacity::of(byte).is_some(),
            Codes::AutoCancels => AutoCancel::of(byte).is_some(),
            Codes::OrderSubTypes => OrderSubType::of(byte).is_some(),
            Codes::Books => Book::of(byte).is_some(),
            Codes::ExecInstructions => ExecInstruction::of(byte).is_some(),
            Codes::PassiveOnlys => PassiveOnly::of(byte).is_some(),
            Codes::MassCancelTypes => MassCancelType::of(byte).is_some(),
            Codes::Versions => Version::of(byte).is_some(),
            Codes::Partitions => Partition::of(byte).is_some(),
            Codes::AckResponses => AckResponse::of(byte).is_some(),
            Codes::ReportResponses => ReportResponse::of(byte).is_some(),
            Codes::ExecTypes => ExecType::of(byte).is_some(),
            Codes::Statuses => Status::of(byte).is_some(),
            Codes::Liquidities => Liquidity::of(byte).is_some(),
            Codes::TradeTypes => TradeType::of(byte).is_some(),
            Codes::Capacities => Capacity::of(byte).is_some(),
            Codes::PriceDifferentials => PriceDifferential::of(byte).is_some(),
            Codes::MassResponses => MassResponse::of(byte).is_some(),
            Codes::LimitOnly => byte == OrderType::Limit.byte(),
            Codes::DarkOnly => byte == Book::DarkMidpoint.byte(),
            Codes::ByInstrument => byte == MassCancelType::FirmInstrument.byte()
                || byte == MassCancelType::CompIdInstrument.byte(),
            Codes::BySegment => byte == MassCancelType::FirmSegment.byte()
                || byte == MassCancelType::CompIdSegment.byte(),
            Codes::RejectedOnly => byte == ExecType::Rejected.byte(),
            Codes::TradeOnly => byte == ExecType::Trade.byte(),
            Codes::TradeOrCancel => byte == ExecType::Trade.byte()
                || byte == ExecType::TradeCancel.byte(),
        }
    }

    /// Whether its bytes are characters, which read better as such than as numbers.
    pub fn is_alpha(self) -> bool
        ensures { result ≡ alpha self }
    {
        matches!(
            self,
            Codes::ExecTypes
                | Codes::Liquidities
                | Codes::PriceDifferentials
                | Codes::RejectedOnly
                | Codes::TradeOnly
                | Codes::TradeOrCancel
        )
    }
}
