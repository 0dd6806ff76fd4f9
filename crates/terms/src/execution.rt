// Why an Execution Report is sent.
ghost use Rattle.std.specs.Prelude.{◌≡◌};

use codes::report::{ExecType, Liquidity, TradeType};

/// Why an Execution Report is sent, with what only such a report tells; `R` says why an order was rejected: in a message
/// a number, in a stored report a refusal.
#[derive(Clone, Copy, Debug, PartialEq)]
pub enum Execution<R> {
    New,
    Cancelled,
    Replaced,
    Rejected(R),
    Expired,
    Restated,
    Trade(Liquidity, TradeType),
    TradeCancel(Liquidity),
}

impl<R> Execution<R> {
    ghost use Rattle.terms.specs.Execution.{kind_of};

    /// What happened, without what is told of it.
    pub fn kind(&self) -> ExecType
        ensures { result ≡ kind_of self.now }
    {
        match self {
            Execution::New => ExecType::New,
            Execution::Cancelled => ExecType::Cancelled,
            Execution::Replaced => ExecType::Replaced,
            Execution::Rejected(_) => ExecType::Rejected,
            Execution::Expired => ExecType::Expired,
            Execution::Restated => ExecType::Restated,
            Execution::Trade(_, _) => ExecType::Trade,
            Execution::TradeCancel(_) => ExecType::TradeCancel,
        }
    }
}
