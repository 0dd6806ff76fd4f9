// The reports that a store keeps. Partition and sequence number are the store's to give, and the Execution ID follows
// from them.
ghost use Rattle.std.specs.Prelude.{◌≡◌};

use crate::standing::Told;
use codes::order::{Book, Side};
use codes::report::{Capacity, Status};
use partitions::series::Owned;
use refusals::Refusal;
use terms::execution::Execution;
use texts::fixed::FixedText;
use texts::identifiers::{ExecutionId, OrderId};
use texts::values::{Price, Time};

/// What an Execution Report tells: `reference` names the report of the fill that is undone, `trade` is the
/// TradeMatchID, `leaves` are the shares open.
#[derive(Clone, Copy)]
pub struct ExecutionReport {
    pub client: FixedText<20>,
    pub order: Option<OrderId>,
    pub execution: Execution<Refusal>,
    pub reference: Option<ExecutionId>,
    pub status: Status,
    pub price: Price,
    pub quantity: i32,
    pub leaves: i32,
    pub display: i32,
    pub symbol: FixedText<6>,
    pub side: Side,
    pub trade: u64,
    pub time: Time,
    pub book: Book,
    pub capacity: Capacity,
}

/// Why a cancel or a replace was refused.
#[derive(Clone, Copy)]
pub struct CancelReject {
    pub client: FixedText<20>,
    pub reason: Refusal,
    pub time: Time,
}

/// Whether a mass cancel was accepted.
#[derive(Clone, Copy, Debug, PartialEq)]
pub enum MassAnswer {
    Accepted,
    Rejected(Refusal),
}

/// How a mass cancel was answered.
#[derive(Clone, Copy)]
pub struct MassCancelReport {
    pub client: FixedText<20>,
    pub answer: MassAnswer,
    pub time: Time,
}

/// A report, without what the store gives: partition and sequence number.
#[derive(Clone, Copy)]
pub enum Report {
    Execution(ExecutionReport),
    CancelReject(CancelReject),
    MassCancel(MassCancelReport),
}

/// A report in a store, with the line of the CompID that it is for.
#[derive(Clone, Copy)]
pub struct Entry {
    pub owner: usize,
    pub report: Report,
}

impl Owned for Entry {
    ghost owner_of = { λ e. e.owner };

    fn owner(&self) -> usize {
        self.owner
    }
}

impl Report {
    ghost use Rattle.reports.specs.Told.{told_of};

    /// What the report tells of an order, if it is an Execution Report.
    pub fn told(self) -> Option<Told>
        ensures { result ≡ told_of self }
    {
        match self {
            Report::Execution(e) => Some(Told {
                order: e.order,
                kind: e.execution.kind(),
                status: e.status,
                quantity: e.quantity,
                leaves: e.leaves,
            }),
            Report::CancelReject(_) | Report::MassCancel(_) => None,
        }
    }
}
