// The five changes of an order.
ghost use Rattle.std.specs.Prelude.{◌≡◌};
ghost use Rattle.changes.specs.Telling.{ending_told, told_as};

use codes::report::{Liquidity, TradeType};
use orders::order::Order;
use orders::row::{Ask, Ending, Terms};
use refusals::Refusal;
use reports::report::ExecutionReport;
use terms::execution::Execution;
use texts::fixed::FixedText;
use texts::identifiers::{ExecutionId, OrderId};
use texts::values::{Price, Time};

/// One side of a trade.
#[derive(Clone, Copy)]
pub struct Fill {
    /// In shares.
    pub quantity: u32,
    pub price: Price,
    /// The number of the trade.
    pub trade: u64,
    /// Whether the order was at rest or came to it.
    pub liquidity: Liquidity,
}

/// A fill that is undone.
#[derive(Clone, Copy)]
pub struct Undone {
    /// In shares.
    pub quantity: u32,
    /// The report that told the fill.
    pub report: ExecutionId,
}

/// What can happen to an order.
#[derive(Clone, Copy)]
pub enum Change {
    /// A new order takes its number.
    Accept(Terms, Ask),
    Replace(Ask),
    /// What is open is withdrawn; told under a client order id, which may be another than the order's.
    Withdraw(Ending, FixedText<20>),
    Fill(Fill),
    Undo(Undone),
}

/// What is the same in the reports of one day's orders: where an order trades, and when it is told.
#[derive(Clone, Copy)]
pub struct Heading {
    pub symbol: FixedText<6>,
    pub time: Time,
}

/// The reports that tell a change, in their order.
#[derive(Clone, Copy)]
pub struct Reports {
    pub report: ExecutionReport,
    /// An undone fill is told twice: as undone, and as the order now stands.
    pub restated: Option<ExecutionReport>,
}

// An order's fields, under a client order id.
fn told_as(
    told: Heading,
    client: FixedText<20>,
    execution: Execution<Refusal>,
    order: Order,
) -> ExecutionReport
    ensures { result ≡ told_as told client execution order }
{
    let status = order.status();
    let row = order.row();
    ExecutionReport {
        client,
        order: Some(OrderId { number: row.number }),
        execution,
        reference: None,
        status,
        price: Price { raw: 0 },
        quantity: 0,
        leaves: row.leaves as i32,
        display: row.display,
        symbol: told.symbol,
        side: row.terms.side,
        trade: 0,
        time: told.time,
        book: row.terms.book,
        capacity: row.terms.capacity,
    }
}

// Why the report of an order that ended is sent.
fn ending_told(ending: Ending) -> Execution<Refusal>
    ensures { result ≡ ending_told ending }
{
    match ending {
        Ending::Cancelled => Execution::Cancelled,
        Ending::Expired => Execution::Expired,
    }
}

impl Change {
    ghost use Rattle.std.specs.Prelude.{◌≤◌, OnSome};
    ghost use Rattle.limits.specs.declared.TheConstants.{SHARES};
    ghost use Rattle.changes.specs.Changes.{after};
    ghost use Rattle.changes.specs.Telling.{told_as, report_of, restated_of, shares_of};

    /// The order after the change; none where the change may not be made.
    pub fn after(&self, number: u64, order: Option<Order>) -> Option<Order>
        ensures value { result ≡ after number self.now order }
        ensures bound { OnSome result (shares_of self.now ≤ SHARES) }
    {
        match (self, order) {
            (Change::Accept(terms, ask), None) => Order::accept(number, *terms, *ask),
            (Change::Replace(ask), Some(order)) => order.replace(*ask).ok(),
            (Change::Withdraw(ending, _), Some(order)) => order.withdraw(*ending),
            (Change::Fill(fill), Some(order)) => order.fill(fill.quantity),
            (Change::Undo(undone), Some(order)) => order.undo(undone.quantity),
            _ => None,
        }
    }

    // The report of the change, by the order after it.
    fn report(&self, told: Heading, order: Order) -> ExecutionReport
        requires { shares_of self.now ≤ SHARES }
        ensures { result ≡ report_of told self.now order }
    {
        let client = order.row().client;
        match self {
            Change::Accept(_, _) => told_as(told, client, Execution::New, order),
            Change::Replace(_) => told_as(told, client, Execution::Replaced, order),
            Change::Withdraw(ending, client) => {
                told_as(told, *client, ending_told(*ending), order)
            }
            Change::Fill(fill) => {
                let execution = Execution::Trade(fill.liquidity, TradeType::Visible);
                ExecutionReport {
                    price: fill.price,
                    quantity: fill.quantity as i32,
                    trade: fill.trade,
                    ..told_as(told, client, execution, order)
                }
            }
            Change::Undo(undone) => {
                let execution = Execution::TradeCancel(Liquidity::Unspecified);
                ExecutionReport {
                    quantity: undone.quantity as i32,
                    reference: Some(undone.report),
                    ..told_as(told, client, execution, order)
                }
            }
        }
    }

    // The second report, of an undone fill.
    fn restated(&self, told: Heading, order: Order) -> Option<ExecutionReport>
        ensures { result ≡ restated_of told self.now order }
    {
        match self {
            Change::Undo(_) => Some(told_as(told, order.row().client, Execution::Restated, order)),
            _ => None,
        }
    }

    /// How the change is told, by the order after it.
    pub fn reports(&self, told: Heading, order: Order) -> Reports
        requires { shares_of self.now ≤ SHARES }
        ensures report { result.report ≡ report_of told self.now order }
        ensures restated { result.restated ≡ restated_of told self.now order }
    {
        Reports {
            report: self.report(told, order),
            restated: self.restated(told, order),
        }
    }
}
