// A report under its number, with the texts that its message lends.
ghost use Rattle.std.specs.Prelude.{◌≡◌, ◌<◌, ◌≤◌, [], Some, None, MatchOption};
ghost use Rattle.texts.specs.Bytes.{said};
ghost use Rattle.report_messages.specs.declared.telling.TheConstants.{NUMBERS};
ghost use Rattle.report_messages.specs.Back.{order_in, reference_in, execution_in, reject_in, mass_in, report_in};
ghost use Rattle.report_messages.specs.Telling.{sent_as, response_of, reason_of};
ghost use Rattle.report_messages.specs.Identifiers.{order_of, reference_of, order_text, reference_text, own_text};

use codes::report::{MassResponse, PriceDifferential};
use codes::session::Partition;
use order_messages::execution_report::ExecutionReport as ExecutionMessage;
use order_messages::order_cancel_reject::OrderCancelReject;
use order_messages::order_mass_cancel_report::OrderMassCancelReport;
use refusals::Refusal;
use reports::report::{CancelReject, ExecutionReport, MassAnswer, MassCancelReport, Report};
use terms::execution::Execution;
use texts::fixed::FixedText;
use texts::identifiers::{ExecutionId, OrderId};
use wire::message::Message;

/// The first number that does not fit the field of a sequence number.
pub const NUMBERS: u32 = 2_147_483_648;

/// A report under its number in a partition, with the texts that follow from them: its message lends them.
#[derive(Clone, Copy)]
pub struct Telling {
    partition: Partition,
    number: u32,
    report: Report,
    execution: FixedText<12>,
    order: FixedText<12>,
    reference: FixedText<12>,
    counterparty: FixedText<11>,
    ghost fits: { number < NUMBERS },
    ghost own: { said execution.bytes ≡ own_text partition number },
    ghost named: { said order.bytes ≡ order_text (order_of report) },
    ghost referred: { said reference.bytes ≡ reference_text (reference_of report) },
    ghost named_back: { order_in (said order.bytes) ≡ order_of report },
    ghost referred_back: { reference_in (said reference.bytes) ≡ reference_of report },
    ghost nobody: { said counterparty.bytes ≡ [] },
}

#[tactic(auto, using(crate::proofs::Texts::order_back))]
fn order_id(order: Option<OrderId>) -> FixedText<12>
    ensures text { said result.bytes ≡ order_text order }
    ensures back { order_in (said result.bytes) ≡ order }
{
    match order {
        Some(id) => id.text(),
        None => FixedText::empty(),
    }
}

#[tactic(auto, using(crate::proofs::Texts::reference_back))]
fn reference_id(reference: Option<ExecutionId>) -> FixedText<12>
    ensures text { said result.bytes ≡ reference_text reference }
    ensures back { reference_in (said result.bytes) ≡ reference }
{
    match reference {
        Some(id) => id.text(),
        None => FixedText::empty(),
    }
}

fn own_id(partition: Partition, number: u32) -> FixedText<12>
    ensures { said result.bytes ≡ own_text partition number }
{
    ExecutionId {
        partition: partition as u8,
        sequence: number,
    }
    .text()
}

fn no_counterparty() -> FixedText<11>
    ensures { said result.bytes ≡ [] }
{
    FixedText::empty()
}

// The shares that are open after what is told.
fn open_shares(e: &ExecutionReport) -> &i32
    ensures { result.now ≡ e.now.leaves }
{
    &e.leaves
}

// Why a report is sent, in the message's words: a refusal as its number.
fn sent_as(execution: &Execution<Refusal>) -> Execution<i32>
    ensures { result ≡ sent_as execution.now }
{
    match execution {
        Execution::New => Execution::New,
        Execution::Cancelled => Execution::Cancelled,
        Execution::Replaced => Execution::Replaced,
        Execution::Rejected(refusal) => Execution::Rejected(i32::from(refusal.number())),
        Execution::Expired => Execution::Expired,
        Execution::Restated => Execution::Restated,
        Execution::Trade(liquidity, kind) => Execution::Trade(*liquidity, *kind),
        Execution::TradeCancel(liquidity) => Execution::TradeCancel(*liquidity),
    }
}

fn response_of(answer: MassAnswer) -> MassResponse
    ensures { result ≡ response_of answer }
{
    match answer {
        MassAnswer::Accepted => MassResponse::Accepted,
        MassAnswer::Rejected(_) => MassResponse::Rejected,
    }
}

// The number of a mass cancel's refusal; 0 where it was accepted.
fn reason_of(answer: MassAnswer) -> u8
    ensures { result ≡ reason_of answer }
{
    match answer {
        MassAnswer::Accepted => 0,
        MassAnswer::Rejected(refusal) => refusal.number(),
    }
}

fn order_of(report: &Report) -> Option<OrderId>
    ensures { result ≡ order_of report.now }
{
    match report {
        Report::Execution(e) => e.order,
        _ => None,
    }
}

fn reference_of(report: &Report) -> Option<ExecutionId>
    ensures { result ≡ reference_of report.now }
{
    match report {
        Report::Execution(e) => e.reference,
        _ => None,
    }
}

impl Telling {
    ghost use Rattle.order_messages.specs.Reports.{execution_report_contents, order_cancel_reject_contents, order_mass_cancel_report_contents};
    ghost use Rattle.wire.specs.Messages.{kind_of, contents_of};
    ghost use Rattle.report_messages.specs.Telling.{execution_told, reject_told, mass_told, told_as, kind_told};

    /// A report under its number in a partition; none where the number does not fit its field.
    pub fn new(partition: Partition, number: u32, report: Report) -> Option<Telling>
        ensures { MatchOption result
            (NUMBERS ≤ number)
            (λ t. (number < NUMBERS) × (t.partition ≡ partition) × (t.number ≡ number) × (t.report ≡ report)) }
    {
        if number >= NUMBERS {
            return None;
        }
        Some(Telling {
            partition,
            number,
            report,
            execution: own_id(partition, number),
            order: order_id(order_of(&report)),
            reference: reference_id(reference_of(&report)),
            counterparty: no_counterparty(),
        })
    }

    fn execution_message<'a>(&'a self, e: &'a ExecutionReport) -> ExecutionMessage<'a>
        requires order { order_of self.now.report ≡ e.now.order }
        requires reference { reference_of self.now.report ≡ e.now.reference }
        ensures back { execution_in result ≡ Some e.now }
        ensures contents { execution_report_contents result ≡ execution_told self.now.partition self.now.number e.now }
    {
        ExecutionMessage {
            partition: self.partition,
            sequence: self.number as i32,
            execution_id: self.execution.as_text(),
            client_order_id: e.client.as_text(),
            order_id: self.order.as_text(),
            execution: Some(sent_as(&e.execution)),
            reference_id: self.reference.as_text(),
            status: e.status,
            executed_price: e.price,
            executed_quantity: e.quantity,
            leaves_quantity: *open_shares(e),
            display_quantity: e.display,
            symbol: e.symbol.as_text(),
            side: e.side,
            secondary_order_id: 0,
            counterparty: self.counterparty.as_text(),
            trade_match_id: e.trade,
            transact_time: e.time,
            book: e.book,
            capacity: e.capacity,
            price_differential: PriceDifferential::Unspecified,
        }
    }

    fn reject_message<'a>(&'a self, r: &'a CancelReject) -> OrderCancelReject<'a>
        requires { order_of self.now.report ≡ None }
        ensures back { reject_in result ≡ Some r.now }
        ensures contents { order_cancel_reject_contents result ≡ reject_told self.now.partition self.now.number r.now }
    {
        OrderCancelReject {
            partition: self.partition,
            sequence: self.number as i32,
            client_order_id: r.client.as_text(),
            order_id: self.order.as_text(),
            reason: i32::from(r.reason.number()),
            transact_time: r.time,
        }
    }

    fn mass_message<'a>(&'a self, r: &'a MassCancelReport) -> OrderMassCancelReport<'a>
        ensures back { mass_in result ≡ Some r.now }
        ensures contents { order_mass_cancel_report_contents result
            ≡ mass_told self.now.partition self.now.number r.now }
    {
        OrderMassCancelReport {
            partition: self.partition,
            sequence: self.number as i32,
            client_order_id: r.client.as_text(),
            response: response_of(r.answer),
            reason: i32::from(reason_of(r.answer)),
            transact_time: r.time,
        }
    }

    /// The message that tells the report to its owner.
    pub fn message(&self) -> Message<'_>
        ensures back { report_in result ≡ Some self.now.report }
        ensures kind { kind_of result ≡ kind_told self.now.report }
        ensures contents { contents_of result ≡ told_as self.now.partition self.now.number self.now.report }
    {
        match &self.report {
            Report::Execution(e) => Message::ExecutionReport(self.execution_message(e)),
            Report::CancelReject(r) => Message::OrderCancelReject(self.reject_message(r)),
            Report::MassCancel(r) => Message::OrderMassCancelReport(self.mass_message(r)),
        }
    }
}
