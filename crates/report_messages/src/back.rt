// The report that a message tells.
ghost use Rattle.std.specs.Prelude.{◌≡◌, Some};
ghost use Rattle.texts.specs.Says.{says};
ghost use Rattle.reports.specs.declared.report.Report.{Report as Stored};
ghost use Rattle.reports.specs.Told.{told_of};
ghost use Rattle.report_messages.specs.Back.{order_in, reference_in, sent_for, execution_in, reject_in, answer_in, mass_in, report_in, told_in};

use codes::report::MassResponse;
use order_messages::execution_report::ExecutionReport as ExecutionMessage;
use order_messages::order_cancel_reject::OrderCancelReject;
use order_messages::order_mass_cancel_report::OrderMassCancelReport;
use refusals::Refusal;
use reports::report::{CancelReject, ExecutionReport, MassAnswer, MassCancelReport, Report};
use reports::standing::Told;
use terms::execution::Execution;
use texts::identifiers::{ExecutionId, OrderId};
use texts::text::Text;
use wire::message::Message;

#[tactic(auto, using(crate::proofs::Texts::order_read))]
fn order_in(text: &Text<'_, 12>) -> Option<OrderId>
    ensures { result ≡ order_in (says text.now) }
{
    OrderId::read(text.as_bytes())
}

fn reference_in(text: &Text<'_, 12>) -> Option<ExecutionId>
    ensures { result ≡ reference_in (says text.now) }
{
    ExecutionId::read(text.as_bytes())
}

// Why a report is sent; none where the message's number is no refusal's.
fn sent_for(execution: &Execution<i32>) -> Option<Execution<Refusal>>
    ensures { result ≡ sent_for execution.now }
{
    match execution {
        Execution::New => Some(Execution::New),
        Execution::Cancelled => Some(Execution::Cancelled),
        Execution::Replaced => Some(Execution::Replaced),
        Execution::Rejected(number) => {
            let refusal = Refusal::of(number)?;
            Some(Execution::Rejected(refusal))
        }
        Execution::Expired => Some(Execution::Expired),
        Execution::Restated => Some(Execution::Restated),
        Execution::Trade(liquidity, kind) => Some(Execution::Trade(*liquidity, *kind)),
        Execution::TradeCancel(liquidity) => Some(Execution::TradeCancel(*liquidity)),
    }
}

fn execution_in(m: &ExecutionMessage<'_>) -> Option<ExecutionReport>
    ensures { result ≡ execution_in m.now }
{
    let execution = sent_for(m.execution.as_ref()?)?;
    Some(ExecutionReport {
        client: m.client_order_id.keep(),
        order: order_in(&m.order_id),
        execution,
        reference: reference_in(&m.reference_id),
        status: m.status,
        price: m.executed_price,
        quantity: m.executed_quantity,
        leaves: m.leaves_quantity,
        display: m.display_quantity,
        symbol: m.symbol.keep(),
        side: m.side,
        trade: m.trade_match_id,
        time: m.transact_time,
        book: m.book,
        capacity: m.capacity,
    })
}

fn reject_in(m: &OrderCancelReject<'_>) -> Option<CancelReject>
    ensures { result ≡ reject_in m.now }
{
    let reason = Refusal::of(&m.reason)?;
    Some(CancelReject {
        client: m.client_order_id.keep(),
        reason,
        time: m.transact_time,
    })
}

// Accepted with no number, or rejected with a refusal's.
fn answer_in(response: MassResponse, reason: &i32) -> Option<MassAnswer>
    ensures { result ≡ answer_in response reason.now }
{
    match response {
        MassResponse::Accepted if *reason == 0 => Some(MassAnswer::Accepted),
        MassResponse::Accepted => None,
        MassResponse::Rejected => {
            let refusal = Refusal::of(reason)?;
            Some(MassAnswer::Rejected(refusal))
        }
    }
}

fn mass_in(m: &OrderMassCancelReport<'_>) -> Option<MassCancelReport>
    ensures { result ≡ mass_in m.now }
{
    let answer = answer_in(m.response, &m.reason)?;
    Some(MassCancelReport {
        client: m.client_order_id.keep(),
        answer,
        time: m.transact_time,
    })
}

/// The report that a message tells; none where it tells none, as one without an exec type, or with a number that is no
/// refusal's. It undoes `Telling::message`.
pub fn report_of(message: &Message<'_>) -> Option<Report>
    ensures { result ≡ report_in message.now }
{
    match message {
        Message::ExecutionReport(m) => execution_in(m).map(Report::Execution),
        Message::OrderCancelReject(m) => reject_in(m).map(Report::CancelReject),
        Message::OrderMassCancelReport(m) => mass_in(m).map(Report::MassCancel),
        _ => None,
    }
}

/// What a message tells of an order, if it is an Execution Report: of one that tells a report, what the report tells.
#[tactic(auto, using(crate::proofs::Told::told_same))]
pub fn told_by(message: &Message<'_>) -> Option<Told>
    ensures value { result ≡ told_in message.now }
    ensures report { (r : Stored) → report_in message.now ≡ Some r → result ≡ told_of r }
{
    match message {
        Message::ExecutionReport(m) => Some(Told {
            order: order_in(&m.order_id),
            kind: m.kind(),
            status: m.status,
            quantity: m.executed_quantity,
            leaves: m.leaves_quantity,
        }),
        _ => None,
    }
}
