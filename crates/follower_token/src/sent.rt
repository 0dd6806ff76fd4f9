// The bytes of what a gateway sends.
use codes::order::{Book, Side};
use codes::report::{Capacity, Status};
use codes::session::{AckResponse, Partition, ReportResponse};
use refusals::Refusal;
use report_messages::telling::Telling;
use reports::report::{ExecutionReport, Report};
use session_messages::missed_message_report::MissedMessageReport;
use session_messages::missed_message_request_ack::MissedMessageRequestAck;
use std::alloc::{AllocError, Global};
use terms::execution::Execution;
use texts::fixed::FixedText;
use texts::identifiers::OrderId;
use texts::values::{Price, Time};
use wire::message::{BUFFER, Message, write};

/// What an Execution Report says of its order.
#[derive(Clone, Copy)]
pub struct Said {
    pub order: u64,
    pub execution: Execution<Refusal>,
    pub status: Status,
    pub quantity: i32,
    pub leaves: i32,
}

fn bytes(alloc: Global, message: &Message<'_>) -> Result<Vec<u8>, AllocError> {
    let mut out = [0; BUFFER];
    let len = write(message, &mut out).unwrap();
    Vec::from_slice(alloc, &out[..len])
}

/// An Execution Report of the first partition, under a number.
pub fn report(alloc: Global, number: u32, said: Said) -> Result<Vec<u8>, AllocError> {
    let report = Report::Execution(ExecutionReport {
        client: FixedText::empty(),
        order: Some(OrderId { number: said.order }),
        execution: said.execution,
        reference: None,
        status: said.status,
        price: Price { raw: 0 },
        quantity: said.quantity,
        leaves: said.leaves,
        display: said.leaves,
        symbol: FixedText::empty(),
        side: Side::Buy,
        trade: 0,
        time: Time {
            seconds: 0,
            microseconds: 0,
        },
        book: Book::Integrated,
        capacity: Capacity::Principal,
    });
    match Telling::new(Partition::One, number, report) {
        Some(telling) => bytes(alloc, &telling.message()),
        None => Ok(Vec::new(alloc)),
    }
}

/// The answer to a Missed Message Request.
pub fn ack(alloc: Global, response: AckResponse) -> Result<Vec<u8>, AllocError> {
    bytes(
        alloc,
        &Message::MissedMessageRequestAck(MissedMessageRequestAck { response }),
    )
}

/// The end of a download.
pub fn end(alloc: Global, response: ReportResponse) -> Result<Vec<u8>, AllocError> {
    bytes(
        alloc,
        &Message::MissedMessageReport(MissedMessageReport { response }),
    )
}
