// Reports of a made-up day, each of its own owner and partition.
ghost use Rattle.std.specs.Prelude.{◌≡◌, ◌%◌};
ghost use Rattle.store_bench.specs.Counts.{turn};

use codes::order::{Book, Side};
use codes::report::{Capacity, Status};
use codes::session::Partition;
use reports::report::{Entry, ExecutionReport, Report};
use terms::execution::Execution;
use texts::fixed::FixedText;
use texts::identifiers::OrderId;
use texts::values::{Price, Time};

/// How many CompIDs the day has.
pub const OWNERS: usize = 8;

/// The partition of a report: each in turn.
pub fn partition_of(i: u32) -> Partition
    ensures { result ≡ turn (i % 3) }
{
    match i % 3 {
        0 => Partition::One,
        1 => Partition::Two,
        _ => Partition::Three,
    }
}

/// The report of an order that was entered.
pub fn entry_of(i: u32) -> Entry
    ensures { result.owner ≡ i % 8 }
{
    let owner = i as usize % OWNERS;
    let report = Report::Execution(ExecutionReport {
        client: FixedText::empty(),
        order: Some(OrderId {
            number: u64::from(i),
        }),
        execution: Execution::New,
        reference: None,
        status: Status::New,
        price: Price { raw: 0 },
        quantity: 0,
        leaves: 100,
        display: 100,
        symbol: FixedText::empty(),
        side: Side::Buy,
        trade: 0,
        time: Time {
            seconds: i,
            microseconds: 0,
        },
        book: Book::Integrated,
        capacity: Capacity::Principal,
    });
    Entry { owner, report }
}
