// Execution Report: type 8, 145 bytes.
ghost use Rattle.std.specs.Prelude.{◌≡◌, ◌+◌, ◌≤◌, length, refl};
ghost use Rattle.layout.specs.Shapes.{Shaped, laid};
ghost use Rattle.order_messages.specs.declared.execution_report.TheConstants.{LETTER, TABLE, TOTAL};
ghost use Rattle.order_messages.specs.Published.{execution_report_published};
ghost use Rattle.codes.specs.Report.{exec_type_code};
ghost use Rattle.layout.specs.Holding.{Holds};
ghost use Rattle.layout.specs.Layout.{AllOk, Says, all_good};
ghost use Rattle.layout.specs.Writing.{field_bytes, over};
ghost use Rattle.order_messages.specs.Terms.{execution_contents, execution_fields, execution_liquidity, execution_reject, execution_trade, exec_type_of, liquidity_field, reject_field, trade_field};

use codes::lists::Codes;
use codes::order::{Book, Side};
use codes::report::{Capacity, ExecType, Liquidity, PriceDifferential, Status, TradeType};
use codes::session::Partition;
use layout::put::{put_blank, put_code, put_i32, put_price, put_text, put_time, put_u64};
use layout::{Field, Form, Framed, Layout, Reader, Shape};
use terms::execution::Execution;
use texts::text::Text;
use texts::values::{Price, Time};

/// What became of an order.
#[derive(Clone, Copy, Debug)]
pub struct ExecutionReport<'a> {
    pub partition: Partition,
    /// Its number among the reports of its partition.
    pub sequence: i32,
    pub execution_id: Text<'a, 12>,
    pub client_order_id: Text<'a, 20>,
    pub order_id: Text<'a, 12>,
    /// Why the report is sent, with what only such a report tells; an order is rejected with a number. None where the
    /// exec type is null.
    pub execution: Option<Execution<i32>>,
    /// The execution that the report refers back to, if any.
    pub reference_id: Text<'a, 12>,
    pub status: Status,
    /// Of this execution, as the next one is.
    pub executed_price: Price,
    /// In shares, as the next two are.
    pub executed_quantity: i32,
    /// What is open after the report.
    pub leaves_quantity: i32,
    /// How much of the order is shown.
    pub display_quantity: i32,
    pub symbol: Text<'a, 6>,
    pub side: Side,
    pub secondary_order_id: u64,
    pub counterparty: Text<'a, 11>,
    /// The number of the trade, or 0.
    pub trade_match_id: u64,
    pub transact_time: Time,
    pub book: Book,
    pub capacity: Capacity,
    pub price_differential: PriceDifferential,
}

const LETTER: u8 = b'8';

const TOTAL: u16 = 145;

const TABLE: [Field; 26] = [
    Field::Always(4, Form::Code(Codes::Partitions)),
    Field::Always(5, Form::Int32),
    Field::Always(9, Form::Text(12)),
    Field::Always(21, Form::Text(20)),
    Field::Always(41, Form::Text(12)),
    Field::Always(53, Form::Code(Codes::ExecTypes)),
    Field::Always(54, Form::Text(12)),
    Field::Always(66, Form::Code(Codes::Statuses)),
    Field::When(67, Form::Int32, 53, Codes::RejectedOnly),
    Field::Always(71, Form::Price),
    Field::Always(79, Form::Int32),
    Field::Always(83, Form::Int32),
    Field::Always(87, Form::Reserved(1)),
    Field::Always(88, Form::Int32),
    Field::Always(92, Form::Text(6)),
    Field::Always(98, Form::Code(Codes::Sides)),
    Field::Always(99, Form::UInt64),
    Field::Always(107, Form::Text(11)),
    Field::When(
        118,
        Form::Code(Codes::Liquidities),
        53,
        Codes::TradeOrCancel,
    ),
    Field::Always(119, Form::UInt64),
    Field::Always(127, Form::Time),
    Field::Always(135, Form::Code(Codes::Books)),
    Field::When(136, Form::Code(Codes::TradeTypes), 53, Codes::TradeOnly),
    Field::Always(137, Form::Code(Codes::Capacities)),
    Field::Always(138, Form::Code(Codes::PriceDifferentials)),
    Field::Always(139, Form::Reserved(6)),
];

impl Layout for ExecutionReport<'_> {
    ghost shape = { laid LETTER TOTAL TABLE };

    ghost published = { execution_report_published };

    ghost fits = { refl };

    ghost as_published = { refl };

    fn shape() -> Shape
        ensures { Shaped (laid LETTER TOTAL TABLE) result }
    {
        Shape::new(LETTER, TOTAL, &TABLE)
    }

    #[tactic(auto, unfolding(layout::specs::Layout::all_good))]
    fn good(r: &Reader<'_>) -> bool
        requires { length r.now.src.now ≡ TOTAL }
        ensures { result ≡ all_good TABLE r.now.src.now }
    {
        r.is_code::<Partition>(4)
            & r.is_text(9, 12)
            & r.is_text(21, 20)
            & r.is_text(41, 12)
            & r.is_code::<ExecType>(53)
            & r.is_text(54, 12)
            & r.is_code::<Status>(66)
            & r.is_text(92, 6)
            & r.is_code::<Side>(98)
            & r.is_text(107, 11)
            & r.is_code_when::<Liquidity>(118, 53, Codes::TradeOrCancel)
            & r.is_code::<Book>(135)
            & r.is_code_when::<TradeType>(136, 53, Codes::TradeOnly)
            & r.is_code::<Capacity>(137)
            & r.is_code::<PriceDifferential>(138)
    }
}

impl<'a> Framed<'a> for ExecutionReport<'a> {
    ghost use Rattle.order_messages.specs.Reports.{execution_report_contents, execution_report_places};

    ghost contents = { λ m. execution_report_contents m };

    ghost places = { λ m. execution_report_places m };

    fn fields(r: &Reader<'a>) -> Self {
        ExecutionReport {
            partition: r.code(4),
            sequence: r.i32(5),
            execution_id: r.text(9),
            client_order_id: r.text(21),
            order_id: r.text(41),
            execution: execution_at(r),
            reference_id: r.text(54),
            status: r.code(66),
            executed_price: r.price(71),
            executed_quantity: r.i32(79),
            leaves_quantity: r.i32(83),
            display_quantity: r.i32(88),
            symbol: r.text(92),
            side: r.code(98),
            secondary_order_id: r.u64(99),
            counterparty: r.text(107),
            trade_match_id: r.u64(119),
            transact_time: r.time(127),
            book: r.code(135),
            capacity: r.code(137),
            price_differential: r.code(138),
        }
    }

    fn put(&self, out: &mut [u8]) {
        put_code(out, 4, &self.partition);
        put_i32(out, 5, &self.sequence);
        put_text(out, 9, &self.execution_id);
        put_text(out, 21, &self.client_order_id);
        put_text(out, 41, &self.order_id);
        put_code(out, 53, &self.kind());
        put_text(out, 54, &self.reference_id);
        put_code(out, 66, &self.status);
        put_reject_code(out, 67, &self.execution);
        put_price(out, 71, &self.executed_price);
        put_i32(out, 79, &self.executed_quantity);
        put_i32(out, 83, &self.leaves_quantity);
        put_blank(out, 87, 1);
        put_i32(out, 88, &self.display_quantity);
        put_text(out, 92, &self.symbol);
        put_code(out, 98, &self.side);
        put_u64(out, 99, self.secondary_order_id);
        put_text(out, 107, &self.counterparty);
        put_liquidity(out, 118, &self.execution);
        put_u64(out, 119, self.trade_match_id);
        put_time(out, 127, &self.transact_time);
        put_code(out, 135, &self.book);
        put_trade_type(out, 136, &self.execution);
        put_code(out, 137, &self.capacity);
        put_code(out, 138, &self.price_differential);
        put_blank(out, 139, 6);
    }
}

impl ExecutionReport<'_> {
    /// Its exec type.
    pub fn kind(&self) -> ExecType
        ensures { result ≡ exec_type_of self.now.execution }
    {
        match &self.execution {
            Some(execution) => execution.kind(),
            None => ExecType::Unspecified,
        }
    }
}

// Why the report is sent, with what only such a report tells.
fn execution_at(r: &Reader<'_>) -> Option<Execution<i32>>
    requires room { TOTAL ≤ length r.now.src.now }
    requires good { AllOk execution_fields r.now.src.now }
    ensures { Says (execution_contents result) execution_fields r.now.src.now }
{
    let kind: ExecType = r.code(53);
    match kind {
        ExecType::Unspecified => None,
        ExecType::New => Some(Execution::New),
        ExecType::Cancelled => Some(Execution::Cancelled),
        ExecType::Replaced => Some(Execution::Replaced),
        ExecType::Rejected => Some(Execution::Rejected(r.i32(67))),
        ExecType::Expired => Some(Execution::Expired),
        ExecType::Restated => Some(Execution::Restated),
        ExecType::Trade => Some(Execution::Trade(r.code(118), r.code(136))),
        ExecType::TradeCancel => Some(Execution::TradeCancel(r.code(118))),
    }
}

// The reject code, or nulls.
#[tactic(auto, unfolding(layout::specs::Writing::field_bytes, layout::specs::Layout::taken))]
fn put_reject_code(out: &mut [u8], at: usize, execution: &Option<Execution<i32>>)
    requires { at + 4 ≤ length out.old }
    ensures wrote { out.new ≡ over out.old at (field_bytes (reject_field at) (execution_reject execution.now)) }
    ensures holds { Holds (λ n. exec_type_code (exec_type_of execution.now)) (reject_field at)
        (execution_reject execution.now) }
{
    match execution {
        Some(Execution::Rejected(code)) => put_i32(out, at, code),
        _ => put_blank(out, at, 4),
    }
}

// Whether the trade added or removed liquidity, or a null.
#[tactic(auto, unfolding(layout::specs::Writing::field_bytes, layout::specs::Layout::taken))]
fn put_liquidity(out: &mut [u8], at: usize, execution: &Option<Execution<i32>>)
    requires { at + 1 ≤ length out.old }
    ensures wrote { out.new ≡ over out.old at (field_bytes (liquidity_field at) (execution_liquidity execution.now)) }
    ensures holds { Holds (λ n. exec_type_code (exec_type_of execution.now)) (liquidity_field at)
        (execution_liquidity execution.now) }
{
    match execution {
        Some(Execution::Trade(liquidity, _) | Execution::TradeCancel(liquidity)) => {
            put_code(out, at, liquidity)
        }
        _ => put_blank(out, at, 1),
    }
}

// Whether the executed part was shown, or a null.
#[tactic(auto, unfolding(layout::specs::Writing::field_bytes, layout::specs::Layout::taken))]
fn put_trade_type(out: &mut [u8], at: usize, execution: &Option<Execution<i32>>)
    requires { at + 1 ≤ length out.old }
    ensures wrote { out.new ≡ over out.old at (field_bytes (trade_field at) (execution_trade execution.now)) }
    ensures holds { Holds (λ n. exec_type_code (exec_type_of execution.now)) (trade_field at)
        (execution_trade execution.now) }
{
    match execution {
        Some(Execution::Trade(_, trade_type)) => put_code(out, at, trade_type),
        _ => put_blank(out, at, 1),
    }
}
