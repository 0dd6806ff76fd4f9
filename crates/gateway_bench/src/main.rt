// Plays a full day on a gateway, over each matcher and each store, and says how long its calls took.
#![tactic(auto)]

mod walk;

use bench_words::plan::{Asked, BLOCK, Plan, config, made_up};
use book_pair::pair::BookPair;
use codes::session::Partition;
use console::{About, Task};
use dark_book::book::DarkBook;
use gateway::gateway::Gateway;
use limits::{INSTRUMENTS, MESSAGE_BYTES, REPORTS, TRADES};
use lit_book::book::LitBook;
use matching::matcher::Matcher;
use matching::tape::{Line, Tape};
use std::alloc::{AllocError, Global};
use std::io;
use std::process::ExitCode;
use std::rt::Clock;
use std::time::{Duration, Instant};
use store::Store;
use store::records::Records;
use texts::values::Price;

const ABOUT: About = About {
    name: "gateway_bench",
    summary: "Plays a full made-up day of eight CompIDs on a gateway: 256 orders in eight rows, each with its trades, replacements, cancels, sends, downloads, trade cancellations and mass cancels; over the lit book, a pair with the dark book, and the tape, and over both stores.",
    words: "How many calls there were and what the day came to goes to standard output: the same in each run. The time of a call of each kind, in nanoseconds, goes to standard error, of the orders and events row by row, and how many calls a second a day had. Nothing is read.",
};

// What a row of calls took, in nanoseconds for each.
fn each(time: Duration, calls: usize) -> u128 {
    time.as_nanos().checked_div(calls as u128).unwrap_or(0)
}

// Prints how many calls a row had, and what each took; says how many.
fn told<R: Print + Eprint + Clock>(
    rt: &R,
    name: &str,
    what: &str,
    calls: usize,
    start: Instant,
) -> io::Result<usize> {
    let cost = each(start.elapsed(rt)?, calls);
    println!(rt; "{name}: {calls} calls, {what}")?;
    eprintln!(rt; "{name}: {cost} ns a call, {what}")?;
    Ok(calls)
}

fn row<R: Print + Eprint + Clock, M: Matcher, S: Store>(
    rt: &R,
    name: &str,
    what: &str,
    gateway: &mut Gateway<M, S>,
    messages: &[Asked],
) -> io::Result<usize> {
    let start = Instant::now(rt)?;
    let calls = walk::hear(gateway, messages);
    told(rt, name, what, calls, start)
}

// A row of orders, and then every event that it leads to; says how many calls those took.
fn order_row<R: Eprint + Clock, M: Matcher, S: Store>(
    rt: &R,
    name: &str,
    place: usize,
    gateway: &mut Gateway<M, S>,
    orders: &[Asked],
) -> io::Result<usize> {
    let start = Instant::now(rt)?;
    let calls = walk::hear(gateway, orders);
    let order = each(start.elapsed(rt)?, calls);
    let start = Instant::now(rt)?;
    let calls = walk::step(gateway);
    let event = each(start.elapsed(rt)?, calls);
    eprintln!(rt; "{name}: {order} ns an order, {event} ns an event, row {place}")?;
    Ok(calls)
}

fn order_rows<R: Print + Eprint + Clock, M: Matcher, S: Store>(
    rt: &R,
    name: &str,
    gateway: &mut Gateway<M, S>,
    orders: &[Asked],
) -> io::Result<usize> {
    let mut events: usize = 0;
    for (place, row) in orders.chunks(BLOCK).enumerate() {
        events = events.saturating_add(order_row(rt, name, place, gateway, row)?);
    }
    let orders = orders.len();
    println!(rt; "{name}: {orders} calls, orders")?;
    println!(rt; "{name}: {events} calls, events")?;
    Ok(events.saturating_add(orders))
}

// What goes out: what is sent, and what is downloaded.
fn outward<R: Print + Eprint + Clock + AllocGlobal, M: Matcher, S: Store>(
    rt: &R,
    name: &str,
    gateway: &mut Gateway<M, S>,
) -> io::Result<usize> {
    let start = Instant::now(rt)?;
    let calls = walk::send(gateway);
    let sends = told(rt, name, "sends", calls, start)?;
    let start = Instant::now(rt)?;
    let calls = walk::download(rt.alloc(), gateway)?;
    let recovered = told(rt, name, "sends of downloads", calls, start)?;
    Ok(sends.saturating_add(recovered))
}

fn came_to<R: Print, M: Matcher, S: Store>(
    rt: &R,
    name: &str,
    gateway: &Gateway<M, S>,
) -> io::Result<()> {
    let venue = gateway.venue();
    let orders = venue.order_count();
    let trades = venue.trade_count();
    let one = venue.last(Partition::One);
    let two = venue.last(Partition::Two);
    let three = venue.last(Partition::Three);
    println!(rt; "{name}: {orders} orders, {trades} trades, reports {one}, {two} and {three}")
}

// What goes in, and the events that it leads to.
fn inward<R: Print + Eprint + Clock + AllocGlobal, M: Matcher, S: Store>(
    rt: &R,
    name: &str,
    gateway: &mut Gateway<M, S>,
    plan: &Plan,
) -> io::Result<usize> {
    let logons = row(rt, name, "logons", gateway, &plan.logons)?;
    let recoveries = walk::hear_recovery(gateway, &plan.logons);
    let orders = order_rows(rt, name, gateway, &plan.orders)?;
    let replaces = row(rt, name, "replacements", gateway, &plan.replaces)?;
    let cancels = row(rt, name, "cancels", gateway, &plan.cancels)?;
    let start = Instant::now(rt)?;
    let calls = walk::undo(gateway);
    let undone = told(rt, name, "trade cancellations", calls, start)?;
    let mass_cancels = row(rt, name, "mass cancels", gateway, &plan.mass_cancels)?;
    let rows = [
        logons,
        recoveries,
        orders,
        replaces,
        cancels,
        undone,
        mass_cancels,
    ];
    Ok(rows.iter().fold(0, |sum, calls| sum.saturating_add(*calls)))
}

fn play<R: Print + Eprint + Clock + AllocGlobal, M: Matcher, S: Store>(
    rt: &R,
    name: &str,
    gateway: &mut Gateway<M, S>,
    plan: &Plan,
) -> io::Result<()> {
    let start = Instant::now(rt)?;
    let taken = inward(rt, name, gateway, plan)?;
    let given = outward(rt, name, gateway)?;
    let calls = taken.saturating_add(given);
    let cost = each(start.elapsed(rt)?, calls);
    let rate = 1_000_000_000_u128.checked_div(cost).unwrap_or(0);
    eprintln!(rt; "{name}: {rate} calls a second over the day")?;
    came_to(rt, name, gateway)
}

// A day over a matcher and a store that hold nothing, if there is memory for them. They are let go here, where they are
// of any type: elsewhere all that theirs hold is taken apart in the function's proof.
fn day<R: Print + Eprint + Clock + AllocGlobal, M: Matcher + Drop, S: Store + Drop>(
    rt: &R,
    name: &str,
    matcher: Result<M, AllocError>,
    store: Result<S, AllocError>,
    plan: &Plan,
) -> io::Result<()> {
    let matcher = matcher?;
    let store = store?;
    let Ok(config) = config(rt.alloc()) else {
        return println!(rt; "{name}: no configuration");
    };
    match Gateway::start(rt.alloc(), config, matcher, store) {
        Ok(mut gateway) => play(rt, name, &mut gateway, plan),
        Err(_) => println!(rt; "{name}: not started"),
    }
}

// A tape that trades each order of the first row sixteen times: as many trades as a day has room for.
fn tape(heap: Global) -> Result<Tape, AllocError> {
    let mut lines = Vec::new(heap);
    for place in 0..TRADES as u64 {
        lines.push(Line {
            number: place % 32 + 1,
            quantity: 5,
            price: Price {
                raw: 10_050_000_000,
            },
        })?;
    }
    Tape::new(heap, lines)
}

// A pair of the lit and the dark book, with a midpoint for each instrument.
fn pair(heap: Global) -> Result<BookPair<LitBook, DarkBook>, AllocError> {
    let lit = LitBook::new(heap)?;
    let mut dark = DarkBook::new(heap)?;
    for instrument in 0..INSTRUMENTS {
        let price = Price {
            raw: 10_050_000_000,
        };
        let _taken = dark.midpoint(instrument, Some(price));
    }
    match BookPair::join(lit, dark) {
        Ok(pair) => Ok(pair),
        Err(_) => Err(AllocError),
    }
}

/// The matchers over both stores.
struct Bench;

impl Task for Bench {
    fn work<R: Print + Eprint + Clock + AllocGlobal>(&mut self, rt: &R) -> io::Result<()> {
        let heap = rt.alloc();
        let plan = made_up(heap, false)?;
        let bytes = REPORTS * MESSAGE_BYTES;
        let records = Records::new(heap, REPORTS);
        day(rt, "lit book, records", LitBook::new(heap), records, &plan)?;
        let wire = wire_store::new(heap, bytes);
        day(rt, "lit book, wire bytes", LitBook::new(heap), wire, &plan)?;
        let both = made_up(heap, true)?;
        let records = Records::new(heap, REPORTS);
        day(rt, "pair, records", pair(heap), records, &both)?;
        let wire = wire_store::new(heap, bytes);
        day(rt, "pair, wire bytes", pair(heap), wire, &both)?;
        let records = Records::new(heap, REPORTS);
        day(rt, "tape, records", tape(heap), records, &plan)?;
        let wire = wire_store::new(heap, bytes);
        day(rt, "tape, wire bytes", tape(heap), wire, &plan)
    }
}

fn main(rt: HostRuntime) -> ExitCode {
    let mut bench = Bench;
    let code = console::run_task(&rt, ABOUT, &mut bench);
    let Bench = bench;
    code
}
