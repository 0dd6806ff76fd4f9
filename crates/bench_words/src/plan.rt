// A made-up day's requests, built before the clock runs, and what its gateway is started with.

use crate::command::{Request, Scope};
use crate::letter::Letter;
use crate::session::Sender;
use codes::order::{Book, Side};
use configuration::config::{Config, StartRefusal};
use configuration::instrument::Instrument;
use configuration::participant::Participant;
use limits::{MESSAGE_BYTES, ORDERS};
use std::alloc::{AllocError, Global};
use terms::lifetime::Lifetime;
use terms::pricing::Pricing;
use texts::fixed::FixedText;
use texts::values::Price;
use wire::message::write;

/// How many lines a day has.
pub const LINES: usize = 8;
/// How many of them come between two runs of the matcher.
pub const BLOCK: usize = 32;

const NAMES: [&str; LINES] = ["C0", "C1", "C2", "C3", "C4", "C5", "C6", "C7"];

const SYMBOLS: [&str; 32] = [
    "S00", "S01", "S02", "S03", "S04", "S05", "S06", "S07", "S08", "S09", "S10", "S11", "S12",
    "S13", "S14", "S15", "S16", "S17", "S18", "S19", "S20", "S21", "S22", "S23", "S24", "S25",
    "S26", "S27", "S28", "S29", "S30", "S31",
];

/// A message, and the line that it comes on.
#[derive(Drop)]
pub struct Asked {
    pub line: usize,
    pub bytes: Vec<u8>,
}

/// The requests of a day.
#[derive(Drop)]
pub struct Plan {
    pub logons: Vec<Asked>,
    pub orders: Vec<Asked>,
    /// One for each order, which may be done by then.
    pub replaces: Vec<Asked>,
    /// One for every fourth.
    pub cancels: Vec<Asked>,
    pub mass_cancels: Vec<Asked>,
}

/// Eight CompIDs of two firms, and 32 instruments on three partitions.
pub fn config(heap: Global) -> Result<Config, StartRefusal> {
    let mut participants = Vec::new(heap);
    for (line, name) in NAMES.iter().enumerate() {
        let firm = (line % 2) as u32;
        let participant = Participant::new(name.as_bytes(), b"secret", firm, true)?;
        if participants.push(participant).is_err() {
            return Err(StartRefusal::NoMemory);
        }
    }
    let mut instruments = Vec::new(heap);
    for (place, symbol) in SYMBOLS.iter().enumerate() {
        let partition = (place % 3) as u8 + 1;
        let instrument = Instrument::new(symbol.as_bytes(), b"SEG", partition)?;
        if instruments.push(instrument).is_err() {
            return Err(StartRefusal::NoMemory);
        }
    }
    Config::new(heap, &participants, &instruments)
}

fn sender(line: usize) -> Sender {
    Sender {
        name: FixedText::new(NAMES[line % LINES].as_bytes()).unwrap_or(FixedText::empty()),
        password: FixedText::new(b"secret").unwrap_or(FixedText::empty()),
    }
}

// The bytes that a request asks for; none where its words do not fit.
fn built(heap: Global, line: usize, request: &Request<'_>) -> Result<Asked, AllocError> {
    let mut message = [0; MESSAGE_BYTES];
    let length = match Letter::of(request, &sender(line)) {
        Ok(letter) => write(&letter.message(), &mut message).unwrap(),
        Err(_) => 0,
    };
    let bytes = Vec::from_slice(heap, &message[..length])?;
    Ok(Asked { line, bytes })
}

// Rows of sells and rows of buys, which cross.
fn side(order: usize) -> Side {
    if order / BLOCK % 2 == 0 {
        Side::Sell
    } else {
        Side::Buy
    }
}

fn price(order: usize) -> Price {
    match side(order) {
        Side::Sell => Price {
            raw: 10_000_000_000,
        },
        Side::Buy => Price {
            raw: 10_100_000_000,
        },
    }
}

fn shares(order: usize) -> i32 {
    (order % 7) as i32 * 10 + 100
}

// Every second order is for the dark book, in a day that has one.
fn book(order: usize, dark: bool) -> Book {
    if dark && order % 2 == 1 {
        Book::DarkMidpoint
    } else {
        Book::Integrated
    }
}

fn new_order(heap: Global, order: usize, dark: bool) -> Result<Asked, AllocError> {
    let client = format!(in heap; "c{order}")?;
    let request = Request::Order {
        side: side(order),
        symbol: SYMBOLS[order % 32],
        shares: shares(order),
        pricing: Pricing::Limit(price(order)),
        client: client.as_str(),
        lifetime: Lifetime::Day,
        marked: order % 8 == 0,
        book: book(order, dark),
    };
    built(heap, order % LINES, &request)
}

fn replace(heap: Global, order: usize, dark: bool) -> Result<Asked, AllocError> {
    let client = format!(in heap; "r{order}")?;
    let original = format!(in heap; "c{order}")?;
    let request = Request::Replace {
        symbol: SYMBOLS[order % 32],
        side: side(order),
        shares: shares(order).saturating_add(50),
        price: price(order),
        client: client.as_str(),
        original: original.as_str(),
        lifetime: Lifetime::Day,
        book: book(order, dark),
    };
    built(heap, order % LINES, &request)
}

fn cancel(heap: Global, order: usize, dark: bool) -> Result<Asked, AllocError> {
    let client = format!(in heap; "x{order}")?;
    let original = format!(in heap; "r{order}")?;
    let request = Request::Cancel {
        symbol: SYMBOLS[order % 32],
        side: side(order),
        client: client.as_str(),
        original: original.as_str(),
        book: book(order, dark),
    };
    built(heap, order % LINES, &request)
}

/// A request for a line's download of a partition, from a number on.
pub fn missed(heap: Global, line: usize, partition: i8, last: u32) -> Result<Asked, AllocError> {
    built(heap, line, &Request::Missed { partition, last })
}

/// The requests of such a day, with a dark book or without.
pub fn made_up(heap: Global, dark: bool) -> Result<Plan, AllocError> {
    let mut logons = Vec::new(heap);
    let mut mass_cancels = Vec::new(heap);
    for line in 0..LINES {
        logons.push(built(heap, line, &Request::Logon)?)?;
        let mass_cancel = Request::MassCancel {
            client: "m",
            firm: line % 2 == 0,
            scope: Scope::All,
        };
        mass_cancels.push(built(heap, line, &mass_cancel)?)?;
    }
    let mut orders = Vec::new(heap);
    let mut replaces = Vec::new(heap);
    let mut cancels = Vec::new(heap);
    for order in 0..ORDERS {
        orders.push(new_order(heap, order, dark)?)?;
        replaces.push(replace(heap, order, dark)?)?;
        if order % 4 == 0 {
            cancels.push(cancel(heap, order, dark)?)?;
        }
    }
    Ok(Plan {
        logons,
        orders,
        replaces,
        cancels,
        mass_cancels,
    })
}
