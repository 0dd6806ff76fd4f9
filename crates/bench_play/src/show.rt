// What a day looks like: its orders, and the account at its end.
use bench_account::listing::{Figures, Listed, Naming, Totals};
use codes::code::Code;
use codes::session::Partition;
use gateway::gateway::Gateway;
use matching::matcher::Matcher;
use orders::order::Order;
use std::io;
use store::Store;

// A text that is kept is printable.
fn word(text: &[u8]) -> &str {
    str::from_utf8(text).unwrap_or("?")
}

fn list<R: Print, M: Matcher, S: Store>(
    rt: &R,
    gateway: &Gateway<M, S>,
    order: Order,
) -> io::Result<()> {
    let row = order.row();
    let owner = gateway.participants().get(row.terms.owner);
    let instrument = gateway.venue().instruments().get(row.terms.instrument);
    let naming = Naming {
        number: row.number,
        comp_id: owner.map_or("?", |owner| word(owner.name.as_bytes())),
        symbol: instrument.map_or("?", |instrument| word(instrument.symbol.as_bytes())),
        side: row.terms.side.byte(),
        status: order.status().byte(),
    };
    let figures = Figures {
        ordered: row.ordered,
        executed: row.executed,
        leaves: row.leaves,
        withdrawn: row.withdrawn,
    };
    rt.println(Listed { naming, figures })
}

fn totals<M: Matcher, S: Store>(gateway: &Gateway<M, S>) -> Totals {
    let venue = gateway.venue();
    let one = u64::from(venue.last(Partition::One));
    let two = u64::from(venue.last(Partition::Two));
    let three = u64::from(venue.last(Partition::Three));
    Totals {
        orders: venue.order_count(),
        trades: venue.trade_count(),
        reports: one + two + three,
    }
}

/// Every order, and how many orders, trades and reports there are.
pub fn orders<R: Print, M: Matcher, S: Store>(rt: &R, gateway: &Gateway<M, S>) -> io::Result<()> {
    let totals = totals(gateway);
    for place in 0..totals.orders {
        if let Some(order) = gateway.venue().order(place + 1) {
            list(rt, gateway, order)?;
        }
    }
    rt.println(totals)
}

// The first order whose open shares are not what the matcher holds under its number.
fn astray<M: Matcher, S: Store>(gateway: &Gateway<M, S>) -> Option<u64> {
    let venue = gateway.venue();
    for place in 0..venue.order_count() {
        let number = place + 1;
        if let Some(order) = venue.order(number)
            && order.row().leaves != venue.matcher().open_quantity(number)
        {
            return Some(number);
        }
    }
    None
}

// How many orders are open.
fn open_orders<M: Matcher, S: Store>(gateway: &Gateway<M, S>) -> usize {
    let mut open: usize = 0;
    for place in 0..gateway.venue().order_count() {
        if let Some(order) = gateway.venue().order(place + 1)
            && order.row().leaves > 0
        {
            open = open.saturating_add(1);
        }
    }
    open
}

/// What the day came to: orders, trades, reports, and whether the matcher holds just the open shares of the orders.
pub fn close<R: Print, M: Matcher, S: Store>(rt: &R, gateway: &Gateway<M, S>) -> io::Result<()> {
    let totals = totals(gateway);
    let venue = gateway.venue();
    let one = venue.last(Partition::One);
    let two = venue.last(Partition::Two);
    let three = venue.last(Partition::Three);
    let places = venue.store().places();
    println!(rt; "{totals}")?;
    println!(rt; "reports of partition 1 {one}, 2 {two}, 3 {three}; free places {places}")?;
    let open = open_orders(gateway);
    let held = venue.matcher().open_count();
    match astray(gateway) {
        Some(number) => println!(rt; "the matcher does not hold what is open of order {number}"),
        None if open != held => println!(rt;
            "the matcher holds {held} orders, of which {open} are open"
        ),
        None => println!(rt;
            "the matcher holds what is open of the {open} open orders, and no more"
        ),
    }
}
