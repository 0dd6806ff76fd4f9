// A New Order.
ghost use Rattle.std.specs.Prelude.{◌≡◌, ◌≤◌, ◌+◌, true, None, Err, IfSome, IfOk};
ghost use Rattle.std.specs.Result.{result_err};
ghost use Rattle.orders.specs.Rows.{orderable};
ghost use Rattle.orders.specs.Tables.{open_count};
ghost use Rattle.requests.specs.Deciding.{Does, spare};
ghost use Rattle.requests.specs.NewOrders.{judged, new_order, ordered, placement_of, rejected, room_fault, terms_of};

use crate::checks::{is_own, is_plain, is_priced, shown, told_capacity};
use crate::listing::{Listing, look_up};
use codes::report::Status;
use matching::matcher::Matcher;
use order_messages::new_order::NewOrder;
use orders::row::{Ask, Terms};
use refusals::{Refusal, Turned};
use reports::report::{Entry, ExecutionReport, Report};
use store::Store;
use terms::execution::Execution;
use terms::lifetime::Lifetime;
use texts::values::{Price, Time};
use venue::venue::Venue;

/// How long a New Order that is taken waits, and what it asks for.
#[derive(Clone, Copy)]
pub struct Placement {
    pub lifetime: Lifetime,
    pub ask: Ask,
}

// What it asks for; none where that is not taken.
fn placement_of(m: &NewOrder<'_>) -> Option<Placement>
    ensures value { result ≡ placement_of m.now }
    ensures orderable { IfSome result (λ p. orderable p.ask.quantity ≡ true) }
{
    let fits = is_priced(m.pricing)
        && is_plain(m.min_quantity, m.passive_only)
        && is_own(m.capacity);
    if !fits {
        return None;
    }
    let lifetime = Lifetime::of(m.time_in_force)?;
    let quantity = shown(m.quantity, m.display_quantity)?;
    let ask = Ask {
        client: m.client_order_id.text.keep(),
        price: m.pricing.price(),
        display: m.display_quantity,
        quantity,
    };
    Some(Placement { lifetime, ask })
}

fn terms_of(line: usize, place: usize, lifetime: Lifetime, m: &NewOrder<'_>) -> Terms
    ensures { result ≡ terms_of line place lifetime m.now }
{
    Terms {
        owner: line,
        instrument: place,
        side: m.side,
        book: m.target.book(),
        kind: m.pricing.order_type(),
        lifetime,
        capacity: told_capacity(m.capacity),
        auto_cancel: m.auto_cancel,
    }
}

fn rejected(refusal: Refusal, listing: &Listing, m: &NewOrder<'_>, time: Time) -> ExecutionReport
    ensures { result ≡ rejected refusal listing.now m.now time }
{
    ExecutionReport {
        client: m.client_order_id.text.keep(),
        order: None,
        execution: Execution::Rejected(refusal),
        reference: None,
        status: Status::Rejected,
        price: Price { raw: 0 },
        quantity: 0,
        leaves: 0,
        display: m.display_quantity,
        symbol: listing.instrument.symbol,
        side: m.side,
        trade: 0,
        time,
        book: m.target.book(),
        capacity: told_capacity(m.capacity),
    }
}

// Tells that an order is not accepted.
fn reject<M: Matcher, S: Store>(
    venue: &mut Venue<M, S>,
    line: usize,
    refusal: Refusal,
    listing: &Listing,
    m: &NewOrder<'_>,
    time: Time,
) -> Result<(), Turned>
    requires { open_count venue.old.state.rows + 1 ≤ venue.old.free }
    ensures { Does M.Did time (ordered line m.now time listing.now (Err refusal)) venue.old result venue.new }
{
    let report = Report::Execution(rejected(refusal, listing, m, time));
    let entry = Entry {
        owner: line,
        report,
    };
    venue.note(listing.instrument.partition, entry);
    Ok(())
}

// Why there is no room for one order more.
fn check_room<M: Matcher, S: Store>(venue: &Venue<M, S>) -> Result<(), Refusal>
    ensures { result_err result ≡ room_fault venue.now.state }
{
    if venue.is_full() {
        return Err(Refusal::OrdersFull);
    }
    let matcher = venue.matcher();
    if matcher.open_count() >= matcher.capacity() {
        return Err(Refusal::MatcherFull);
    }
    Ok(())
}

// Why it is not accepted; else what it asks for.
fn judge<M: Matcher, S: Store>(venue: &Venue<M, S>, m: &NewOrder<'_>) -> Result<Placement, Refusal>
    ensures value { result ≡ judged m.now venue.now.state }
    ensures orderable { IfOk result (λ p. orderable p.ask.quantity ≡ true) }
    ensures room { IfOk result (λ p. room_fault venue.now.state ≡ None) }
{
    if !venue.matcher().serves(m.target.book()) {
        return Err(Refusal::BookNotServed);
    }
    let placement = placement_of(m).ok_or(Refusal::BadTerms)?;
    check_room(venue)?;
    Ok(placement)
}

/// Accepts an order of a line's CompID, or reports why not. Turned down, nothing changes.
pub fn new_order<M: Matcher, S: Store>(
    venue: &mut Venue<M, S>,
    line: usize,
    m: &NewOrder<'_>,
    time: Time,
) -> Result<(), Turned>
    ensures { Does M.Did time (new_order line m.now time venue.old.state (spare venue.old)) venue.old result venue.new }
{
    let Some(listing) = look_up(venue.instruments(), &m.symbol) else {
        return Err(Turned::UnknownInstrument);
    };
    if venue.spare() < 2 {
        return Err(Turned::NoPlace);
    }
    match judge(venue, m) {
        Ok(Placement { lifetime, ask }) => {
            venue.open(terms_of(line, listing.place, lifetime, m), ask, time);
            Ok(())
        }
        Err(refusal) => reject(venue, line, refusal, &listing, m, time),
    }
}
