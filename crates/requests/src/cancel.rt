// A Cancel Request.
ghost use Rattle.std.specs.Prelude.{◌≡◌, ◌≤◌, ◌<◌, ◌+◌, Some, IfOk};
ghost use Rattle.keyed.specs.Numbers.{under};
ghost use Rattle.orders.specs.Tables.{open_count};
ghost use Rattle.requests.specs.Cancels.{cancel, named_by, refused, served};
ghost use Rattle.requests.specs.Deciding.{Does, spare};

use crate::listing::{Listing, look_up};
use crate::naming::Naming;
use codes::order::Book;
use matching::matcher::Matcher;
use order_messages::order_cancel_request::OrderCancelRequest;
use orders::order::Order;
use orders::row::Ending;
use refusals::{Refusal, Turned};
use reports::report::{CancelReject, Entry, Report};
use store::Store;
use texts::fixed::FixedText;
use texts::values::Time;
use venue::venue::Venue;

// An open order that is named, in a book that is served.
pub(crate) fn served<M: Matcher, S: Store>(
    venue: &Venue<M, S>,
    book: Book,
    naming: &Naming,
) -> Result<Order, Refusal>
    ensures value { result ≡ served book naming.now venue.now.state }
    ensures there { IfOk result (λ r. under venue.now.state.rows r.number ≡ Some r) }
    ensures unfinished { IfOk result (λ r. 0 < r.leaves) }
{
    if !venue.matcher().serves(book) {
        return Err(Refusal::BookNotServed);
    }
    naming.order(venue)
}

// Tells that a cancel or a replace is refused.
pub(crate) fn refuse<M: Matcher, S: Store>(
    venue: &mut Venue<M, S>,
    line: usize,
    refusal: Refusal,
    client: FixedText<20>,
    listing: &Listing,
    time: Time,
) -> Result<(), Turned>
    requires { open_count venue.old.state.rows + 1 ≤ venue.old.free }
    ensures { Does M.Did time (refused line refusal client listing.now time) venue.old result venue.new }
{
    let report = Report::CancelReject(CancelReject {
        client,
        reason: refusal,
        time,
    });
    let entry = Entry {
        owner: line,
        report,
    };
    venue.note(listing.instrument.partition, entry);
    Ok(())
}

fn named_by(line: usize, listing: &Listing, m: &OrderCancelRequest<'_>) -> Naming
    ensures { result ≡ named_by line listing.now m.now }
{
    Naming {
        line,
        order: m.order_id,
        original: m.original_id.keep(),
        place: listing.place,
        side: m.side,
        book: m.book,
    }
}

/// Cancels an open order of a line's CompID, or reports why not. Turned down, nothing changes.
pub fn cancel<M: Matcher, S: Store>(
    venue: &mut Venue<M, S>,
    line: usize,
    m: &OrderCancelRequest<'_>,
    time: Time,
) -> Result<(), Turned>
    ensures { Does M.Did time (cancel line m.now time venue.old.state (spare venue.old)) venue.old result venue.new }
{
    let Some(listing) = look_up(venue.instruments(), &m.symbol) else {
        return Err(Turned::UnknownInstrument);
    };
    let client = m.client_order_id.text.keep();
    match served(venue, m.book, &named_by(line, &listing, m)) {
        Ok(order) => {
            venue.withdraw(order, Ending::Cancelled, client, time);
            Ok(())
        }
        Err(_) if venue.spare() < 1 => Err(Turned::NoPlace),
        Err(refusal) => refuse(venue, line, refusal, client, &listing, time),
    }
}
