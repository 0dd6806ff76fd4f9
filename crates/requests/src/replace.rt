// A Cancel/Replace Request.
ghost use Rattle.std.specs.Prelude.{◌≡◌, true, Some, is_none, IfOk, IfSome};
ghost use Rattle.keyed.specs.Numbers.{under};
ghost use Rattle.orders.specs.Orders.{replace_fault};
ghost use Rattle.orders.specs.Rows.{orderable};
ghost use Rattle.requests.specs.Replaces.{ask_of, named_by, judged, replace};
ghost use Rattle.requests.specs.Deciding.{Does, spare};

use crate::cancel::{refuse, served};
use crate::checks::{is_plain, may_cost, shown};
use crate::listing::{Listing, look_up};
use crate::naming::Naming;
use matching::matcher::Matcher;
use order_messages::order_cancel_replace_request::OrderCancelReplaceRequest;
use orders::order::Order;
use orders::row::{Ask, Row};
use refusals::{Refusal, Turned};
use store::Store;
use texts::values::Time;
use venue::venue::Venue;

/// An order, and what it is to become.
#[derive(Clone, Copy)]
pub struct Replacement {
    pub order: Order,
    pub ask: Ask,
}

// What it asks for of an order whose time in force it has; none where that is not taken.
fn ask_of(m: &OrderCancelReplaceRequest<'_>, row: &Row) -> Option<Ask>
    ensures value { result ≡ ask_of m.now row.now }
    ensures orderable { IfSome result (λ a. orderable a.quantity ≡ true) }
{
    let fits = may_cost(row.terms.kind, m.limit_price) && is_plain(m.min_quantity, m.passive_only);
    if !fits {
        return None;
    }
    let quantity = shown(m.quantity, m.display_quantity)?;
    Some(Ask {
        client: m.client_order_id.text.keep(),
        price: m.limit_price,
        display: m.display_quantity,
        quantity,
    })
}

fn named_by(line: usize, listing: &Listing, m: &OrderCancelReplaceRequest<'_>) -> Naming
    ensures { result ≡ named_by line listing.now m.now }
{
    Naming {
        line,
        order: m.order_id,
        original: m.original_id.keep(),
        place: listing.place,
        side: m.side,
        book: m.target.book(),
    }
}

// The order and what it becomes, or why not.
fn judge<M: Matcher, S: Store>(
    venue: &Venue<M, S>,
    line: usize,
    listing: &Listing,
    m: &OrderCancelReplaceRequest<'_>,
) -> Result<Replacement, Refusal>
    ensures value { result ≡ judged line listing.now m.now venue.now.state }
    ensures there { IfOk result (λ r. under venue.now.state.rows r.order.number ≡ Some r.order) }
    ensures allowed { IfOk result (λ r. is_none (replace_fault r.ask.quantity r.order) ≡ true) }
{
    let order = served(venue, m.target.book(), &named_by(line, listing, m))?;
    let row = order.row();
    if !row.terms.lifetime.is_asked(m.time_in_force) {
        return Err(Refusal::TimeInForceDiffers);
    }
    let ask = ask_of(m, &row).ok_or(Refusal::BadTerms)?;
    order.replace(ask)?;
    Ok(Replacement { order, ask })
}

/// Replaces quantity, price and client order id of an open order of a line's CompID, or reports why not. Turned down,
/// nothing changes.
pub fn replace<M: Matcher, S: Store>(
    venue: &mut Venue<M, S>,
    line: usize,
    m: &OrderCancelReplaceRequest<'_>,
    time: Time,
) -> Result<(), Turned>
    ensures { Does M.Did time (replace line m.now time venue.old.state (spare venue.old)) venue.old result venue.new }
{
    let Some(listing) = look_up(venue.instruments(), &m.symbol) else {
        return Err(Turned::UnknownInstrument);
    };
    if venue.spare() < 1 {
        return Err(Turned::NoPlace);
    }
    match judge(venue, line, &listing, m) {
        Ok(r) => {
            venue.replace(r.order, r.ask, time);
            Ok(())
        }
        Err(refusal) => {
            let client = m.client_order_id.text.keep();
            refuse(venue, line, refusal, client, &listing, time)
        }
    }
}
