// What a mass cancel would take, counted before it is sent.
ghost use Rattle.std.specs.Prelude.{◌≡◌, Some};
ghost use Rattle.std.specs.Option.{option_map};
ghost use Rattle.gateway.specs.Hearing.{firm};
ghost use Rattle.gateway.specs.Counting.{Few, counted, counted_in, going_of};
ghost use Rattle.gateway.specs.Foretelling.{Foretold};
ghost use Rattle.gateway.specs.Previews.{RequestRead, RequestTaken, alone, by_plan, is_mass_cancel, preview_number, preview_offset, previewed};
ghost use Rattle.gateway.specs.State.{venue_of};
ghost use Rattle.keyed.specs.Numbers.{under};
ghost use Rattle.requests.specs.Deciding.{spare};
ghost use Rattle.requests.specs.MassCancels.{aim_of, planned};
ghost use Rattle.requests.specs.Selection.{picks};

use crate::fault::{GatewayFault, SessionFault};
use crate::gateway::Gateway;
use configuration::instrument::Instrument;
use layout::fault::Fault;
use matching::matcher::Matcher;
use order_messages::order_mass_cancel_request::OrderMassCancelRequest;
use partitions::per_partition::PerPartition;
use refusals::{Refusal, Turned};
use requests::mass_cancel::{Sweep, plan};
use requests::selection::Selection;
use sessions::session::Channel;
use store::Store;
use thiserror::Error;
use venue::venue::Venue;
use wire::kinds::{Channel as Reader, Kind};
use wire::message::{Message, read};

/// What would go of a partition: how many orders, and how many shares are open of them.
#[derive(Clone, Copy, Debug, PartialEq)]
pub struct Going {
    pub orders: u64,
    pub shares: u64,
}

/// Why nothing would go, by who says so to whoever sends the request.
#[derive(Clone, Copy, Debug, PartialEq, Error)]
pub enum PreviewFault {
    /// The call itself is refused, or the line is not logged on.
    #[error("{0}")]
    Call(GatewayFault),
    /// A Reject.
    #[error("the request would be turned down")]
    Turned(Turned),
    /// A report that is stored.
    #[error("the request would be refused in a report")]
    Refused(Refusal),
}

impl From<GatewayFault> for PreviewFault {
    ghost use Rattle.gateway.specs.declared.preview.PreviewFault.TheVariants.{Call};

    ghost from_gives = { λ e r. r ≡ Call e };

    fn from(fault: GatewayFault) -> PreviewFault {
        PreviewFault::Call(fault)
    }
}

impl PreviewFault {
    /// The number of the check that fails.
    pub fn number(self) -> u8
        ensures { result ≡ preview_number self }
    {
        match self {
            PreviewFault::Call(fault) => fault.number(),
            PreviewFault::Turned(turned) => turned.number(),
            PreviewFault::Refused(refusal) => refusal.number(),
        }
    }

    /// Where in the message it fails, if it is a check of the message's.
    pub fn offset(self) -> Option<usize>
        ensures { result ≡ preview_offset self }
    {
        match self {
            PreviewFault::Call(fault) => fault.offset(),
            PreviewFault::Turned(_) | PreviewFault::Refused(_) => None,
        }
    }
}

// The type byte is a Mass Cancel Request's.
fn is_mass_cancel(bytes: &[u8]) -> bool
    ensures { result ≡ is_mass_cancel bytes.now }
{
    bytes.get(3).copied().unwrap_or(0) == Kind::OrderMassCancelRequest.letter()
}

// What is wrong to a reader that takes such a request alone: any other type is none of its.
fn alone(own: bool, fault: Fault) -> Fault
    ensures { Some result ≡ alone own (Some fault) }
{
    match fault {
        Fault::Short | Fault::Start => fault,
        _ if own => fault,
        _ => Fault::Unknown,
    }
}

// Reads a Mass Cancel Request, and nothing else.
fn read_request<'a>(bytes: &'a [u8]) -> Result<OrderMassCancelRequest<'a>, Fault>
    ensures { RequestRead bytes.now result }
{
    match read(Reader::RealTime, bytes) {
        Ok(Message::OrderMassCancelRequest(m)) => Ok(m),
        Ok(_) => Err(Fault::Unknown),
        Err(fault) => Err(alone(is_mass_cancel(bytes), fault)),
    }
}

// Counts an order of so many shares in the partition of its instrument.
fn count(going: &mut PerPartition<Going>, instrument: Option<&Instrument>, shares: u32)
    requires { Few going.old }
    ensures { going.new ≡ counted_in (option_map (λ i. i.now) instrument.entry) shares going.old }
{
    if let Some(instrument) = instrument {
        let there = going.at_mut(instrument.partition);
        there.orders += 1;
        there.shares += u64::from(shares);
    }
}

// Counts the order of a number, if it is meant.
fn count_if<M: Matcher, S: Store>(
    going: &mut PerPartition<Going>,
    venue: &Venue<M, S>,
    selection: &Selection<'_>,
    number: u64,
)
    requires { Few going.old }
    ensures { going.new
        ≡ counted (picks venue.now.state.instruments selection.now) venue.now.state.instruments
        (under venue.now.state.rows number) going.old }
{
    let Some(order) = venue.order(number) else {
        return;
    };
    let row = order.row();
    if selection.picks(venue.instruments(), &row) {
        count(
            going,
            venue.instruments().get(row.terms.instrument),
            row.leaves,
        );
    }
}

// The orders that are meant, and the shares open of them, by partition.
fn count_all<M: Matcher, S: Store>(
    venue: &Venue<M, S>,
    selection: &Selection<'_>,
) -> PerPartition<Going>
    ensures { result
        ≡ going_of (picks venue.now.state.instruments selection.now) venue.now.state.instruments venue.now.state.rows }
{
    // for the proof: an order has a billion shares at most
    venue.sound();
    let none = Going {
        orders: 0,
        shares: 0,
    };
    let mut going = PerPartition {
        one: none,
        two: none,
        three: none,
    };
    for i in 0..venue.order_count() {
        count_if(&mut going, venue, selection, i + 1);
    }
    going
}

impl<M: Matcher, S: Store> Gateway<M, S> {
    // The request, behind the checks that come before it is looked at.
    fn request<'a>(
        &self,
        line: usize,
        bytes: &'a [u8],
    ) -> Result<OrderMassCancelRequest<'a>, GatewayFault>
        ensures { RequestTaken line bytes.now self.now.state result }
    {
        self.check_line(line)?;
        let m = read_request(bytes).map_err(SessionFault::Wire)?;
        self.check_on(Channel::RealTime, line)?;
        Ok(m)
    }

    // What would go by a request.
    fn outlook(
        &self,
        line: usize,
        m: &OrderMassCancelRequest<'_>,
    ) -> Result<PerPartition<Going>, PreviewFault>
        ensures { result ≡ by_plan self.now.state.venue (planned (aim_of m.now.scope) self.now.state.participants
            (firm self.now.state line) line self.now.state.venue (spare (venue_of self.now))) }
    {
        match plan(&self.venue, &self.participants, self.firm(line), line, m) {
            Err(turned) => Err(PreviewFault::Turned(turned)),
            Ok(Sweep::Unserved(_)) => Err(PreviewFault::Refused(Refusal::BookNotServed)),
            Ok(Sweep::Within(_, selection) | Sweep::Everywhere(selection)) => {
                Ok(count_all(&self.venue, &selection))
            }
        }
    }

    // What would go by the bytes of one.
    fn forecast(&self, line: usize, bytes: &[u8]) -> Result<PerPartition<Going>, PreviewFault>
        ensures { result ≡ previewed line bytes.now (spare (venue_of self.now)) self.now.state }
    {
        let m = self.request(line, bytes)?;
        self.outlook(line, &m)
    }

    /// Counts what a Mass Cancel Request would take if it were given on a line's real-time channel now: of each
    /// partition how many orders, and how many shares are open of them. Nothing is changed. Where the request would be
    /// refused it is refused with the same number, tried in this order: 14, 1 to 5 of a reader that takes such a request
    /// alone, so that any other message gets 3, then 10, 20, 29, and 21, which the request is told in a report.
    pub fn preview(&self, line: usize, bytes: &[u8]) -> Result<PerPartition<Going>, PreviewFault>
        ensures exact { result ≡ previewed line bytes.now (spare (venue_of self.now)) self.now.state }
        ensures foretold { Foretold line bytes.now (spare (venue_of self.now)) self.now.state result }
    {
        // for the proof: each order stands under its number
        self.venue.sound();
        self.forecast(line, bytes)
    }
}
