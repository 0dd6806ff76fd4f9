// A Mass Cancel Request.
ghost use Rattle.std.specs.Prelude.{◌≡◌, ◌≤◌, ◌+◌};
ghost use Rattle.orders.specs.Tables.{open_count};
ghost use Rattle.requests.specs.Deciding.{Does, spare};
ghost use Rattle.requests.specs.MassCancels.{Roomed, accepted, acts_of, aim_of, has_segment, in_all, in_listing, in_segment, mass_cancel, mass_entry, plan_of, planned, planned_as, refused, swept, told_count, told_everywhere};
ghost use Rattle.requests.specs.Selection.{in_reach, is_owner, picks};
ghost use Rattle.texts.specs.Bytes.{said};
ghost use Rattle.texts.specs.Says.{says};
ghost use Rattle.texts.specs.declared.values.Time.{Time as Moment};
ghost use Rattle.venue.specs.Enacting.{Enacts, Silent};

use crate::listing::look_up;
use crate::selection::{Cause, Owners, Reach, Selection, withdraw_all};
use codes::order::Book;
use codes::session::Partition;
use configuration::instrument::Instrument;
use configuration::participant::Participant;
use matching::matcher::Matcher;
use order_messages::order_mass_cancel_request::{OrderMassCancelRequest, Scope};
use refusals::{Refusal, Turned};
use reports::report::{Entry, MassAnswer, MassCancelReport, Report};
use store::Store;
use texts::names::Segment;
use texts::text::Text;
use texts::values::Time;
use venue::venue::Venue;

/// What a Mass Cancel Request comes to, where it is not turned down.
#[derive(Clone, Copy)]
pub enum Sweep<'a> {
    /// Its book is not served: nothing is cancelled, and the requester is told so in a partition.
    Unserved(Partition),
    /// Orders of a partition are cancelled, and the requester is told there.
    Within(Partition, Selection<'a>),
    /// Orders of all partitions are cancelled, and the requester is told in each.
    Everywhere(Selection<'a>),
}

fn has_segment(instruments: &[Instrument], segment: &Segment) -> bool
    ensures { result ≡ has_segment instruments.now (said segment.now.bytes) }
{
    instruments
        .iter()
        .any(|instrument| instrument.segment.says_same(segment))
}

fn mass_entry(line: usize, m: &OrderMassCancelRequest<'_>, answer: MassAnswer, time: Time) -> Entry
    ensures { result ≡ mass_entry line m.now answer time }
{
    Entry {
        owner: line,
        report: Report::MassCancel(MassCancelReport {
            client: m.client_order_id.text.keep(),
            answer,
            time,
        }),
    }
}

fn accepted(line: usize, m: &OrderMassCancelRequest<'_>, time: Time) -> Entry
    ensures { result ≡ accepted line m.now time }
{
    mass_entry(line, m, MassAnswer::Accepted, time)
}

fn refused(line: usize, m: &OrderMassCancelRequest<'_>, time: Time) -> Entry
    ensures { result ≡ refused line m.now time }
{
    mass_entry(line, m, MassAnswer::Rejected(Refusal::BookNotServed), time)
}

// Tells a requester in each partition.
fn tell_everywhere<M: Matcher, S: Store>(venue: &mut Venue<M, S>, entry: Entry)
    requires silent { Silent entry.report }
    requires spare { open_count venue.old.state.rows + 3 ≤ venue.old.free }
    ensures { (t : Moment) → Enacts M.Did t (told_everywhere entry) venue.old venue.new }
{
    venue.note(Partition::One, entry);
    venue.note(Partition::Two, entry);
    venue.note(Partition::Three, entry);
}

// An owner's orders of an instrument in one book.
fn in_listing<'a, M: Matcher, S: Store>(
    venue: &Venue<M, S>,
    symbol: &Text<'_, 6>,
    owners: Owners<'a>,
    book: Book,
) -> Result<Sweep<'a>, Turned>
    ensures planned { planned_as venue.now.state.instruments result
        ≡ in_listing (says symbol.now) (is_owner owners.entry) book venue.now.state (spare venue.now) }
    ensures room { Roomed venue.now result }
{
    let Some(listing) = look_up(venue.instruments(), symbol) else {
        return Err(Turned::UnknownInstrument);
    };
    if venue.spare() < 1 {
        return Err(Turned::NoPlace);
    }
    let partition = listing.instrument.partition;
    if !venue.matcher().serves(book) {
        return Ok(Sweep::Unserved(partition));
    }
    let selection = Selection {
        owners,
        reach: Reach::Instrument(listing.place, book),
        marked: false,
    };
    Ok(Sweep::Within(partition, selection))
}

// An owner's orders of all partitions.
fn in_all<'a, M: Matcher, S: Store>(
    venue: &Venue<M, S>,
    owners: Owners<'a>,
    reach: Reach,
) -> Result<Sweep<'a>, Turned>
    ensures planned { planned_as venue.now.state.instruments result
        ≡ in_all (is_owner owners.entry) (in_reach venue.now.state.instruments reach) (spare venue.now) }
    ensures room { Roomed venue.now result }
{
    if venue.spare() < 3 {
        return Err(Turned::NoPlace);
    }
    Ok(Sweep::Everywhere(Selection {
        owners,
        reach,
        marked: false,
    }))
}

// An owner's orders of a segment.
fn in_segment<'a, M: Matcher, S: Store>(
    venue: &Venue<M, S>,
    segment: &Text<'_, 4>,
    owners: Owners<'a>,
) -> Result<Sweep<'a>, Turned>
    ensures planned { planned_as venue.now.state.instruments result
        ≡ in_segment (says segment.now) (is_owner owners.entry) venue.now.state (spare venue.now) }
    ensures room { Roomed venue.now result }
{
    let segment = segment.keep();
    if !has_segment(venue.instruments(), &segment) {
        return Err(Turned::UnknownInstrument);
    }
    in_all(venue, owners, Reach::Segment(segment))
}

/// What a request of a line comes to, which is of a firm among the participants: the orders in its scope, or that its
/// book is not served; or why it is turned down.
pub fn plan<'a, M: Matcher, S: Store>(
    venue: &Venue<M, S>,
    participants: &'a [Participant],
    firm: u32,
    line: usize,
    m: &OrderMassCancelRequest<'_>,
) -> Result<Sweep<'a>, Turned>
    ensures planned { planned_as venue.now.state.instruments result
        ≡ planned (aim_of m.now.scope) participants.now firm line venue.now.state (spare venue.now) }
    ensures room { Roomed venue.now result }
{
    let own = Owners::Line(line);
    let firms = Owners::Firm(participants, firm);
    match m.scope {
        Scope::FirmInstrument(symbol, book) => in_listing(venue, &symbol, firms, book),
        Scope::CompIdInstrument(symbol, book) => in_listing(venue, &symbol, own, book),
        Scope::FirmSegment(segment) => in_segment(venue, &segment, firms),
        Scope::CompIdSegment(segment) => in_segment(venue, &segment, own),
        Scope::Firm => in_all(venue, firms, Reach::All),
        Scope::CompId => in_all(venue, own, Reach::All),
    }
}

// Cancels the orders that are meant, each told under the request's client order id.
fn cancel_all<M: Matcher, S: Store>(
    venue: &mut Venue<M, S>,
    m: &OrderMassCancelRequest<'_>,
    selection: &Selection<'_>,
    time: Time,
)
    ensures { Enacts M.Did time (swept (picks venue.old.state.instruments selection.now) m.now venue.old.state)
        venue.old venue.new }
{
    let cause = Cause::Request(m.client_order_id.text.keep());
    withdraw_all(venue, selection, cause, time);
}

// Tells the requester, and then each owner of an order that is cancelled.
fn carry_out<M: Matcher, S: Store>(
    venue: &mut Venue<M, S>,
    line: usize,
    m: &OrderMassCancelRequest<'_>,
    sweep: Sweep<'_>,
    time: Time,
)
    requires { open_count venue.old.state.rows + told_count sweep ≤ venue.old.free }
    ensures { Enacts M.Did time
        (acts_of line m.now time venue.old.state (plan_of venue.old.state.instruments sweep.entry)) venue.old venue.new }
{
    match sweep {
        Sweep::Unserved(partition) => venue.note(partition, refused(line, m, time)),
        Sweep::Within(partition, selection) => {
            venue.note(partition, accepted(line, m, time));
            cancel_all(venue, m, &selection, time);
        }
        Sweep::Everywhere(selection) => {
            tell_everywhere(venue, accepted(line, m, time));
            cancel_all(venue, m, &selection, time);
        }
    }
}

/// Cancels the open orders in a request's scope: those of a line's CompID, or of its firm among the participants. The
/// requester is told in the instrument's partition or in all three, and then each order's owner. Turned down, nothing
/// changes.
pub fn mass_cancel<M: Matcher, S: Store>(
    venue: &mut Venue<M, S>,
    participants: &[Participant],
    firm: u32,
    line: usize,
    m: &OrderMassCancelRequest<'_>,
    time: Time,
) -> Result<(), Turned>
    ensures { Does M.Did time (mass_cancel participants.now firm line m.now time venue.old.state (spare venue.old))
        venue.old result venue.new }
{
    let sweep = plan(venue, participants, firm, line, m)?;
    carry_out(venue, line, m, sweep, time);
    Ok(())
}
