// Open orders that are withdrawn together: which, why, and how.
ghost use Rattle.std.specs.Prelude.{◌≡◌, slice_get};
ghost use Rattle.keyed.specs.Numbers.{under};
ghost use Rattle.requests.specs.Selection.{is_book, is_marked, is_segment, of_firm, picks, withdrawal, withdrawals};
ghost use Rattle.texts.specs.Bytes.{said};
ghost use Rattle.venue.specs.Enacting.{Enacts};

use codes::order::{AutoCancel, Book};
use configuration::instrument::Instrument;
use configuration::participant::Participant;
use matching::matcher::Matcher;
use orders::row::{Ending, Row};
use store::Store;
use texts::fixed::FixedText;
use texts::names::Segment;
use texts::values::Time;
use venue::venue::Venue;

/// Why orders are withdrawn together.
#[derive(Clone, Copy)]
pub enum Cause {
    /// Somebody asked for it, under a client order id.
    Request(FixedText<20>),
    /// The owner's line was lost.
    LineLost,
}

/// Whose orders are meant.
#[derive(Clone, Copy)]
pub enum Owners<'a> {
    /// Those of one line, by its place.
    Line(usize),
    /// Those of all lines of a firm; each line has the place of its participant.
    Firm(&'a [Participant], u32),
}

/// Which of their orders are meant.
#[derive(Clone, Copy)]
pub enum Reach {
    All,
    /// Those in one instrument, by its place, in one book.
    Instrument(usize, Book),
    /// Those in all instruments of a segment, in either book.
    Segment(Segment),
}

/// Which open orders are meant.
#[derive(Clone, Copy)]
pub struct Selection<'a> {
    pub owners: Owners<'a>,
    pub reach: Reach,
    /// Only those that are marked to end with their owner's line.
    pub marked: bool,
}

// Whether the participant of a place is of a firm.
fn is_of_firm(participants: &[Participant], firm: u32, place: usize) -> bool
    ensures { result ≡ of_firm participants.now firm place }
{
    match participants.get(place) {
        Some(participant) => participant.firm == firm,
        None => false,
    }
}

// Whether the instrument of a place is of a segment.
fn is_segment(segment: &Segment, instruments: &[Instrument], place: usize) -> bool
    ensures { result ≡ is_segment (said segment.now.bytes) (slice_get instruments.now place) }
{
    match instruments.get(place) {
        Some(instrument) => instrument.segment.says_same(segment),
        None => false,
    }
}

fn is_book(book: Book, wanted: Book) -> bool
    ensures { result ≡ is_book book wanted }
{
    book as u8 == wanted as u8
}

fn is_marked(mark: AutoCancel) -> bool
    ensures { result ≡ is_marked mark }
{
    match mark {
        AutoCancel::Keep => false,
        AutoCancel::AsConfigured => true,
    }
}

impl Owners<'_> {
    ghost use Rattle.requests.specs.Selection.{is_owner};

    // Whether an owner is meant.
    fn has(&self, owner: usize) -> bool
        ensures { result ≡ is_owner self.now owner }
    {
        match self {
            Owners::Line(line) => owner == *line,
            Owners::Firm(participants, firm) => is_of_firm(participants, *firm, owner),
        }
    }
}

impl Reach {
    ghost use Rattle.requests.specs.Selection.{in_reach};

    // Whether an order stands where it is meant.
    fn has(&self, instruments: &[Instrument], row: &Row) -> bool
        ensures { result ≡ in_reach instruments.now self.now row.now }
    {
        let instrument = row.terms.instrument;
        match self {
            Reach::All => true,
            Reach::Instrument(wanted, book) => {
                instrument == *wanted && is_book(row.terms.book, *book)
            }
            Reach::Segment(segment) => is_segment(segment, instruments, instrument),
        }
    }
}

impl Selection<'_> {
    ghost use Rattle.requests.specs.Selection.{picks};

    /// Whether an order of one of the instruments is open and meant.
    pub fn picks(&self, instruments: &[Instrument], row: &Row) -> bool
        ensures { result ≡ picks instruments.now self.now row.now }
    {
        row.is_open()
            && self.owners.has(row.terms.owner)
            && self.reach.has(instruments, row)
            && (!self.marked || is_marked(row.terms.auto_cancel))
    }
}

// Withdraws the order of a number, if it is meant.
#[tactic(auto, using(crate::proofs::Found::row_there))]
fn withdraw_if<M: Matcher, S: Store>(
    venue: &mut Venue<M, S>,
    number: u64,
    selection: &Selection<'_>,
    cause: Cause,
    time: Time,
)
    ensures { Enacts M.Did time
        (withdrawal (picks venue.old.state.instruments selection.now) cause (under venue.old.state.rows number))
        venue.old venue.new }
{
    // for the proof: each order stands under its number
    venue.sound();
    let Some(row) = venue.row(number) else {
        return;
    };
    if !selection.picks(venue.instruments(), row) {
        return;
    }
    let order = venue.order(number).unwrap();
    match cause {
        Cause::Request(client) => venue.withdraw(order, Ending::Cancelled, client, time),
        Cause::LineLost => venue.withdraw(order, Ending::Expired, order.row().client, time),
    }
}

/// Withdraws the open orders that are meant, by rising number, each told to its owner.
pub fn withdraw_all<M: Matcher, S: Store>(
    venue: &mut Venue<M, S>,
    selection: &Selection<'_>,
    cause: Cause,
    time: Time,
)
    ensures { Enacts M.Did time
        (withdrawals (picks venue.old.state.instruments selection.now) cause venue.old.state.rows)
        venue.old venue.new }
{
    // for the proof: each order stands under its number
    venue.sound();
    let count = venue.order_count();
    for i in 0..count {
        withdraw_if(venue, i + 1, selection, cause, time);
    }
}
