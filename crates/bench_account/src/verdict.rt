// Whether both ends of a line agree once a recovery is over, and where they do not.
ghost use Rattle.std.specs.Prelude.{◌≡◌, Some};
ghost use Rattle.bench_account.specs.Verdicts.{all_agree, is_even, trouble_of, verdict_of, verdict_text};

use crate::compared::Compared;
use crate::listing::Place;
use std::fmt;

/// What a recovery came to.
#[derive(Clone, Copy, Debug, PartialEq)]
pub enum Verdict {
    Agree,
    /// The line was not logged on again.
    NoLine,
    /// This partition is not level, and no download brings more.
    Behind(u8),
    /// This partition is level, and yet both ends do not have the same orders with the same figures.
    Differ(u8),
}

/// A partition on both sides.
#[derive(Clone, Copy)]
pub struct Part<'a> {
    /// How far the follower is.
    pub place: Place,
    /// How many orders it knows.
    pub known: usize,
    /// Each order that the gateway has for its CompID.
    pub orders: &'a [Compared],
}

fn all_agree(orders: &[Compared]) -> bool
    ensures { result ≡ all_agree orders.now }
{
    orders.iter().all(|order| order.agree())
}

impl Part<'_> {
    fn is_even(&self) -> bool
        ensures { result ≡ is_even self.now }
    {
        self.known == self.orders.len() && all_agree(self.orders)
    }

    // Why both sides cannot be said to agree, if so.
    fn trouble(&self) -> Option<Verdict>
        ensures { result ≡ trouble_of self.now }
    {
        if !self.place.progress.is_level() {
            Some(Verdict::Behind(self.place.partition))
        } else if !self.is_even() {
            Some(Verdict::Differ(self.place.partition))
        } else {
            None
        }
    }
}

impl Verdict {
    /// The verdict over three partitions: the first trouble, if there is one.
    pub fn of(one: Part<'_>, two: Part<'_>, three: Part<'_>) -> Verdict
        ensures { result ≡ verdict_of one.entry two.entry three.entry }
    {
        match (one.trouble(), two.trouble(), three.trouble()) {
            (Some(verdict), _, _) | (None, Some(verdict), _) | (None, None, Some(verdict)) =>
                verdict,
            (None, None, None) => Verdict::Agree,
        }
    }
}

impl fmt::Display for Verdict {
    ghost output = { λ verdict. Some (verdict_text verdict) };

    fn fmt<W: fmt::Write>(&self, f: &mut fmt::Formatter<W>) -> fmt::Result {
        match *self {
            Verdict::Agree => f.write_str("yes"),
            Verdict::NoLine => f.write_str("no: the line is not up again"),
            Verdict::Behind(partition) => write!(f, "no: partition {partition} is not level"),
            Verdict::Differ(partition) => write!(f, "no: partition {partition} differs"),
        }
    }
}
