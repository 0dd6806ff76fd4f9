// The orders of a day, a line each.
ghost use Rattle.std.specs.Prelude.{◌≡◌, Some};
ghost use Rattle.bench_account.specs.Listings.{figures_text, followed_text, listed_text, naming_text, is_level, place_text, preview_text, progress_text, taken_text, totals_text};

use std::fmt;

/// What an order is, as a line shows it.
#[derive(Clone, Copy)]
pub struct Naming<'a> {
    pub number: u64,
    /// The name of its owner.
    pub comp_id: &'a str,
    pub symbol: &'a str,
    /// The bytes of its side and of its status.
    pub side: u8,
    pub status: u8,
}

/// An order's figures, in shares.
#[derive(Clone, Copy)]
pub struct Figures {
    pub ordered: u32,
    pub executed: u32,
    pub leaves: u32,
    pub withdrawn: u32,
}

impl fmt::Display for Naming<'_> {
    ghost output = { λ naming. Some (naming_text naming) };

    fn fmt<W: fmt::Write>(&self, f: &mut fmt::Formatter<W>) -> fmt::Result {
        write!(f, "order {} compid {} ", self.number, self.comp_id)?;
        write!(
            f,
            "symbol {} side {} status {}",
            self.symbol, self.side, self.status
        )
    }
}

impl fmt::Display for Figures {
    ghost output = { λ figures. Some (figures_text figures) };

    fn fmt<W: fmt::Write>(&self, f: &mut fmt::Formatter<W>) -> fmt::Result {
        write!(f, "ordered {} executed {} ", self.ordered, self.executed)?;
        write!(f, "open {} withdrawn {}", self.leaves, self.withdrawn)
    }
}

/// One order.
#[derive(Clone, Copy)]
pub struct Listed<'a> {
    pub naming: Naming<'a>,
    pub figures: Figures,
}

impl fmt::Display for Listed<'_> {
    ghost output = { λ order. Some (listed_text order) };

    fn fmt<W: fmt::Write>(&self, f: &mut fmt::Formatter<W>) -> fmt::Result {
        write!(f, "{} {}", self.naming, self.figures)
    }
}

/// How many there are of a day.
#[derive(Clone, Copy)]
pub struct Totals {
    pub orders: u64,
    pub trades: u64,
    pub reports: u64,
}

impl fmt::Display for Totals {
    ghost output = { λ totals. Some (totals_text totals) };

    fn fmt<W: fmt::Write>(&self, f: &mut fmt::Formatter<W>) -> fmt::Result {
        write!(
            f,
            "orders {} trades {} reports {}",
            self.orders, self.trades, self.reports
        )
    }
}

/// What a follower has of a partition's reports.
#[derive(Clone, Copy, Debug, PartialEq)]
pub enum Progress {
    /// Each as it comes.
    Level,
    /// Some are missing; so many that came are held.
    Behind(usize),
    /// Some are missing, and nothing is held any more; the highest number that passed.
    Overrun(u32),
}

impl Progress {
    /// Whether none is missing.
    pub fn is_level(self) -> bool
        ensures { result ≡ is_level self }
    {
        match self {
            Progress::Level => true,
            Progress::Behind(_) | Progress::Overrun(_) => false,
        }
    }
}

impl fmt::Display for Progress {
    ghost output = { λ progress. Some (progress_text progress) };

    fn fmt<W: fmt::Write>(&self, f: &mut fmt::Formatter<W>) -> fmt::Result {
        match *self {
            Progress::Level => f.write_str("level held 0"),
            Progress::Behind(held) => write!(f, "behind held {held}"),
            Progress::Overrun(passed) => write!(f, "overrun held 0 passed {passed}"),
        }
    }
}

/// How far a follower is in a partition.
#[derive(Clone, Copy)]
pub struct Place {
    /// The number of the partition.
    pub partition: u8,
    /// The number of the last report that was folded.
    pub number: u32,
    pub progress: Progress,
}

impl fmt::Display for Place {
    ghost output = { λ place. Some (place_text place) };

    fn fmt<W: fmt::Write>(&self, f: &mut fmt::Formatter<W>) -> fmt::Result {
        write!(
            f,
            "partition {} place {} {}",
            self.partition, self.number, self.progress
        )
    }
}

/// An order as a follower knows it; shares executed and open.
#[derive(Clone, Copy)]
pub struct Followed {
    pub number: u64,
    pub partition: u8,
    pub status: u8,
    pub executed: u32,
    pub leaves: u32,
}

impl fmt::Display for Followed {
    ghost output = { λ order. Some (followed_text order) };

    fn fmt<W: fmt::Write>(&self, f: &mut fmt::Formatter<W>) -> fmt::Result {
        write!(f, "order {} partition {} ", self.number, self.partition)?;
        write!(
            f,
            "status {} executed {} open {}",
            self.status, self.executed, self.leaves
        )
    }
}

/// What a mass cancel would take of a partition: orders, and the shares open of them.
#[derive(Clone, Copy)]
pub struct Taken {
    pub orders: u64,
    pub shares: u64,
}

impl fmt::Display for Taken {
    ghost output = { λ taken. Some (taken_text taken) };

    fn fmt<W: fmt::Write>(&self, f: &mut fmt::Formatter<W>) -> fmt::Result {
        write!(f, "{} {}", self.orders, self.shares)
    }
}

/// The same of each partition.
#[derive(Clone, Copy)]
pub struct Preview {
    pub one: Taken,
    pub two: Taken,
    pub three: Taken,
}

impl fmt::Display for Preview {
    ghost output = { λ preview. Some (preview_text preview) };

    fn fmt<W: fmt::Write>(&self, f: &mut fmt::Formatter<W>) -> fmt::Result {
        write!(f, "preview {} {} {}", self.one, self.two, self.three)
    }
}
