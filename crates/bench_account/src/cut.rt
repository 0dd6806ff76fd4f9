// The table of a drill: a line for each run, at whose end the cable is cut, and what the recovery brought.
ghost use Rattle.std.specs.Prelude.{◌≡◌, Some};
ghost use Rattle.bench_account.specs.Cuts.{cut_text, drilled_text, no_cuts, passes, with_cut};

use crate::verdict::Verdict;
use std::fmt;

/// What stands above the columns of the table.
pub const HEADING: &str =
    " cut  line  after                               under way  recovered  held  folded  came again  orders  agree";

/// One run.
#[derive(Clone, Copy)]
pub struct Cut<'a> {
    /// Which run it is, from 1.
    pub number: usize,
    /// The line of the script behind which the cable is cut, from 1, and what it says.
    pub line: usize,
    pub after: &'a str,
    /// How many messages are under way then: live ones, and those of the recovery channel.
    pub live: usize,
    pub recovered: usize,
    /// Of the recovery, how many reports are held, are folded, and are known already.
    pub held: u64,
    pub folded: u64,
    pub again: u64,
    /// How many orders are compared at its end.
    pub orders: usize,
    pub verdict: Verdict,
}

impl fmt::Display for Cut<'_> {
    ghost output = { λ cut. Some (cut_text cut) };

    fn fmt<W: fmt::Write>(&self, f: &mut fmt::Formatter<W>) -> fmt::Result {
        write!(
            f,
            "{:>4}  {:>4}  {:<34.34}",
            self.number, self.line, self.after
        )?;
        write!(f, "  {:>9}  {:>9}", self.live, self.recovered)?;
        write!(
            f,
            "  {:>4}  {:>6}  {:>10}",
            self.held, self.folded, self.again
        )?;
        write!(f, "  {:>6}  {}", self.orders, self.verdict)
    }
}

/// How many runs there were, and in how many of them both ends agreed. A count stays at the largest number that it holds.
#[derive(Clone, Copy)]
pub struct Drilled {
    pub cuts: u64,
    pub agree: u64,
}

impl Drilled {
    /// No run.
    pub fn new() -> Drilled
        ensures { result ≡ no_cuts }
    {
        Drilled { cuts: 0, agree: 0 }
    }

    /// One more run, and what it came to.
    pub fn count(&mut self, verdict: Verdict)
        ensures { self.new ≡ with_cut self.old verdict }
    {
        self.cuts = self.cuts.saturating_add(1);
        if verdict == Verdict::Agree {
            self.agree = self.agree.saturating_add(1);
        }
    }

    /// Whether both ends agreed in each.
    pub fn passes(&self) -> bool
        ensures { result ≡ passes self.now }
    {
        self.agree == self.cuts
    }
}

impl fmt::Display for Drilled {
    ghost output = { λ drilled. Some (drilled_text drilled) };

    fn fmt<W: fmt::Write>(&self, f: &mut fmt::Formatter<W>) -> fmt::Result {
        write!(f, "{} cuts, {} agree", self.cuts, self.agree)
    }
}
