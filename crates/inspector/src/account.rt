// The account of a run: how many lines there were, and what became of them.
ghost use Rattle.std.specs.Prelude.{◌≡◌, Some};
ghost use Rattle.inspector.specs.Account.{more, nothing, counted, summary_text};

use layout::fault::Fault;
use std::fmt;

/// What became of a line that is not skipped.
#[derive(Clone, Copy)]
pub enum Outcome {
    /// Read, and whether it comes out the same when it is written again.
    Read(bool),
    Refused(Fault),
    NotUnderstood,
}

/// Counts of lines. One that is full stays as it is.
#[derive(Clone, Copy)]
pub struct Account {
    pub lines: u64,
    pub read: u64,
    /// Of those read, how many come out the same when they are written again.
    pub same_again: u64,
    pub refused: u64,
    /// Of those refused, how many by each fault.
    pub short: u64,
    pub start: u64,
    pub unknown: u64,
    pub length: u64,
    pub field: u64,
    pub not_understood: u64,
}

fn add_one(count: &mut u64)
    ensures { count.new ≡ more count.old }
{
    *count = count.saturating_add(1);
}

impl Account {
    /// The account of no lines.
    pub fn new() -> Account
        ensures { result ≡ nothing }
    {
        Account {
            lines: 0,
            read: 0,
            same_again: 0,
            refused: 0,
            short: 0,
            start: 0,
            unknown: 0,
            length: 0,
            field: 0,
            not_understood: 0,
        }
    }

    /// The account with one line more.
    pub fn with(mut self, outcome: Outcome) -> Account
        ensures { result ≡ counted self outcome }
    {
        add_one(&mut self.lines);
        match outcome {
            Outcome::Read(false) => add_one(&mut self.read),
            Outcome::Read(true) => {
                add_one(&mut self.read);
                add_one(&mut self.same_again);
            }
            Outcome::Refused(fault) => {
                add_one(&mut self.refused);
                match fault {
                    Fault::Short => add_one(&mut self.short),
                    Fault::Start => add_one(&mut self.start),
                    Fault::Unknown => add_one(&mut self.unknown),
                    Fault::Length => add_one(&mut self.length),
                    Fault::Field(_) => add_one(&mut self.field),
                }
            }
            Outcome::NotUnderstood => add_one(&mut self.not_understood),
        }
        self
    }
}

/// The account in one line.
impl fmt::Display for Account {
    ghost output = { λ account. Some (summary_text account) };

    fn fmt<W: fmt::Write>(&self, f: &mut fmt::Formatter<W>) -> fmt::Result {
        write!(
            f,
            "{} lines: {} read ({} come out the same when written again), ",
            self.lines, self.read, self.same_again
        )?;
        write!(
            f,
            "{} refused (rule 1: {}, rule 2: {}, rule 3: {}, rule 4: {}, rule 5: {}), ",
            self.refused, self.short, self.start, self.unknown, self.length, self.field
        )?;
        write!(f, "{} not understood", self.not_understood)
    }
}
