// What the calls of a script came to.
ghost use Rattle.std.specs.Prelude.{◌≡◌, slice_index, Some};
ghost use Rattle.bench_account.specs.Accounts.{account_text, counted, more, no_calls, with_refusal};

use crate::answer::Answer;
use std::fmt;

/// How many calls there were and what they were answered. A count stays at the largest number that it holds.
#[derive(Clone, Copy)]
pub struct Account {
    pub calls: u64,
    /// Those that a message answers.
    pub answered: u64,
    /// Those that hand out a message that is sent.
    pub sent: u64,
    pub refused: u64,
    // of those refused, how many by each check's number
    by_number: [u64; 256],
}

fn add_one(count: &mut u64)
    ensures { count.new ≡ more count.old }
{
    *count = count.saturating_add(1);
}

impl Account {
    /// The account of no calls.
    pub fn new() -> Account
        ensures { result ≡ no_calls }
    {
        Account {
            calls: 0,
            answered: 0,
            sent: 0,
            refused: 0,
            by_number: [0; 256],
        }
    }

    fn refuse(&mut self, number: u8)
        ensures { self.new ≡ with_refusal self.old number }
    {
        self.refused = self.refused.saturating_add(1);
        let at = usize::from(number);
        self.by_number[at] = self.by_number[at].saturating_add(1);
    }

    /// One more call, and its answer.
    pub fn count(&mut self, answer: &Answer<'_>)
        ensures { self.new ≡ counted self.old answer.now }
    {
        self.calls = self.calls.saturating_add(1);
        match *answer {
            Answer::Message(_) => self.answered = self.answered.saturating_add(1),
            Answer::Sent(_) => self.sent = self.sent.saturating_add(1),
            Answer::Refused(number) | Answer::RefusedAt(number, _) => self.refuse(number),
            Answer::Rejected(number, _, _) => {
                self.answered = self.answered.saturating_add(1);
                self.refuse(number);
            }
            _ => {}
        }
    }

    /// How many calls a check of this number refused.
    pub fn refused_by(&self, number: u8) -> u64
        ensures { result ≡ slice_index self.now.by_number number }
    {
        self.by_number[usize::from(number)]
    }
}

impl fmt::Display for Account {
    ghost output = { λ account. Some (account_text account) };

    fn fmt<W: fmt::Write>(&self, f: &mut fmt::Formatter<W>) -> fmt::Result {
        write!(f, "calls {} answered {} ", self.calls, self.answered)?;
        write!(f, "messages {} refused {}", self.sent, self.refused)
    }
}
