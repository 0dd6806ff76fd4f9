// An order on both sides of a line: as the gateway has it, and as the follower knows it.
ghost use Rattle.std.specs.Prelude.{◌≡◌, Some};
ghost use Rattle.bench_account.specs.Comparisons.{agree, compared_text, known_text, seen_text, verdict_text};

use std::fmt;

/// An order as one side sees it; executed and open in shares.
#[derive(Clone, Copy)]
pub struct Seen {
    /// The byte of its status.
    pub status: u8,
    pub executed: u32,
    pub leaves: u32,
}

impl fmt::Display for Seen {
    ghost output = { λ order. Some (seen_text order) };

    fn fmt<W: fmt::Write>(&self, f: &mut fmt::Formatter<W>) -> fmt::Result {
        write!(f, "status {} ", self.status)?;
        write!(f, "executed {} open {}", self.executed, self.leaves)
    }
}

// What the follower knows of an order.
#[derive(Clone, Copy)]
struct Known(Option<Seen>);

impl fmt::Display for Known {
    ghost output = { λ known. Some (known_text known.0) };

    fn fmt<W: fmt::Write>(&self, f: &mut fmt::Formatter<W>) -> fmt::Result {
        match self.0 {
            Some(seen) => write!(f, "{seen}"),
            None => f.write_str("does not know it"),
        }
    }
}

/// An order on both sides.
#[derive(Clone, Copy)]
pub struct Compared {
    pub number: u64,
    pub gateway: Seen,
    /// None where the follower does not know it.
    pub follower: Option<Seen>,
}

fn verdict(agree: bool) -> &'static str
    ensures { result.now ≡ verdict_text agree }
{
    if agree { "they agree" } else { "not yet" }
}

impl Compared {
    /// Whether both sides see the same.
    pub fn agree(&self) -> bool
        ensures { result ≡ agree self.now.gateway self.now.follower }
    {
        match self.follower {
            Some(seen) => {
                seen.status == self.gateway.status
                    && seen.executed == self.gateway.executed
                    && seen.leaves == self.gateway.leaves
            }
            None => false,
        }
    }
}

impl fmt::Display for Compared {
    ghost output = { λ order. Some (compared_text order) };

    fn fmt<W: fmt::Write>(&self, f: &mut fmt::Formatter<W>) -> fmt::Result {
        let known = Known(self.follower);
        let verdict = verdict(self.agree());
        write!(f, "order {}: gateway {}; ", self.number, self.gateway)?;
        write!(f, "follower {known}; {verdict}")
    }
}
