// How the reports that came to a follower were taken.
ghost use Rattle.std.specs.Prelude.{◌≡◌};
ghost use Rattle.bench_play.specs.Coming.{none_came, with_live, with_recovered};

use follower::answer::{Live, Recovered};

/// How many reports were held, folded, and known already; those that passed are not counted. A count stays at the largest
/// number that it holds.
#[derive(Clone, Copy)]
pub struct Came {
    pub held: u64,
    pub folded: u64,
    pub again: u64,
}

impl Came {
    /// None came.
    pub fn new() -> Came
        ensures { result ≡ none_came }
    {
        Came {
            held: 0,
            folded: 0,
            again: 0,
        }
    }

    /// One more message came live, and this became of it.
    pub fn live(&mut self, outcome: Live)
        ensures { self.new ≡ with_live self.old outcome }
    {
        match outcome {
            Live::Held => self.held = self.held.saturating_add(1),
            Live::Folded => self.folded = self.folded.saturating_add(1),
            Live::Already => self.again = self.again.saturating_add(1),
            Live::Passed | Live::Nothing => {}
        }
    }

    /// One more message of the recovery channel came.
    pub fn recovered(&mut self, outcome: Recovered)
        ensures { self.new ≡ with_recovered self.old outcome }
    {
        match outcome {
            Recovered::Folded => self.folded = self.folded.saturating_add(1),
            Recovered::Already => self.again = self.again.saturating_add(1),
            Recovered::Begun | Recovered::Ended | Recovered::Nothing => {}
        }
    }
}
