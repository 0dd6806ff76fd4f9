// A sequence number as a Missed Message Request carries it.
ghost use Rattle.std.specs.Prelude.{◌≡◌, ◌^◌, ◌<◌, ◌≤◌, MatchOption};

/// No sequence number reaches this: its field is signed.
pub const SEQUENCE_LIMIT: u32 = 2_147_483_648;

/// The number of the last report seen, from 0: it fits a signed field and is not negative.
#[derive(Clone, Copy, Debug)]
pub struct LastSequence {
    pub value: u32,
    ghost fits: { value < 2 ^ 31 },
}

impl LastSequence {
    /// The number, where it is below the limit.
    pub fn new(number: u32) -> Option<LastSequence>
        ensures { MatchOption result (2 ^ 31 ≤ number) (λ n. n.value ≡ number) }
    {
        if number < SEQUENCE_LIMIT {
            Some(LastSequence { value: number })
        } else {
            None
        }
    }

    /// The number.
    pub fn number(&self) -> u32
        ensures { result ≡ self.now.value }
    {
        self.value
    }
}
