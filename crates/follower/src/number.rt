// The numbers of reports, as a follower keeps them.
ghost use Rattle.std.specs.Prelude.{◌≡◌, max, nat_le};
ghost use Rattle.follower.specs.Numbers.{stated};

use layout::sequence::LastSequence;
use std::marker::Model;

/// The number of a report, or 0 for none: it fits the field of a request. In a contract it is that number.
#[derive(Clone, Copy)]
pub struct Number {
    value: u32,
}

impl Model for Number {
    ghost use Rattle.std.specs.Prelude.{ℕ, ◌<◌};
    ghost use Rattle.std.specs.Coded.{coded_ℕ};
    ghost use Rattle.layout.specs.declared.sequence.TheConstants.{SEQUENCE_LIMIT};

    ghost Value = { ℕ };

    ghost coded = { coded_ℕ };

    ghost view = { λ n. n.value };

    ghost invariant = { λ n. n.value < SEQUENCE_LIMIT };

    ghost inverse = { λ n. record { value = n } };
}

impl Number {
    /// The number below that of the first report.
    pub fn zero() -> Number
        ensures { result ≡ 0 }
    {
        Number { value: 0 }
    }

    /// The number that a message states; one below 0 counts as 0.
    pub fn stated(sequence: &i32) -> Number
        ensures { result ≡ stated sequence.now }
    {
        Number {
            value: u32::try_from(*sequence).unwrap_or(0),
        }
    }

    /// The number itself.
    pub fn get(self) -> u32
        ensures { result ≡ self }
    {
        self.value
    }

    /// Whether another number is at or below this one.
    pub fn reaches(&self, other: &Number) -> bool
        ensures { result ≡ nat_le other.now self.now }
    {
        other.value <= self.value
    }

    /// The higher of the two.
    pub fn higher(&self, other: &Number) -> Number
        ensures { result ≡ max self.now other.now }
    {
        if other.reaches(self) {
            return *other;
        }
        *self
    }

    /// As a request carries it.
    pub fn sequence(&self) -> LastSequence
        ensures { result.value ≡ self.now }
    {
        LastSequence { value: self.value }
    }
}
