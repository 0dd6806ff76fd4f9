// How long an order that a venue takes may wait for a trade.
ghost use Rattle.std.specs.Prelude.{◌≡◌};

use codes::order::TimeInForce;

/// How long an order waits: of all times in force a venue serves these two.
#[derive(Clone, Copy, Debug, PartialEq)]
pub enum Lifetime {
    /// It may rest until the day ends.
    Day,
    /// What does not trade at once ends.
    ImmediateOrCancel,
}

impl Lifetime {
    ghost use Rattle.terms.specs.Lifetime.{lifetime_of, is_asked};

    /// The lifetime that a time in force asks for; none where it is not served.
    pub fn of(time_in_force: TimeInForce) -> Option<Lifetime>
        ensures { result ≡ lifetime_of time_in_force }
    {
        match time_in_force {
            TimeInForce::Day => Some(Lifetime::Day),
            TimeInForce::ImmediateOrCancel => Some(Lifetime::ImmediateOrCancel),
            _ => None,
        }
    }

    /// Whether a time in force asks for just this lifetime.
    pub fn is_asked(self, time_in_force: TimeInForce) -> bool
        ensures { result ≡ is_asked time_in_force self }
    {
        matches!(
            (self, time_in_force),
            (Lifetime::Day, TimeInForce::Day)
                | (Lifetime::ImmediateOrCancel, TimeInForce::ImmediateOrCancel)
        )
    }
}
