// Why a matching engine does not take a midpoint.
ghost use Rattle.std.specs.Prelude.{◌≡◌};
ghost use Rattle.matching.specs.Midpoints.{midpoint_number};

/// Why a midpoint is not taken; the engine is then as it was.
#[derive(Clone, Copy, Debug, PartialEq)]
pub enum MidpointRefusal {
    /// The instrument's number is not under 32.
    NoInstrument,
    /// The engine is not told midpoints.
    NoMidpoints,
    /// The price is not above 0.
    BadPrice,
}

impl MidpointRefusal {
    /// The number of the reason: 20, 21 or 22.
    pub fn number(self) -> u8
        ensures { result ≡ midpoint_number self }
    {
        match self {
            MidpointRefusal::NoInstrument => 20,
            MidpointRefusal::NoMidpoints => 21,
            MidpointRefusal::BadPrice => 22,
        }
    }
}
