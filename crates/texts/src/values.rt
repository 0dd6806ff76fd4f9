// Values that are more than a number.

/// A price, in hundred-millionths. It is printed as a decimal number with eight places.
#[derive(Clone, Copy, Debug, PartialEq)]
pub struct Price {
    /// How many hundred-millionths.
    pub raw: i64,
}

/// A time of day or of an epoch, as the caller counts it.
#[derive(Clone, Copy, Debug, PartialEq)]
pub struct Time {
    pub seconds: u32,
    pub microseconds: u32,
}
