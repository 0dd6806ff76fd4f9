// What an event of the matcher was.
use texts::values::Price;

/// What happened.
#[derive(Clone, Copy, Debug, PartialEq)]
pub enum Step {
    /// Nothing more happens until the next order.
    Nothing,
    /// The order of this number ended, with what was open of it.
    Expired(u64),
    Traded {
        /// The number of the trade.
        number: u64,
        /// The number of the order that was at rest, where the matcher names it.
        passive: Option<u64>,
        /// The number of the order that came to trade, where the matcher names it.
        aggressive: Option<u64>,
        /// In shares.
        quantity: u32,
        price: Price,
    },
}
