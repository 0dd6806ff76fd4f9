// What a matching engine answers when it is asked for its next event.
ghost use Rattle.std.specs.Prelude.{Some};
ghost use Rattle.matching.specs.Texts.{event_text};

use std::fmt;
use texts::party::Party;
use texts::values::Price;

/// What happens next in an engine.
#[derive(Clone, Copy, Debug, PartialEq)]
pub enum Event {
    /// Nothing more happens until the next order.
    Nothing,
    /// The order of this number ends, with what is open of it.
    Expired(u64),
    /// A quantity comes off the orders that are named; one with none left ends.
    Trade {
        /// The number of the order that was there before, where the engine names it.
        passive: Option<u64>,
        /// The number of the order that came to trade, where the engine names it.
        aggressive: Option<u64>,
        /// In shares.
        quantity: u32,
        price: Price,
    },
}

impl fmt::Display for Event {
    ghost output = { λ event. Some (event_text event) };

    fn fmt<W: fmt::Write>(&self, f: &mut fmt::Formatter<W>) -> fmt::Result {
        match self {
            Event::Nothing => f.write_str("nothing"),
            Event::Expired(number) => write!(f, "expired {number}"),
            Event::Trade {
                passive,
                aggressive,
                quantity,
                price,
            } => {
                let maker = Party(*passive);
                let taker = Party(*aggressive);
                write!(f, "trade {quantity} at {price}: {taker} with {maker}")
            }
        }
    }
}
