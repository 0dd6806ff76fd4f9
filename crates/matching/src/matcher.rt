// The trait of a matching engine. Its meaning is which order numbers are open, each with its instrument and its open
// quantity, together with what the engine states of itself: how many orders it takes and which books it serves.
//
// Every contract gives the whole meaning after the call, so what it does not name stays. Which event comes next is the
// engine's own to choose at each call, so code above is proved for every engine. What more an engine states of its steps
// is its choice, too: it says so in its `Did`, and one that says nothing writes no line for it.
ghost use Rattle.std.specs.Prelude.{◌≡◌, ◌≤◌, ℕ, Bool, false, Option, Some, OnOk, is_some, is_ok, if◌then◌else◌, ◌==◌};
ghost use Rattle.std.specs.FinMap.{get, len};
ghost use Rattle.std.specs.Result.{result_err};
ghost use Rattle.matching.specs.Meaning.{Allowed, Meaning, amend_refusal, cancel_refusal, closed, enter_refusal, happened, held_of, open_quantity, opened, resized, serves};
ghost use Rattle.matching.specs.Midpoints.{midpoint_refusal};
ghost use Rattle.texts.specs.declared.values.Price.{Price as At};
ghost use Rattle.matching.specs.Asked.{Asked, Enter, Cancel, Amend, Next};
ghost use Rattle.matching.specs.Texts.{refusal_text};

use crate::event::Event;
use crate::midpoint::MidpointRefusal;
use codes::order::{Book, Side};
use std::fmt;
use terms::lifetime::Lifetime;
use terms::pricing::Pricing;
use texts::values::Price;

/// What an order asks for.
#[derive(Clone, Copy, Debug, PartialEq)]
pub struct Ticket {
    pub instrument: u8,
    pub side: Side,
    pub pricing: Pricing,
    pub lifetime: Lifetime,
    /// The open quantity, in shares.
    pub quantity: u32,
    pub book: Book,
}

/// An open order as every engine knows it.
#[derive(Clone, Copy, Debug, PartialEq)]
pub struct Held {
    pub instrument: u8,
    /// The open quantity, in shares.
    pub quantity: u32,
}

/// Why an engine did not do what it was asked; the engine is then as it was.
#[derive(Clone, Copy, Debug, PartialEq)]
pub enum Refusal {
    /// A quantity of 0.
    NoQuantity,
    /// An order of this number is open already.
    NumberOpen,
    /// As many orders are open as the engine takes.
    Full,
    /// No order of this number is open.
    NotOpen,
}

impl Refusal {
    /// The words that a person reads.
    pub fn text(self) -> &'static str
        ensures { result.now ≡ refusal_text self }
    {
        match self {
            Refusal::NoQuantity => "no quantity",
            Refusal::NumberOpen => "number open",
            Refusal::Full => "full",
            Refusal::NotOpen => "not open",
        }
    }
}

impl fmt::Display for Refusal {
    ghost output = { λ refusal. Some (refusal_text refusal) };

    fn fmt<W: fmt::Write>(&self, f: &mut fmt::Formatter<W>) -> fmt::Result {
        f.write_str(self.text())
    }
}

/// A matching engine. Whoever calls it knows it by its meaning, and knows that it was asked.
pub trait Matcher {
    ghost meaning: { Self → Meaning };

    // what may come of a call that is done: the engine before it, the call, the engine after it
    ghost Did: { Self → Asked → Self → Type 0 } = { λ _ _ _. Unit {0} };

    // whether it is told midpoints
    ghost guided: { Bool } = { false };

    // what may come of a midpoint: the engine before it, the instrument, its midpoint, whether it was taken, the engine
    // after it; one that says nothing takes none, and stays
    ghost Learns: { Self → ℕ → Option At → Bool → Self → Type 0 } = { λ a _ _ taken b. (taken ≡ false) × (b ≡ a) };

    /// Opens an order under a number. Refused exactly at quantity 0, an open number or a full engine, tried in this
    /// order.
    fn enter(&mut self, number: u64, terms: Ticket) -> Result<(), Refusal>
        ensures refusal { result_err result ≡ enter_refusal (meaning self.old) number terms.quantity }
        ensures after { meaning self.new ≡ (if is_ok result then opened (meaning self.old) number (held_of terms)
            else meaning self.old) }
        ensures did { OnOk result (Did self.old (Enter number terms) self.new) };

    /// Ends an open order. Refused exactly where it is not open.
    fn cancel(&mut self, number: u64) -> Result<(), Refusal>
        ensures refusal { result_err result ≡ cancel_refusal (meaning self.old) number }
        ensures after { meaning self.new ≡ (if is_ok result then closed (meaning self.old) number else meaning self.old) }
        ensures did { OnOk result (Did self.old (Cancel number) self.new) };

    /// Sets the open quantity and the price of an open order. Refused exactly where it is not open, or the quantity is
    /// 0, tried in this order.
    fn amend(&mut self, number: u64, quantity: u32, price: Price) -> Result<(), Refusal>
        ensures refusal { result_err result ≡ amend_refusal (meaning self.old) number quantity }
        ensures after { meaning self.new ≡ (if is_ok result then resized (meaning self.old) number quantity
            else meaning self.old) }
        ensures did { OnOk result (Did self.old (Amend number quantity price) self.new) };

    /// The next event, and what it changes.
    fn next_event(&mut self) -> Event
        ensures allowed { Allowed (meaning self.old).orders result }
        ensures after { meaning self.new ≡ happened (meaning self.old) result }
        ensures did { Did self.old (Next result) self.new };

    /// Tells it an instrument's midpoint price, or that it has none. Refused with 21 by an engine that is not told
    /// midpoints; else exactly where the instrument's number is not under 32 (20), or the price is not above 0 (22), tried
    /// in this order. It changes no order.
    fn midpoint(&mut self, instrument: usize, price: Option<Price>) -> Result<(), MidpointRefusal>
        ensures refusal { result_err result ≡ midpoint_refusal guided instrument price }
        ensures learns { Learns self.old instrument price (is_ok result) self.new }
        ensures orders { meaning self.new ≡ meaning self.old };

    /// The order that is open under a number, if one is.
    fn open_order(&self, number: u64) -> Option<Held>
        ensures { result ≡ get (meaning self.now).orders number };

    /// How many orders are open.
    fn open_count(&self) -> usize
        ensures { result ≡ len (meaning self.now).orders };

    /// How many orders can be open at a time.
    fn capacity(&self) -> usize
        ensures { result ≡ (meaning self.now).capacity };

    /// Whether it takes orders for a book.
    fn serves(&self, book: Book) -> bool
        ensures { result ≡ serves (meaning self.now) book };

    /// Whether an order is open under a number.
    fn is_open(&self, number: u64) -> bool
        ensures { result ≡ is_some (get (meaning self.now).orders number) }
    {
        self.open_order(number).is_some()
    }

    /// The open quantity under a number, 0 where none is open.
    fn open_quantity(&self, number: u64) -> u32
        ensures { result ≡ open_quantity (meaning self.now).orders number }
    {
        self.open_order(number).map_or(0, |order| order.quantity)
    }

    /// Whether no order is open.
    fn is_empty(&self) -> bool
        ensures { result ≡ (len (meaning self.now).orders == 0) }
    {
        self.open_count() == 0
    }

    // No more orders are open than the engine takes.
    ghost bounded: { (m : Self) → len (meaning m).orders ≤ (meaning m).capacity };
}
