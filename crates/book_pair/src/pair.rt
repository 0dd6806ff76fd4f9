// A pair of matching engines.
ghost use Rattle.std.specs.Prelude.{◌≡◌};
ghost use Rattle.book_pair.specs.Pairs.{Fits, happens, paired};
ghost use Rattle.book_pair.specs.Unions.{Apart};

use codes::order::Book;
use matching::event::Event;
use matching::matcher::{Held, Matcher, Refusal, Ticket};
use matching::midpoint::MidpointRefusal;
use texts::values::Price;

/// Two matching engines as one. No order number is open in both, and together they hold no more orders than the smaller
/// takes.
#[derive(Drop)]
pub struct BookPair<A: Matcher, B: Matcher> {
    first: A,
    second: B,
    ghost apart: { Apart (A.meaning first).orders (B.meaning second).orders },
    ghost roomy: { Fits (paired (A.meaning first) (B.meaning second)) },
}

/// Why two engines are not joined.
#[derive(Clone, Copy, Debug, PartialEq)]
pub enum JoinRefusal {
    /// One of them holds an order.
    NotEmpty,
}

impl JoinRefusal {
    /// The number of the reason: 61.
    pub fn number(self) -> u8
        ensures { result ≡ 61 }
    {
        match self {
            JoinRefusal::NotEmpty => 61,
        }
    }
}

// Whether an event is one.
fn happens(event: Event) -> bool
    ensures { result ≡ happens event }
{
    match event {
        Event::Nothing => false,
        Event::Expired(_) => true,
        Event::Trade { .. } => true,
    }
}

impl<A: Matcher, B: Matcher> BookPair<A, B> {
    ghost use Rattle.std.specs.Prelude.{◌≡◌, ◌&&◌, ◌==◌, MatchResult, is_ok};
    ghost use Rattle.std.specs.FinMap.{len};
    ghost use Rattle.book_pair.specs.declared.pair.JoinRefusal.TheVariants.{NotEmpty};

    /// Joins two engines. Refused with 61 where one of them holds an order; both are then given back.
    pub fn join(first: A, second: B) -> Result<BookPair<A, B>, (JoinRefusal, A, B)>
        ensures test { is_ok result
            ≡ (len (A.meaning first).orders == 0 && len (B.meaning second).orders == 0) }
        ensures joined { MatchResult result (λ p. (p.first ≡ first) × (p.second ≡ second))
            (λ back. back ≡ (NotEmpty, first, second)) }
    {
        if !first.is_empty() || !second.is_empty() {
            return Err((JoinRefusal::NotEmpty, first, second));
        }
        Ok(BookPair { first, second })
    }

    /// The first engine.
    pub fn first(&self) -> &A
        ensures { result.now ≡ self.now.first }
    {
        &self.first
    }

    /// The second engine.
    pub fn second(&self) -> &B
        ensures { result.now ≡ self.now.second }
    {
        &self.second
    }
}

// An order goes to the first engine where that serves its book, and else to the second, which is told midpoints.
impl<A: Matcher, B: Matcher> Matcher for BookPair<A, B> {
    ghost use Rattle.std.specs.Prelude.{◌≡◌, OnOk, OnErr, is_ok, if◌then◌else◌};
    ghost use Rattle.std.specs.Result.{result_err};
    ghost use Rattle.matching.specs.Asked.{Enter, Cancel, Amend, Next};
    ghost use Rattle.matching.specs.Meaning.{Allowed, amend_refusal, cancel_refusal, closed, enter_refusal, happened, held_of, opened, resized};
    ghost use Rattle.book_pair.specs.Pairs.{PairDid, paired};

    ghost meaning = { λ p. paired (A.meaning p.first) (B.meaning p.second) };

    ghost Did = { λ p x q. PairDid A.meaning A.Did B.Did p.first p.second x q.first q.second };

    ghost guided = { B.guided };

    ghost Learns = { λ p i m taken q. (q.first ≡ p.first) × B.Learns p.second i m taken q.second };

    ghost bounded = { λ p. p.roomy };

    fn enter(&mut self, number: u64, terms: Ticket) -> Result<(), Refusal> {
        if terms.quantity == 0 {
            return Err(Refusal::NoQuantity);
        }
        if self.is_open(number) {
            return Err(Refusal::NumberOpen);
        }
        if self.open_count() >= self.capacity() {
            return Err(Refusal::Full);
        }
        if self.first.serves(terms.book) {
            self.first.enter(number, terms)
        } else {
            self.second.enter(number, terms)
        }
    }

    fn cancel(&mut self, number: u64) -> Result<(), Refusal> {
        if self.first.is_open(number) {
            self.first.cancel(number)
        } else {
            self.second.cancel(number)
        }
    }

    fn amend(&mut self, number: u64, quantity: u32, price: Price) -> Result<(), Refusal> {
        if self.first.is_open(number) {
            self.first.amend(number, quantity, price)
        } else {
            self.second.amend(number, quantity, price)
        }
    }

    fn next_event(&mut self) -> Event {
        let event = self.first.next_event();
        if happens(event) {
            return event;
        }
        self.second.next_event()
    }

    // The second engine is told.
    fn midpoint(&mut self, instrument: usize, price: Option<Price>) -> Result<(), MidpointRefusal> {
        self.second.midpoint(instrument, price)
    }

    fn open_order(&self, number: u64) -> Option<Held> {
        match self.first.open_order(number) {
            Some(order) => Some(order),
            None => self.second.open_order(number),
        }
    }

    fn open_count(&self) -> usize {
        // for the proof: no more are open than a number can count
        let _most = self.first.capacity();
        self.first.open_count() + self.second.open_count()
    }

    fn capacity(&self) -> usize {
        self.first.capacity().min(self.second.capacity())
    }

    #[tactic(auto, using(crate::proofs::Pairs::serves_paired))]
    fn serves(&self, book: Book) -> bool {
        self.first.serves(book) || self.second.serves(book)
    }
}
