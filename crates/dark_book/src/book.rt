// The dark book: the orders of a book by the rule of the midpoint, and the book as a matching engine.
use crate::rule::Midpoint;
use codes::order::Book;
use limits::{INSTRUMENTS, ORDERS};
use matching::event::Event;
use matching::matcher::{Held, Matcher, Refusal, Ticket};
use matching::midpoint::MidpointRefusal;
use order_book::book::OrderBook;
use order_book::order::Order;
use std::alloc::{AllocError, Global};
use texts::values::Price;

/// A dark midpoint book. All its memory is reserved when it is made.
#[derive(Drop)]
pub struct DarkBook {
    orders: OrderBook,
    rule: Midpoint,
}

impl DarkBook {
    ghost use Rattle.std.specs.Prelude.{◌≡◌, [], IfOk, None, replicate};
    ghost use Rattle.dark_book.specs.Books.{dark, midpoints};
    ghost use Rattle.dark_book.specs.Laws.{Enough, LastRefused, SmallerRefused, Worked};
    ghost use Rattle.order_book.specs.Laws.{open_orders};

    /// An empty book, with no midpoint. The rules that it follows give the worked example, and the law that the largest is
    /// served, and of equals the first to rest, refuses the others.
    #[tactic(auto, using(crate::proofs::Examples::last_refused, crate::proofs::Examples::smaller_refused))]
    pub fn new(heap: Global) -> Result<DarkBook, AllocError>
        ensures empty { IfOk result (λ b. dark b ≡ record { resting = []; waiting = [] }) }
        ensures none { IfOk result (λ b. midpoints b ≡ replicate 32 None) }
        ensures example { Worked }
        ensures last { LastRefused }
        ensures smaller { SmallerRefused }
    {
        let orders = OrderBook::new(heap)?;
        Ok(DarkBook {
            orders,
            rule: Midpoint::none(),
        })
    }

    /// How many events come at most before there is none, as long as the midpoints stay: how many orders are open.
    pub fn most_events(&self) -> usize
        ensures count { result ≡ open_orders (dark self.now) }
        ensures enough { Enough (midpoints self.now) result (dark self.now) }
    {
        self.orders.open_count()
    }

    /// The orders at rest, the first to rest first.
    pub fn resting(&self) -> &[Order]
        ensures { result.now ≡ (dark self.now).resting }
    {
        self.orders.resting()
    }

    /// The waiting orders, the oldest first.
    pub fn waiting(&self) -> &[Order]
        ensures { result.now ≡ (dark self.now).waiting }
    {
        self.orders.waiting()
    }
}

// Beside the trait's contract each call says what it does to the orders that rest and the orders that wait, by the
// rules of the book.
impl Matcher for DarkBook {
    ghost use Rattle.std.specs.Prelude.{◌≡◌, OnErr, OnOk, is_ok, if◌then◌else◌, None, true};
    ghost use Rattle.matching.specs.Asked.{Enter, Cancel, Amend, Next};
    ghost use Rattle.std.specs.Result.{result_err};
    ghost use Rattle.matching.specs.Meaning.{Allowed, amend_refusal, cancel_refusal, closed, enter_refusal, happened, held_of, opened, resized};
    ghost use Rattle.matching.specs.Midpoints.{midpoint_refusal};
    ghost use Rattle.dark_book.specs.Books.{DarkDid, DarkLearns, dark, dark_bounded, dark_meaning, midpoints};
    ghost use Rattle.dark_book.specs.Laws.{AtMidpoint, Served};
    ghost use Rattle.order_book.specs.Laws.{Fair, Idle};

    ghost meaning = { dark_meaning };

    ghost Did = { DarkDid };

    ghost guided = { true };

    ghost Learns = { DarkLearns };

    ghost bounded = { dark_bounded };

    fn enter(&mut self, number: u64, terms: Ticket) -> Result<(), Refusal>
        ensures refusal { result_err result ≡ enter_refusal (dark_meaning self.old) number terms.quantity }
        ensures after { dark_meaning self.new ≡ (if is_ok result
            then opened (dark_meaning self.old) number (held_of terms) else dark_meaning self.old) }
        ensures did { OnOk result (DarkDid self.old (Enter number terms) self.new) }
        ensures same { OnErr result (dark self.new ≡ dark self.old) }
        ensures midpoints { midpoints self.new ≡ midpoints self.old }
    {
        self.orders.enter(number, terms)
    }

    fn cancel(&mut self, number: u64) -> Result<(), Refusal>
        ensures refusal { result_err result ≡ cancel_refusal (dark_meaning self.old) number }
        ensures after { dark_meaning self.new ≡ (if is_ok result then closed (dark_meaning self.old) number
            else dark_meaning self.old) }
        ensures did { OnOk result (DarkDid self.old (Cancel number) self.new) }
        ensures same { OnErr result (dark self.new ≡ dark self.old) }
        ensures midpoints { midpoints self.new ≡ midpoints self.old }
    {
        self.orders.cancel(number)
    }

    fn amend(&mut self, number: u64, quantity: u32, price: Price) -> Result<(), Refusal>
        ensures refusal { result_err result ≡ amend_refusal (dark_meaning self.old) number quantity }
        ensures after { dark_meaning self.new ≡ (if is_ok result then resized (dark_meaning self.old) number quantity
            else dark_meaning self.old) }
        ensures did { OnOk result (DarkDid self.old (Amend number quantity price) self.new) }
        ensures same { OnErr result (dark self.new ≡ dark self.old) }
        ensures midpoints { midpoints self.new ≡ midpoints self.old }
    {
        self.orders.amend(number, quantity, price)
    }

    #[tactic(auto, using(crate::proofs::Laws::at_midpoint, crate::proofs::Laws::served))]
    fn next_event(&mut self) -> Event
        ensures allowed { Allowed (dark_meaning self.old).orders result }
        ensures after { dark_meaning self.new ≡ happened (dark_meaning self.old) result }
        ensures did { DarkDid self.old (Next result) self.new }
        ensures fair { Fair (dark self.old) result }
        ensures price { AtMidpoint (midpoints self.old) (dark self.old) result }
        ensures served { Served (dark self.old) result }
        ensures idle { Idle result (dark self.new) }
    {
        self.orders.next_event(&self.rule)
    }

    fn midpoint(&mut self, instrument: usize, price: Option<Price>) -> Result<(), MidpointRefusal>
        ensures refusal { result_err result ≡ midpoint_refusal true instrument price }
        ensures learns { DarkLearns self.old instrument price (is_ok result) self.new }
        ensures orders { dark_meaning self.new ≡ dark_meaning self.old }
    {
        if instrument >= INSTRUMENTS {
            return Err(MidpointRefusal::NoInstrument);
        }
        if let Some(price) = price
            && price.raw <= 0
        {
            return Err(MidpointRefusal::BadPrice);
        }
        self.rule.prices[instrument] = price;
        Ok(())
    }

    fn open_order(&self, number: u64) -> Option<Held> {
        self.orders.open_order(number)
    }

    fn open_count(&self) -> usize {
        self.orders.open_count()
    }

    fn capacity(&self) -> usize {
        ORDERS
    }

    fn serves(&self, book: Book) -> bool {
        match book {
            Book::DarkMidpoint => true,
            Book::Integrated => false,
        }
    }
}
