// The lit book: the orders of a book by the rule of the best price, and the book as a matching engine.
ghost use Rattle.std.specs.Prelude.{◌≡◌, true};
ghost use Rattle.lit_book.specs.Lists.{settled};
ghost use Rattle.order_book.specs.Books.{lists_of};

use crate::rule::BestPrice;
use codes::order::Book;
use limits::ORDERS;
use matching::event::Event;
use matching::matcher::{Held, Matcher, Refusal, Ticket};
use matching::midpoint::MidpointRefusal;
use order_book::book::OrderBook;
use order_book::order::Order;
use std::alloc::{AllocError, Global};
use texts::values::Price;

/// A lit book. All its memory is reserved when it is made.
#[derive(Drop)]
pub struct LitBook {
    orders: OrderBook,
    ghost uncrossed: { settled (lists_of orders).resting ≡ true },
}

impl LitBook {
    ghost use Rattle.std.specs.Prelude.{◌≡◌, [], IfOk};
    ghost use Rattle.lit_book.specs.Books.{lit};
    ghost use Rattle.lit_book.specs.Laws.{Enough, LastRefused, Worked};
    ghost use Rattle.order_book.specs.Laws.{open_orders};

    /// An empty book. The rules that it follows give the worked example, and the law that of equals the first to rest is
    /// served refuses the other.
    #[tactic(auto, using(crate::proofs::Examples::last_refused))]
    pub fn new(heap: Global) -> Result<LitBook, AllocError>
        ensures empty { IfOk result (λ b. lit b ≡ record { resting = []; waiting = [] }) }
        ensures example { Worked }
        ensures law { LastRefused }
    {
        let orders = OrderBook::new(heap)?;
        Ok(LitBook { orders })
    }

    /// How many events come at most before there is none, which is how many orders are open: each event leaves fewer.
    pub fn most_events(&self) -> usize
        ensures count { result ≡ open_orders (lit self.now) }
        ensures enough { Enough result (lit self.now) }
    {
        self.orders.open_count()
    }

    /// The orders at rest, the first to rest first.
    pub fn resting(&self) -> &[Order]
        ensures { result.now ≡ (lit self.now).resting }
    {
        self.orders.resting()
    }

    /// The waiting orders, the oldest first.
    pub fn waiting(&self) -> &[Order]
        ensures { result.now ≡ (lit self.now).waiting }
    {
        self.orders.waiting()
    }
}

// Beside the trait's contract each call says what it does to the orders that rest and the orders that wait, by the
// rules of the book.
impl Matcher for LitBook {
    ghost use Rattle.std.specs.Prelude.{◌≡◌, OnErr, OnOk, is_ok, if◌then◌else◌, None};
    ghost use Rattle.matching.specs.Asked.{Enter, Cancel, Amend, Next};
    ghost use Rattle.std.specs.Result.{result_err};
    ghost use Rattle.matching.specs.Meaning.{Allowed, amend_refusal, cancel_refusal, closed, enter_refusal, happened, held_of, opened, resized};
    ghost use Rattle.lit_book.specs.Books.{LitDid, lit, lit_bounded, lit_meaning};
    ghost use Rattle.lit_book.specs.Laws.{Served, Uncrossed};
    ghost use Rattle.order_book.specs.Laws.{Fair, Idle};

    ghost meaning = { lit_meaning };

    ghost Did = { LitDid };

    ghost bounded = { lit_bounded };

    #[tactic(auto, using(crate::proofs::Keeps::enter_settled))]
    fn enter(&mut self, number: u64, terms: Ticket) -> Result<(), Refusal>
        ensures refusal { result_err result ≡ enter_refusal (lit_meaning self.old) number terms.quantity }
        ensures after { lit_meaning self.new ≡ (if is_ok result
            then opened (lit_meaning self.old) number (held_of terms) else lit_meaning self.old) }
        ensures did { OnOk result (LitDid self.old (Enter number terms) self.new) }
        ensures same { OnErr result (lit self.new ≡ lit self.old) }
    {
        self.orders.enter(number, terms)
    }

    fn cancel(&mut self, number: u64) -> Result<(), Refusal>
        ensures refusal { result_err result ≡ cancel_refusal (lit_meaning self.old) number }
        ensures after { lit_meaning self.new ≡ (if is_ok result then closed (lit_meaning self.old) number
            else lit_meaning self.old) }
        ensures did { OnOk result (LitDid self.old (Cancel number) self.new) }
        ensures same { OnErr result (lit self.new ≡ lit self.old) }
    {
        self.orders.cancel(number)
    }

    fn amend(&mut self, number: u64, quantity: u32, price: Price) -> Result<(), Refusal>
        ensures refusal { result_err result ≡ amend_refusal (lit_meaning self.old) number quantity }
        ensures after { lit_meaning self.new ≡ (if is_ok result then resized (lit_meaning self.old) number quantity
            else lit_meaning self.old) }
        ensures did { OnOk result (LitDid self.old (Amend number quantity price) self.new) }
        ensures same { OnErr result (lit self.new ≡ lit self.old) }
    {
        self.orders.amend(number, quantity, price)
    }

    fn next_event(&mut self) -> Event
        ensures allowed { Allowed (lit_meaning self.old).orders result }
        ensures after { lit_meaning self.new ≡ happened (lit_meaning self.old) result }
        ensures did { LitDid self.old (Next result) self.new }
        ensures fair { Fair (lit self.old) result }
        ensures served { Served (lit self.old) result }
        ensures uncrossed { Uncrossed (lit self.new).resting }
        ensures idle { Idle result (lit self.new) }
    {
        self.orders.next_event(&BestPrice)
    }

    fn midpoint(
        &mut self,
        _instrument: usize,
        _price: Option<Price>,
    ) -> Result<(), MidpointRefusal> {
        Err(MidpointRefusal::NoMidpoints)
    }

    fn open_order(&self, number: u64) -> Option<Held> {
        self.orders.open_order(number)
    }

    fn open_count(&self) -> usize {
        self.orders.open_count()
    }

    fn capacity(&self) -> usize {
        ORDERS
    }

    fn serves(&self, book: Book) -> bool {
        match book {
            Book::DarkMidpoint => false,
            Book::Integrated => true,
        }
    }
}
