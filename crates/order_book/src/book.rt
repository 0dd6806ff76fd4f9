// The orders of a book in memory of its own, and their moves: an order waits, comes to rest, is taken off, is amended and
// perhaps goes to the back, trades, expires. Which orders trade is a pairing rule's to say.
ghost use Rattle.std.specs.Prelude.{◌≡◌, ◌<◌, ◌≤◌, true, map, drop, IfSome, vec_len, vec_capacity};
ghost use Rattle.std.specs.List.{All};
ghost use Rattle.limits.specs.declared.TheConstants as limit;
ghost use Rattle.order_book.specs.Rules.{left_of};
ghost use Rattle.order_book.specs.Lists.{all_apart, order_number};

use crate::order::Order;
use crate::rule::{PairingRule, best_of};
use crate::turns::Turns;
use keyed::place_of;
use limits::ORDERS;
use matching::event::Event;
use matching::matcher::{Held, Refusal, Ticket};
use std::alloc::{AllocError, Global};
use texts::values::Price;

/// The orders of a book. All their memory is reserved when it is made.
#[derive(Drop)]
pub struct OrderBook {
    // the orders at rest, the first to rest first, and behind them the waiting ones in turn
    orders: Vec<Order>,
    // how many of them rest
    resting: usize,
    // the numbers of the waiting ones
    turns: Turns,
    ghost reserved: { limit.ORDERS ≤ vec_capacity orders },
    ghost limited: { vec_len orders ≤ limit.ORDERS },
    ghost within: { resting ≤ vec_len orders },
    ghost apart: { all_apart orders.items ≡ true },
    ghost nonzero: { All (λ o. 0 < o.quantity) orders.items },
    ghost in_turn: { turns ≡ map order_number (drop resting orders.items) },
}

// What is to be done next.
#[derive(Clone, Copy)]
enum Turn {
    // nothing waits
    Idle,
    // the oldest waiting order finds nothing to trade with, and does not rest
    Expires(Order),
    // the oldest waiting order trades with another, which stands at this place
    Trades(Order, Order, usize),
}

// What is left of an open quantity after a trade.
fn left(open: u32, traded: u32) -> Option<u32>
    ensures value { result ≡ left_of traded «open» }
    ensures some { IfSome result (λ q. 0 < q) }
{
    if traded < open {
        Some(open - traded)
    } else {
        None
    }
}

impl OrderBook {
    ghost use Rattle.std.specs.Prelude.{◌≡◌, ◌+◌, ◌<◌, ◌≤◌, Bool, true, false, [], ◌∷◌, ◌++◌, drop, is_ok, is_some, IfOk, IfSome, OnErr, OnOk, Some, None, vec_len, if◌then◌else◌};
    ghost use Rattle.std.specs.FinMap.{get, len};
    ghost use Rattle.std.specs.List.{slice_get};
    ghost use Rattle.std.specs.Result.{result_err};
    ghost use Rattle.matching.specs.Meaning.{Allowed, amend_refusal, cancel_refusal, closed, enter_refusal, happened, held_of, opened, resized};
    ghost use Rattle.order_book.specs.Books.{lists_of, meaning_as, open_in, plain, table};
    ghost use Rattle.order_book.specs.Laws.{Chosen, Fair, Idle, open_orders};
    ghost use Rattle.order_book.specs.Lists.{FoundOrder, order_held};
    ghost use Rattle.order_book.specs.Orders.{rests};
    ghost use Rattle.order_book.specs.Rules.{altered, amended, entered, left_of, next_by, order_of, order_under, trade_of, traded};
    ghost use Rattle.order_book.specs.Steps.{Stands, TurnIs, remaining};
    ghost use Rattle.limits.specs.declared.TheConstants.{ORDERS};

    /// No orders yet.
    pub fn new(heap: Global) -> Result<OrderBook, AllocError>
        ensures { IfOk result (λ b. lists_of b ≡ record { resting = []; waiting = [] }) }
    {
        let orders = Vec::with_capacity(heap, ORDERS)?;
        Ok(OrderBook {
            orders,
            resting: 0,
            turns: Turns::new(),
        })
    }

    /// How many orders are open.
    #[tactic(auto, using(crate::proofs::Tables::count, crate::proofs::Ends::all_counted))]
    pub fn open_count(&self) -> usize
        ensures count { result ≡ len (open_in self.now) }
        ensures lists { result ≡ open_orders (lists_of self.now) }
    {
        self.orders.len()
    }

    /// The orders at rest, the first to rest first.
    pub fn resting(&self) -> &[Order]
        ensures { result.now ≡ (lists_of self.now).resting }
    {
        &self.orders[..self.resting]
    }

    /// The waiting orders, the oldest first.
    pub fn waiting(&self) -> &[Order]
        ensures { result.now ≡ (lists_of self.now).waiting }
    {
        &self.orders[self.resting..]
    }

    /// The order that is open under a number, if one is.
    pub fn open_order(&self, number: u64) -> Option<Held>
        ensures { result ≡ get (open_in self.now) number }
    {
        let i = self.find(number)?;
        Some(self.held_at(i, number))
    }

    /// Opens an order under a number: it waits behind all others. Refused exactly at quantity 0, an open number or 256
    /// open orders, tried in this order; then all stays.
    #[tactic(auto, using(crate::proofs::Tables::count))]
    pub fn enter(&mut self, number: u64, terms: Ticket) -> Result<(), Refusal>
        ensures refusal { result_err result ≡ enter_refusal (plain self.old) number terms.quantity }
        ensures after { (d i : Bool) → meaning_as d i self.new ≡ (if is_ok result
            then opened (meaning_as d i self.old) number (held_of terms) else meaning_as d i self.old) }
        ensures lists { OnOk result (lists_of self.new ≡ entered (lists_of self.old) (order_of number terms)) }
        ensures same { OnErr result (lists_of self.new ≡ lists_of self.old) }
    {
        if terms.quantity == 0 {
            return Err(Refusal::NoQuantity);
        }
        if self.open_order(number).is_some() {
            return Err(Refusal::NumberOpen);
        }
        if self.open_count() >= ORDERS {
            return Err(Refusal::Full);
        }
        self.add(Order::new(number, terms));
        Ok(())
    }

    /// Ends an open order. Refused exactly where it is not open; then all stays.
    pub fn cancel(&mut self, number: u64) -> Result<(), Refusal>
        ensures refusal { result_err result ≡ cancel_refusal (plain self.old) number }
        ensures after { (d i : Bool) → meaning_as d i self.new ≡ (if is_ok result
            then closed (meaning_as d i self.old) number else meaning_as d i self.old) }
        ensures lists { OnOk result (lists_of self.new ≡ altered (lists_of self.old) number None) }
        ensures same { OnErr result (lists_of self.new ≡ lists_of self.old) }
    {
        let i = self.find(number).ok_or(Refusal::NotOpen)?;
        self.remove(i, number);
        Ok(())
    }

    /// Sets the open quantity and the price of an open order, which keeps its place or waits again behind all others.
    /// Refused exactly where it is not open, or the quantity is 0, tried in this order; then all stays.
    pub fn amend(&mut self, number: u64, quantity: u32, price: Price) -> Result<(), Refusal>
        ensures refusal { result_err result ≡ amend_refusal (plain self.old) number quantity }
        ensures after { (d i : Bool) → meaning_as d i self.new ≡ (if is_ok result
            then resized (meaning_as d i self.old) number quantity else meaning_as d i self.old) }
        ensures lists { OnOk result
            (lists_of self.new ≡ amended (lists_of self.old) (order_under (lists_of self.old) number) quantity price) }
        ensures same { OnErr result (lists_of self.new ≡ lists_of self.old) }
    {
        let i = self.find(number).ok_or(Refusal::NotOpen)?;
        if quantity == 0 {
            return Err(Refusal::NoQuantity);
        }
        self.revise(i, number, quantity, price);
        Ok(())
    }

    /// The next event by a pairing rule, and what it changes: the oldest waiting order trades with the best for it
    /// at rest, or it expires; a Day limit order for which there is none comes to rest, and the next waiting one is taken.
    #[tactic(auto, using(crate::proofs::Nexts::none_waits))]
    pub fn next_event<R: PairingRule>(&mut self, rule: &R) -> Event
        ensures allowed { Allowed (open_in self.old) result }
        ensures after { (d i : Bool) → meaning_as d i self.new ≡ happened (meaning_as d i self.old) result }
        ensures event { result ≡ (next_by (R.rule rule.now) (lists_of self.old)).0 }
        ensures lists { lists_of self.new ≡ (next_by (R.rule rule.now) (lists_of self.old)).1 }
        ensures fair { Fair (lists_of self.old) result }
        ensures chosen { Chosen (R.rule rule.now) (lists_of self.old) result }
        ensures idle { Idle result (lists_of self.new) }
    {
        match self.next_turn(rule) {
            Turn::Idle => Event::Nothing,
            Turn::Expires(order) => self.expire(order),
            Turn::Trades(order, other, place) => {
                let price = rule.price(&order, &other);
                self.trade(order, other, place, price)
            }
        }
    }

    // The place of the order of a number.
    fn find(&self, number: u64) -> Option<usize>
        ensures found { FoundOrder (table self.now) number result }
        ensures test { is_some result ≡ is_some (get (open_in self.now) number) }
    {
        place_of(&self.orders, number)
    }

    // What is open under the number of the order at a place.
    #[tactic(auto, using(crate::proofs::Tables::held))]
    fn held_at(&self, place: usize, number: u64) -> Held
        requires { FoundOrder (table self.now) number (Some place) }
        ensures { get (open_in self.now) number ≡ Some result }
    {
        let order = self.orders[place];
        Held {
            instrument: order.instrument,
            quantity: order.quantity,
        }
    }

    // One more order, which waits behind all others; its number has none open.
    #[tactic(auto, using(crate::proofs::Tables::add_means, crate::proofs::Tables::add_apart, crate::proofs::Tables::add_open, crate::proofs::Tables::add_turn))]
    fn add(&mut self, order: Order)
        requires new { get (open_in self.old) order.number ≡ None }
        requires room { vec_len self.old.orders < ORDERS }
        requires some { 0 < order.quantity }
        ensures lists { lists_of self.new ≡ entered (lists_of self.old) order }
        ensures after { plain self.new ≡ opened (plain self.old) order.number (order_held order) }
    {
        self.orders.push_reserved(order);
        self.turns.join(order.number);
    }

    // Takes the order at a place out of the book.
    #[tactic(auto, using(crate::proofs::Tables::remove_means, crate::proofs::Tables::remove_apart, crate::proofs::Tables::remove_open, crate::proofs::Tables::front_lists, crate::proofs::Tables::front_turn, crate::proofs::Tables::back_lists, crate::proofs::Tables::back_turn))]
    fn remove(&mut self, place: usize, number: u64)
        requires { FoundOrder (table self.old) number (Some place) }
        ensures lists { lists_of self.new ≡ altered (lists_of self.old) number None }
        ensures after { plain self.new ≡ closed (plain self.old) number }
        ensures one_less { vec_len self.new.orders + 1 ≡ vec_len self.old.orders }
    {
        let resting = self.resting;
        let _ = self.orders.remove(place);
        if place < resting {
            self.resting = resting - 1;
        } else {
            self.turns.leave(place - resting);
        }
    }

    // Sets the open quantity of the order at a place, which it keeps.
    #[tactic(auto, using(crate::proofs::Tables::set_means, crate::proofs::Tables::set_apart, crate::proofs::Tables::set_open, crate::proofs::Tables::set_lists, crate::proofs::Tables::set_turn))]
    fn resize(&mut self, place: usize, number: u64, quantity: u32)
        requires found { FoundOrder (table self.old) number (Some place) }
        requires some { 0 < quantity }
        ensures lists { lists_of self.new ≡ altered (lists_of self.old) number (Some quantity) }
        ensures after { plain self.new ≡ resized (plain self.old) number quantity }
    {
        self.orders[place].quantity = quantity;
    }

    // Leaves of the order at a place what is left of it.
    fn alter(&mut self, place: usize, number: u64, left: Option<u32>)
        requires found { FoundOrder (table self.old) number (Some place) }
        requires some { IfSome left (λ q. 0 < q) }
        ensures lists { lists_of self.new ≡ altered (lists_of self.old) number left }
        ensures after { plain self.new ≡ remaining (plain self.old) number left }
    {
        match left {
            Some(quantity) => self.resize(place, number, quantity),
            None => self.remove(place, number),
        }
    }

    // Gives an open order another quantity and price; it keeps its place, or waits again behind all others.
    fn revise(&mut self, place: usize, number: u64, quantity: u32, price: Price)
        requires found { FoundOrder (table self.old) number (Some place) }
        requires some { 0 < quantity }
        ensures lists { lists_of self.new
            ≡ amended (lists_of self.old) (order_under (lists_of self.old) number) quantity price }
        ensures after { plain self.new ≡ resized (plain self.old) number quantity }
    {
        let order = self.orders[place];
        if order.goes_back(quantity, price) {
            self.remove(place, number);
            self.add(Order { quantity, ..order }.with_limit(price));
        } else {
            self.resize(place, number, quantity);
        }
    }

    // The oldest waiting order.
    fn oldest(&mut self) -> Option<Order>
        ensures value { result ≡ slice_get (lists_of self.old).waiting 0 }
        ensures lists { lists_of self.new ≡ lists_of self.old }
        ensures after { open_in self.new ≡ open_in self.old }
    {
        match self.turns.front() {
            Some(_) => Some(self.orders[self.resting]),
            None => None,
        }
    }

    // Brings the oldest waiting order to rest.
    #[tactic(auto, using(crate::proofs::Tables::rest_less, crate::proofs::Tables::rest_back, crate::proofs::Tables::rest_front, crate::proofs::Tables::rest_turn))]
    fn rest(&mut self, order: Order)
        requires { slice_get (lists_of self.old).waiting 0 ≡ Some order }
        ensures resting { (lists_of self.new).resting ≡ (lists_of self.old).resting ++ order ∷ [] }
        ensures waiting { (lists_of self.new).waiting ≡ drop 1 (lists_of self.old).waiting }
        ensures after { open_in self.new ≡ open_in self.old }
    {
        self.resting += 1;
        self.turns.advance();
    }

    // Goes on until the oldest waiting order trades or expires, or none waits; those before it come to rest.
    #[tactic(auto, using(crate::proofs::Nexts::next_rest))]
    fn next_turn<R: PairingRule>(&mut self, rule: &R) -> Turn
        ensures turn { TurnIs (R.rule rule.now) (lists_of self.new) result }
        ensures same { next_by (R.rule rule.now) (lists_of self.new) ≡ next_by (R.rule rule.now) (lists_of self.old) }
        ensures after { open_in self.new ≡ open_in self.old }
    {
        while let Some(order) = self.oldest() {
            if let Some(place) = best_of(rule, &order, self.resting()) {
                return Turn::Trades(order, self.orders[place], place);
            }
            if !order.rests() {
                return Turn::Expires(order);
            }
            self.rest(order);
        }
        Turn::Idle
    }

    // The oldest waiting order trades with one at rest, which stands at a place, at a price.
    fn trade(&mut self, order: Order, other: Order, place: usize, price: Price) -> Event
        requires oldest { slice_get (lists_of self.old).waiting 0 ≡ Some order }
        requires other { Stands (lists_of self.old).resting place other }
        requires instrument { order.instrument ≡ other.instrument }
        ensures event { result ≡ trade_of order other price }
        ensures lists { lists_of self.new ≡ traded (lists_of self.old) order other }
        ensures allowed { Allowed (open_in self.old) result }
        ensures after { plain self.new ≡ happened (plain self.old) result }
    {
        let quantity = order.quantity.min(other.quantity);
        self.alter(place, other.number, left(other.quantity, quantity));
        self.alter(self.resting, order.number, left(order.quantity, quantity));
        Event::Trade {
            passive: Some(other.number),
            aggressive: Some(order.number),
            quantity,
            price,
        }
    }

    // The oldest waiting order expires.
    #[tactic(auto, using(crate::proofs::Matches::oldest_known))]
    fn expire(&mut self, order: Order) -> Event
        requires { slice_get (lists_of self.old).waiting 0 ≡ Some order }
        ensures event { result ≡ Event.Expired order.number }
        ensures lists { lists_of self.new ≡ altered (lists_of self.old) order.number None }
        ensures allowed { Allowed (open_in self.old) result }
        ensures after { plain self.new ≡ happened (plain self.old) result }
    {
        self.remove(self.resting, order.number);
        Event::Expired(order.number)
    }
}
