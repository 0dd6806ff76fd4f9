// A venue: the orders, the trades, a matcher and a store of one day, kept in step.
ghost use Rattle.std.specs.Prelude.{◌≡◌, ◌+◌, ◌<◌, ◌≤◌, ◌∷◌, [], true, is_none, length, None, Some, MatchResult};

use crate::asking::{enter, set_to, take_out, ticket_of};
use crate::ledger::Ledger;
use crate::step::Step;
use crate::trading::Deal;
use changes::change::Change;
use codes::session::Partition;
use configuration::instrument::Instrument;
use matching::event::Event;
use matching::matcher::Matcher;
use matching::midpoint::MidpointRefusal;
use orders::order::Order;
use orders::row::{Ask, Ending, Row, Terms};
use orders::table::Table;
use orders::trade::{Trade, Trades};
use reports::report::Entry;
use std::alloc::Global;
use std::marker::Model;
use store::Store;
use texts::fixed::FixedText;
use texts::values::{Price, Time};

/// The venue under a gateway's lines: in a contract, its books, and beside them its matcher as it is and how many places
/// its store has free.
#[derive(Drop)]
pub struct Venue<M: Matcher, S: Store> {
    ledger: Ledger<S>,
    trades: Trades,
    matcher: M,
}

impl<M: Matcher, S: Store> Model for Venue<M, S> {
    ghost use Rattle.std.specs.Coded.{codes};
    ghost use Rattle.std.specs.FinMap as map;
    ghost use Rattle.venue.specs.Books.{Books, Over};

    ghost Value = { Over Books M };

    ghost coded = { Prim.hlevel (codes, map.code) };

    ghost use Rattle.venue.specs.Inside.{Keeps, shown};

    ghost view = { shown M.Matcher S.Store };

    ghost invariant = { Keeps M.Matcher S.Store };
}

impl<M: Matcher, S: Store> Venue<M, S> {
    ghost use Rattle.keyed.specs.Numbers.{under};
    ghost use Rattle.orders.specs.Rows.{orderable};
    ghost use Rattle.orders.specs.Orders.{replace_fault};
    ghost use Rattle.orders.specs.Trades.{void_fault};
    ghost use Rattle.orders.specs.Tables.{is_full, latest, open_count, owned};
    ghost use Rattle.partitions.specs.PerPartition.{at};
    ghost use Rattle.store.specs.Kept.{empty};
    ghost use Rattle.texts.specs.Bytes.{said};
    ghost use Rattle.std.specs.FinMap.{len};
    ghost use Rattle.std.specs.Option.{option_copied};
    ghost use Rattle.limits.specs.declared.TheConstants.{INSTRUMENTS, ORDERS, TRADES};
    ghost use Rattle.venue.specs.Acts.{Open, Alter, Note, Void};
    ghost use Rattle.venue.specs.Books.{Roomy, Sound, fresh};
    ghost use Rattle.venue.specs.Enacting.{Enacts, Silent, Stepped};
    ghost use Rattle.venue.specs.Telling.{Told};
    ghost use Rattle.changes.specs.declared.change.Change.TheVariants.{Replace, Withdraw};
    ghost use Rattle.texts.specs.declared.values.Time.{Time as Moment};

    /// A venue of a new day, over a matcher and a store that hold nothing; where memory is short they are given back.
    pub fn new(
        alloc: Global,
        instruments: Vec<Instrument>,
        matcher: M,
        store: S,
    ) -> Result<Venue<M, S>, (M, S)>
        requires listed { length instruments.items ≤ INSTRUMENTS }
        requires nothing_open { len (M.meaning matcher).orders ≡ 0 }
        requires nothing_kept { S.kept store ≡ empty }
        ensures { MatchResult result
            (λ d. d ≡ record { state = fresh instruments.items (M.meaning matcher); engine = matcher; free = S.free store })
            (λ back. back ≡ (matcher, store)) }
    {
        let Ok(table) = Table::new(alloc) else {
            return Err((matcher, store));
        };
        let Ok(trades) = Trades::new(alloc) else {
            return Err((matcher, store));
        };
        let ledger = Ledger {
            instruments,
            table,
            store,
        };
        Ok(Venue {
            ledger,
            trades,
            matcher,
        })
    }

    /// Opens an order under the next number: it enters the matcher, and is reported to its owner.
    pub fn open(&mut self, terms: Terms, ask: Ask, time: Time)
        requires orderable { orderable ask.quantity ≡ true }
        requires placed { terms.instrument < length self.old.state.instruments }
        requires room { length self.old.state.rows < ORDERS }
        requires matcher_room { len self.old.state.market.orders < self.old.state.market.capacity }
        requires spare { open_count self.old.state.rows + 2 ≤ self.old.free }
        ensures { Enacts M.Did time (Open terms ask ∷ []) self.old self.new }
    {
        let number = self.ledger.table.len() + 1;
        enter(&mut self.matcher, number, ticket_of(&terms, &ask));
        self.ledger.open(terms, ask, time);
    }

    /// Withdraws what is open of an order from the matcher, and tells its owner under a client order id.
    pub fn withdraw(&mut self, order: Order, ending: Ending, client: FixedText<20>, time: Time)
        requires there { under self.old.state.rows order.number ≡ Some order }
        requires unfinished { 0 < order.leaves }
        ensures { Enacts M.Did time (Alter order.number (Withdraw ending client) ∷ []) self.old self.new }
    {
        take_out(&mut self.matcher, order.row().number);
        self.ledger
            .change(order, &Change::Withdraw(ending, client), time);
    }

    /// Replaces an open order's quantity, price and client order id by a request's; where nothing is left open of it, it
    /// leaves the matcher.
    pub fn replace(&mut self, order: Order, ask: Ask, time: Time)
        requires there { under self.old.state.rows order.number ≡ Some order }
        requires allowed { is_none (replace_fault ask.quantity order) ≡ true }
        requires spare { open_count self.old.state.rows + 1 ≤ self.old.free }
        ensures { Enacts M.Did time (Alter order.number (Replace ask) ∷ []) self.old self.new }
    {
        let number = order.row().number;
        let quantity = order.left_open(ask.quantity);
        set_to(&mut self.matcher, number, quantity, ask.price);
        self.ledger.change(order, &Change::Replace(ask), time);
    }

    /// Appends a report that is of no order.
    pub fn note(&mut self, partition: Partition, entry: Entry)
        requires silent { Silent entry.report }
        requires spare { open_count self.old.state.rows + 1 ≤ self.old.free }
        ensures { (t : Moment) → Enacts M.Did t (Note partition entry ∷ []) self.old self.new }
    {
        self.ledger.note(partition, entry);
    }

    /// Takes the matcher's next event. Of a trade the order that was at rest is told first.
    pub fn step(&mut self, time: Time) -> Step
        requires room { length self.old.state.trades < TRADES }
        requires spare { open_count self.old.state.rows + 2 ≤ self.old.free }
        ensures { Stepped M.Did time self.old result self.new }
    {
        match self.matcher.next_event() {
            Event::Nothing => Step::Nothing,
            Event::Expired(number) => {
                self.ledger.expire(number, time);
                Step::Expired(number)
            }
            Event::Trade {
                passive,
                aggressive,
                quantity,
                price,
            } => {
                let deal = Deal::next(&self.trades, quantity, price);
                let trade = self.ledger.trade(deal, passive, aggressive, time);
                let _ = self.trades.add(trade);
                deal.step(passive, aggressive)
            }
        }
    }

    /// Cancels a trade: its fills are undone and told, the passive order's first.
    pub fn undo(&mut self, number: u64, time: Time)
        requires stands { void_fault (under self.old.state.trades number) ≡ None }
        requires spare { open_count self.old.state.rows + 4 ≤ self.old.free }
        ensures { Enacts M.Did time (Void number ∷ []) self.old self.new }
    {
        let trade = self.trades.cancel(number).unwrap();
        self.ledger.undo(trade, time);
    }

    /// Tells the matcher an instrument's midpoint price, or that it has none; the books stay. Refused as the matcher refuses
    /// it: with 20, 21 or 22.
    pub fn midpoint(
        &mut self,
        instrument: usize,
        price: Option<Price>,
    ) -> Result<(), MidpointRefusal>
        ensures { Told M.guided M.Learns instrument price result self.old self.new }
    {
        self.matcher.midpoint(instrument, price)
    }

    /// What holds of every venue, for callers: they see the value alone.
    pub fn sound(&self)
        ensures sound { Sound self.now.state }
        ensures roomy { Roomy self.now.state self.now.free }
        ensures few { length self.now.state.rows ≤ ORDERS }
    {
        let _ = self.ledger.table.len();
    }

    /// How many places are free beyond those of the open orders' ends.
    pub fn spare(&self) -> usize
        ensures { result + open_count self.now.state.rows ≡ self.now.free }
    {
        self.ledger.store.places() - self.ledger.table.open_count()
    }

    /// How many orders there are: the highest number.
    pub fn order_count(&self) -> u64
        ensures { result ≡ length self.now.state.rows }
    {
        self.ledger.table.len()
    }

    /// Whether there are 256 orders.
    pub fn is_full(&self) -> bool
        ensures { result ≡ is_full self.now.state.rows }
    {
        self.ledger.table.is_full()
    }

    /// The row of a number, if there is one, to look at.
    pub fn row(&self, number: u64) -> Option<&Row>
        ensures { option_copied result ≡ under self.now.state.rows number }
    {
        self.ledger.table.row(number)
    }

    /// The order of a number, if there is one.
    pub fn order(&self, number: u64) -> Option<Order>
        ensures { result ≡ under self.now.state.rows number }
    {
        self.ledger.table.order(number)
    }

    /// The order of a number, if it is the owner's.
    pub fn own(&self, owner: usize, number: u64) -> Option<Order>
        ensures { result ≡ owned owner (under self.now.state.rows number) }
    {
        self.ledger.table.own(owner, number)
    }

    /// The owner's highest-numbered order whose current client order id this is, if he has one.
    pub fn named(&self, owner: usize, client: FixedText<20>) -> Option<Order>
        ensures { result ≡ latest owner (said client.bytes) self.now.state.rows }
    {
        self.ledger.table.named(owner, client)
    }

    /// How many trades there are: the highest number.
    pub fn trade_count(&self) -> u64
        ensures { result ≡ length self.now.state.trades }
    {
        self.trades.len()
    }

    /// The trade of a number, if there is one.
    pub fn trade(&self, number: u64) -> Option<Trade>
        ensures { result ≡ under self.now.state.trades number }
    {
        self.trades.trade(number)
    }

    /// The last number of a partition; 0 where it has no report.
    pub fn last(&self, partition: Partition) -> u32
        ensures { result ≡ length (at self.now.state.kept partition) }
    {
        self.ledger.store.last(partition)
    }

    /// The instruments, in the order in which they were given.
    pub fn instruments(&self) -> &[Instrument]
        ensures { result.now ≡ self.now.state.instruments }
    {
        &self.ledger.instruments
    }

    /// The store, to read its reports.
    pub fn store(&self) -> &S
        ensures kept { S.kept result.now ≡ self.now.state.kept }
        ensures free { S.free result.now ≡ self.now.free }
    {
        &self.ledger.store
    }

    /// The matcher, to see what it holds.
    pub fn matcher(&self) -> &M
        ensures matcher { result.now ≡ self.now.engine }
        ensures market { M.meaning result.now ≡ self.now.state.market }
    {
        &self.matcher
    }
}
