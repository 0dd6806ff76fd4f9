// The trades of a day, in memory that is reserved at the start. A trade's number is its place from 1.
ghost use Rattle.std.specs.Prelude.{◌≡◌, ◌≤◌, length, [], IfOk};
ghost use Rattle.keyed.specs.Numbers.{under};

use keyed::numbers::{index_under, item_under};
use limits::TRADES;
use std::alloc::{AllocError, Global};
use std::marker::Model;
use texts::values::Price;

/// One side of a trade: its order, and the sequence number of the report that told the fill.
#[derive(Clone, Copy, Debug, PartialEq)]
pub struct Leg {
    pub order: u64,
    pub report: u32,
}

/// A trade of so many shares; a side that the engine does not name is none.
#[derive(Clone, Copy)]
pub struct Trade {
    pub quantity: u32,
    pub price: Price,
    pub passive: Option<Leg>,
    pub aggressive: Option<Leg>,
    pub cancelled: bool,
}

/// Why a trade is not cancelled.
#[derive(Clone, Copy, Debug, PartialEq)]
pub enum TradeRefusal {
    /// There is no such trade.
    Unknown,
    /// It was cancelled before.
    DoneBefore,
}

/// The trades of a day: in a contract, the list of them.
#[derive(Drop)]
pub struct Trades {
    trades: Vec<Trade>,
}

impl Model for Trades {
    ghost use Rattle.std.specs.Prelude.{◌≤◌, List, vec_len, vec_capacity};
    ghost use Rattle.limits.specs.declared.TheConstants.{TRADES};
    ghost use Rattle.orders.specs.declared.trade.Trade.{Trade as OneTrade};

    ghost Value = { List OneTrade };

    ghost view = { λ t. t.trades.items };

    ghost invariant = { λ t. (TRADES ≤ vec_capacity t.trades) × (vec_len t.trades ≤ TRADES) };
}

impl Trades {
    ghost use Rattle.orders.specs.Trades.{Notes, Voids};

    /// No trade, and room for those of a day. Its one error is want of memory.
    pub fn new(heap: Global) -> Result<Trades, AllocError>
        ensures { IfOk result (λ t. t ≡ []) }
    {
        let trades = Vec::with_capacity(heap, TRADES)?;
        Ok(Trades { trades })
    }

    /// How many trades there are: the highest number.
    pub fn len(&self) -> u64
        ensures value { result ≡ length self.now }
        ensures bound { result ≤ TRADES }
    {
        self.trades.len() as u64
    }

    /// The trade of a number, if there is one.
    pub fn trade(&self, number: u64) -> Option<Trade>
        ensures { result ≡ under self.now number }
    {
        item_under(&self.trades, number)
    }

    /// Adds a trade, and answers its number; none, and nothing added, where there are 512.
    pub fn add(&mut self, trade: Trade) -> Option<u64>
        ensures { Notes self.old trade result self.new }
    {
        if self.trades.len() >= TRADES {
            return None;
        }
        self.trades.push_reserved(trade);
        Some(self.trades.len() as u64)
    }

    /// Marks a trade as cancelled, and answers it as it was. Refused where there is no such trade, and where it was
    /// cancelled before; then nothing changes.
    pub fn cancel(&mut self, number: u64) -> Result<Trade, TradeRefusal>
        ensures { Voids self.old number result self.new }
    {
        let index = index_under(&self.trades, number).ok_or(TradeRefusal::Unknown)?;
        let trade = self.trades[index];
        if trade.cancelled {
            return Err(TradeRefusal::DoneBefore);
        }
        self.trades[index].cancelled = true;
        Ok(trade)
    }
}
