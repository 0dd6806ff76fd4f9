// Trades, told to the owners of the orders.
ghost use Rattle.std.specs.Prelude.{◌≡◌, ◌+◌, ◌≤◌, Some, length};
ghost use Rattle.venue.specs.declared.step.Step.TheVariants.{Traded};
ghost use Rattle.venue.specs.Ledger.{Recorded, Uses, ledger};
ghost use Rattle.venue.specs.Trading.{SideAllows, SideExecuted, both_undone, passive_undone, side_undone, passive_filled, both_filled, filling, side_filled, side_told, trade_of};
ghost use Rattle.codes.specs.Session.{partition_code};
ghost use Rattle.codes.specs.declared.report.Liquidity.TheVariants.{Added, Removed};

use crate::ledger::Ledger;
use crate::step::Step;
use changes::change::{Change, Fill, Undone};
use codes::report::Liquidity;
use codes::session::Partition;
use orders::trade::{Leg, Trade, Trades};
use store::Store;
use texts::identifiers::ExecutionId;
use texts::values::{Price, Time};

/// A trade, before it is told.
#[derive(Clone, Copy)]
pub struct Deal {
    pub number: u64,
    /// In shares.
    pub quantity: u32,
    pub price: Price,
}

impl Deal {
    // A deal under the number of the next trade.
    pub(crate) fn next(trades: &Trades, quantity: u32, price: Price) -> Deal
        ensures { result ≡ record { number = length trades.now + 1; quantity = quantity; price = price } }
    {
        let number = trades.len() + 1;
        Deal {
            number,
            quantity,
            price,
        }
    }

    // What a caller is told of it.
    pub(crate) fn step(&self, passive: Option<u64>, aggressive: Option<u64>) -> Step
        ensures { result ≡ Traded self.now.number passive aggressive self.now.quantity self.now.price }
    {
        Step::Traded {
            number: self.number,
            passive,
            aggressive,
            quantity: self.quantity,
            price: self.price,
        }
    }

    fn fill(&self, liquidity: Liquidity) -> Fill
        ensures { result ≡ filling self.now liquidity }
    {
        Fill {
            quantity: self.quantity,
            price: self.price,
            trade: self.number,
            liquidity,
        }
    }
}

fn partition_number(partition: Partition) -> u8
    ensures { result ≡ partition_code partition }
{
    partition as u8
}

impl<S: Store> Ledger<S> {
    // Fills one side of a trade, where it is named.
    fn fill_side(&mut self, side: Option<u64>, fill: Fill, time: Time) -> Option<Leg>
        requires recorded { Recorded self.old.instruments.items self.old.table (S.kept self.old.store) }
        requires allowed { SideAllows fill side self.old.table }
        requires place { 1 ≤ S.free self.old.store }
        ensures side { result ≡ side_told self.old.instruments.items side (ledger self.old.table (S.kept self.old.store)) }
        ensures after { ledger self.new.table (S.kept self.new.store)
            ≡ side_filled self.old.instruments.items time fill side (ledger self.old.table (S.kept self.old.store)) }
        ensures same { self.new.instruments ≡ self.old.instruments }
        ensures free { Uses 1 (S.free self.old.store) (S.free self.new.store) }
    {
        let number = side?;
        let order = self.order(number);
        let report = self.change(order, &Change::Fill(fill), time);
        Some(Leg {
            order: number,
            report,
        })
    }

    // Fills both sides of a trade.
    pub(crate) fn trade(
        &mut self,
        deal: Deal,
        passive: Option<u64>,
        aggressive: Option<u64>,
        time: Time,
    ) -> Trade
        requires recorded { Recorded self.old.instruments.items self.old.table (S.kept self.old.store) }
        requires first { SideAllows (filling deal Added) passive self.old.table }
        requires between { let l = passive_filled self.old.instruments.items time deal passive
            (ledger self.old.table (S.kept self.old.store)) in Recorded self.old.instruments.items l.rows l.kept }
        requires second { SideAllows (filling deal Removed) aggressive
            (passive_filled self.old.instruments.items time deal passive
            (ledger self.old.table (S.kept self.old.store))).rows }
        requires places { 2 ≤ S.free self.old.store }
        ensures trade { result ≡ trade_of self.old.instruments.items time deal passive aggressive
            (ledger self.old.table (S.kept self.old.store)) }
        ensures after { ledger self.new.table (S.kept self.new.store)
            ≡ both_filled self.old.instruments.items time deal passive aggressive
            (ledger self.old.table (S.kept self.old.store)) }
        ensures same { self.new.instruments ≡ self.old.instruments }
        ensures free { Uses 2 (S.free self.old.store) (S.free self.new.store) }
    {
        let passive = self.fill_side(passive, deal.fill(Liquidity::Added), time);
        let aggressive = self.fill_side(aggressive, deal.fill(Liquidity::Removed), time);
        Trade {
            quantity: deal.quantity,
            price: deal.price,
            passive,
            aggressive,
            cancelled: false,
        }
    }

    // Undoes the fill of one side of a trade, where it is named.
    fn undo_side(&mut self, side: Option<Leg>, quantity: u32, time: Time)
        requires recorded { Recorded self.old.instruments.items self.old.table (S.kept self.old.store) }
        requires executed { SideExecuted quantity side self.old.table }
        requires places { 2 ≤ S.free self.old.store }
        ensures after { ledger self.new.table (S.kept self.new.store)
            ≡ side_undone self.old.instruments.items time quantity side (ledger self.old.table (S.kept self.old.store)) }
        ensures same { self.new.instruments ≡ self.old.instruments }
        ensures free { Uses 2 (S.free self.old.store) (S.free self.new.store) }
    {
        if let Some(side) = side {
            let order = self.order(side.order);
            let instrument = self.instruments[order.row().terms.instrument];
            let partition = partition_number(instrument.partition);
            let sequence = side.report;
            let report = ExecutionId {
                partition,
                sequence,
            };
            self.change(order, &Change::Undo(Undone { quantity, report }), time);
        }
    }

    // Undoes both fills of a trade.
    pub(crate) fn undo(&mut self, trade: Trade, time: Time)
        requires recorded { Recorded self.old.instruments.items self.old.table (S.kept self.old.store) }
        requires first { SideExecuted trade.quantity trade.passive self.old.table }
        requires between { let l = passive_undone self.old.instruments.items time trade
            (ledger self.old.table (S.kept self.old.store)) in Recorded self.old.instruments.items l.rows l.kept }
        requires second { SideExecuted trade.quantity trade.aggressive
            (passive_undone self.old.instruments.items time trade (ledger self.old.table (S.kept self.old.store))).rows }
        requires places { 4 ≤ S.free self.old.store }
        ensures after { ledger self.new.table (S.kept self.new.store)
            ≡ both_undone self.old.instruments.items time trade (ledger self.old.table (S.kept self.old.store)) }
        ensures same { self.new.instruments ≡ self.old.instruments }
        ensures free { Uses 4 (S.free self.old.store) (S.free self.new.store) }
    {
        self.undo_side(trade.passive, trade.quantity, time);
        self.undo_side(trade.aggressive, trade.quantity, time);
    }
}
