// An order whose figures agree, its five changes and its status.
ghost use Rattle.std.specs.Prelude.{◌≡◌, ◌+◌, ◌≤◌, true, IfSome, IfOk};
ghost use Rattle.orders.specs.Rows.{balanced, untouched, orderly, orderable, is_open, accepted, in_force, left_open, replaced, ended, filled, undone, status_of};
ghost use Rattle.orders.specs.declared.row.Row.{Row as Figures};

use crate::row::{Ask, Ending, Row, Terms};
use codes::report::Status;
use limits::SHARES;
use refusals::Refusal;
use std::marker::Model;

/// A row whose figures agree: in a contract it is that row.
#[derive(Clone, Copy)]
pub struct Order {
    row: Row,
}

impl Model for Order {
    ghost Value = { Figures };

    ghost view = { λ o. o.row };

    ghost invariant = { λ o. orderly o.row ≡ true };

    ghost inverse = { λ r. record { row = r } };
}

/// Whether so many shares can be ordered: 1 to 1,000,000,000.
pub fn is_orderable(quantity: u32) -> bool
    ensures { result ≡ orderable quantity }
{
    quantity > 0 && quantity <= SHARES
}

// The quantity that a replacement puts in force: what is asked for, and no less than what is executed.
fn in_force(executed: u32, asked: u32) -> u32
    ensures { result ≡ in_force executed asked }
{
    executed.max(asked)
}

impl Row {
    fn is_balanced(&self) -> bool
        ensures { result ≡ balanced self.now }
    {
        u64::from(self.ordered)
            == u64::from(self.executed) + u64::from(self.leaves) + u64::from(self.withdrawn)
    }

    fn is_untouched(&self) -> bool
        ensures { result ≡ untouched self.now }
    {
        self.leaves == 0 || self.withdrawn == 0 && self.ending.is_none()
    }
}

impl Order {
    ghost use Rattle.orders.specs.Orders.{Makes, fillable, undoable, replace_fault, Replaces};

    /// The order that a row holds, if the row's figures agree.
    pub(crate) fn from_row(row: Row) -> Option<Order>
        ensures { Makes (orderly row) row result }
    {
        if !row.is_balanced() || row.ordered > SHARES || !row.is_untouched() {
            return None;
        }
        Some(Order { row })
    }

    /// The row that holds this order.
    pub fn row(self) -> Row
        ensures is { result ≡ self }
        ensures orderly { orderly result ≡ true }
    {
        self.row
    }

    /// A new order, all of it open; none where the quantity is not 1 to 1,000,000,000.
    pub fn accept(number: u64, terms: Terms, ask: Ask) -> Option<Order>
        ensures { Makes (orderable ask.quantity) (accepted number terms ask) result }
    {
        if !is_orderable(ask.quantity) {
            return None;
        }
        let row = Row {
            number,
            terms,
            client: ask.client,
            price: ask.price,
            display: ask.display,
            ending: None,
            ordered: ask.quantity,
            executed: 0,
            leaves: ask.quantity,
            withdrawn: 0,
        };
        Some(Order { row })
    }

    /// How many shares a replacement would leave open: none where no more are asked for than are executed.
    pub fn left_open(self, asked: u32) -> u32
        ensures { result ≡ left_open self.executed asked }
    {
        in_force(self.row.executed, asked) - self.row.executed
    }

    /// The order with another quantity, price and client order id; nothing of it is open where the quantity is not above
    /// what is executed. Refused with 26 where the order is not open, and 22 where the quantity is 0 or above
    /// 1,000,000,000, tried in this order; the order is then as it was.
    pub fn replace(self, ask: Ask) -> Result<Order, Refusal>
        ensures answer { Replaces (replace_fault ask.quantity self) (replaced ask self) result }
        ensures figures { IfOk result (λ r. (r.ordered ≡ in_force self.executed ask.quantity)
            × (r.leaves + self.executed ≡ r.ordered)
            × (r.executed ≡ self.executed)
            × (r.withdrawn ≡ 0)) }
    {
        let row = self.row;
        if !row.is_open() {
            return Err(Refusal::NotOpen);
        }
        if !is_orderable(ask.quantity) {
            return Err(Refusal::BadTerms);
        }
        let ordered = in_force(row.executed, ask.quantity);
        let row = Row {
            client: ask.client,
            price: ask.price,
            display: ask.display,
            ordered,
            leaves: ordered - row.executed,
            ..row
        };
        Ok(Order { row })
    }

    /// The order cancelled or expired, what was open withdrawn; none where nothing is open.
    pub fn withdraw(self, ending: Ending) -> Option<Order>
        ensures answer { Makes (is_open self) (ended ending self) result }
        ensures figures { IfSome result (λ r. (r.leaves ≡ 0)
            × (r.withdrawn ≡ self.leaves)
            × (r.ordered ≡ self.ordered)
            × (r.executed ≡ self.executed)) }
    {
        let row = self.row;
        if !row.is_open() {
            return None;
        }
        let row = Row {
            ending: Some(ending),
            leaves: 0,
            withdrawn: row.withdrawn + row.leaves,
            ..row
        };
        Some(Order { row })
    }

    /// The order with so many shares filled; none where it is no share or more than are open.
    pub fn fill(self, quantity: u32) -> Option<Order>
        ensures answer { Makes (fillable quantity self) (filled quantity self) result }
        ensures bound { IfSome result (λ _. quantity ≤ SHARES) }
    {
        let row = self.row;
        if quantity == 0 || quantity > row.leaves {
            return None;
        }
        let row = Row {
            executed: row.executed + quantity,
            leaves: row.leaves - quantity,
            ..row
        };
        Some(Order { row })
    }

    /// The order without so many of its fills; none where it is no share or more than are executed.
    pub fn undo(self, quantity: u32) -> Option<Order>
        ensures answer { Makes (undoable quantity self) (undone quantity self) result }
        ensures bound { IfSome result (λ _. quantity ≤ SHARES) }
        ensures figures { IfSome result (λ r. (r.leaves ≡ self.leaves)
            × (r.withdrawn ≡ self.withdrawn)
            × (r.ordered + quantity ≡ self.ordered)
            × (r.executed + quantity ≡ self.executed)) }
    {
        let row = self.row;
        if quantity == 0 || quantity > row.executed {
            return None;
        }
        let row = Row {
            ordered: row.ordered - quantity,
            executed: row.executed - quantity,
            ..row
        };
        Some(Order { row })
    }

    /// The status that reports tell.
    pub fn status(self) -> Status
        ensures { result ≡ status_of self }
    {
        let row = self.row;
        match row.ending {
            Some(Ending::Cancelled) => Status::Cancelled,
            Some(Ending::Expired) => Status::Expired,
            None if row.is_open() && row.executed > 0 => Status::PartiallyFilled,
            None if row.is_open() => Status::New,
            None if row.ordered == 0 => Status::Cancelled,
            None => Status::Filled,
        }
    }
}
