// What a table keeps of its rows, so that no call has to go over them.
ghost use Rattle.std.specs.Prelude.{◌≡◌, ◌≤◌, []};
ghost use Rattle.orders.specs.Sums.{opens, sums, with_row};

use crate::row::Row;
use limits::ORDERS;

/// Sums over the rows of a table.
#[derive(Clone, Copy)]
pub(crate) struct Sums {
    /// How many orders have shares open.
    pub(crate) open_orders: usize,
}

impl Sums {
    /// Those of no row.
    pub(crate) fn none() -> Sums
        ensures { result ≡ sums [] }
    {
        Sums { open_orders: 0 }
    }

    /// The sums with one row more.
    pub(crate) fn with(self, row: &Row) -> Sums
        requires { self.open_orders ≤ ORDERS }
        ensures { result ≡ with_row row.now self }
    {
        Sums {
            open_orders: self.open_orders + usize::from(row.is_open()),
        }
    }

    /// The sums without a row of those that they are over.
    pub(crate) fn without(self, row: &Row) -> Sums
        requires { opens row.now ≤ self.open_orders }
        ensures { with_row row.now result ≡ self }
    {
        Sums {
            open_orders: self.open_orders - usize::from(row.is_open()),
        }
    }
}
