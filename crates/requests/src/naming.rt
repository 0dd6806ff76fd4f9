// The order that a request names.
ghost use Rattle.std.specs.Prelude.{◌≡◌, ◌<◌, Some, IfOk};
ghost use Rattle.keyed.specs.Numbers.{under};
ghost use Rattle.requests.specs.Naming.{found, agrees, named};

use codes::code::Code;
use codes::order::{Book, Side};
use matching::matcher::Matcher;
use orders::order::Order;
use orders::row::Row;
use refusals::Refusal;
use store::Store;
use texts::fixed::FixedText;
use texts::identifiers::OrderId;
use venue::venue::Venue;

/// How a request names an order of a line's CompID: by its Order ID, else by its current client order id; instrument,
/// side and book have to agree.
#[derive(Clone, Copy)]
pub struct Naming {
    pub line: usize,
    pub order: Option<OrderId>,
    pub original: FixedText<20>,
    /// The instrument's place.
    pub place: usize,
    pub side: Side,
    pub book: Book,
}

impl Naming {
    fn found<M: Matcher, S: Store>(&self, venue: &Venue<M, S>) -> Option<Order>
        ensures { result ≡ found self.now.line self.now.order self.now.original venue.now.state.rows }
    {
        match self.order {
            Some(id) => venue.own(self.line, id.number),
            None => venue.named(self.line, self.original),
        }
    }

    fn agrees(&self, row: &Row) -> bool
        ensures { result ≡ agrees self.now row.now }
    {
        row.terms.instrument == self.place
            && row.terms.side.byte() == self.side.byte()
            && row.terms.book.byte() == self.book.byte()
    }

    /// The order that is named, if it is there, agrees and is open.
    #[tactic(auto, using(crate::proofs::Found::named_there))]
    pub fn order<M: Matcher, S: Store>(&self, venue: &Venue<M, S>) -> Result<Order, Refusal>
        ensures value { result ≡ named self.now venue.now.state.rows }
        ensures there { IfOk result (λ r. under venue.now.state.rows r.number ≡ Some r) }
        ensures unfinished { IfOk result (λ r. 0 < r.leaves) }
    {
        venue.sound();
        let order = self.found(venue).ok_or(Refusal::NoSuchOrder)?;
        let row = order.row();
        if !self.agrees(&row) {
            return Err(Refusal::NoSuchOrder);
        }
        if !row.is_open() {
            return Err(Refusal::NotOpen);
        }
        Ok(order)
    }
}
