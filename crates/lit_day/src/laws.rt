// The lit book's laws, said of whatever a gateway over it was called to do.
ghost use Rattle.both_ends.specs.Asking.{made};
ghost use Rattle.both_ends.specs.Runs.{venue_log};
ghost use Rattle.lit_day.specs.Trading.{TradesFairly};

use both_ends::question::Question;
use both_ends::state::BothEnds;
use lit_book::book::LitBook;
use store::Store;

/// Whatever was called, from the start on: the book holds exactly the gateway's open orders, before each call and now. And
/// each trade that was reported is between two of the gateway's own orders, of opposite sides and one instrument, with as
/// much open and at a price within both limits, and passed over no order at rest that was better priced, or as good and
/// earlier.
pub fn trades_are_fair<S: Store, Q: Question<A>, A: Copy>(both: &BothEnds<LitBook, S, Q, A>)
    ensures { TradesFairly (venue_log (made both.now.log)) both.now.gateway }
{
    both.law();
}
