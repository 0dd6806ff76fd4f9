// What a venue asks of its matcher, where the matcher is sure to do it.
ghost use Rattle.std.specs.Prelude.{◌≡◌, ◌<◌, true, None, is_some, nat_lt, if◌then◌else◌};
ghost use Rattle.std.specs.FinMap.{get, len};
ghost use Rattle.limits.specs.declared.TheConstants.{INSTRUMENTS};
ghost use Rattle.matching.specs.Meaning.{closed, held_of, opened, resized};
ghost use Rattle.matching.specs.Asked.{Enter, Cancel, Amend};
ghost use Rattle.venue.specs.Asking.{set_to, ticket_of};

use matching::matcher::{Matcher, Ticket};
use orders::row::{Ask, Terms};
use terms::pricing::Pricing;
use texts::values::Price;

// What an order asks of the matcher.
pub(crate) fn ticket_of(terms: &Terms, ask: &Ask) -> Ticket
    requires { terms.now.instrument < INSTRUMENTS }
    ensures { result ≡ ticket_of terms.now ask.now }
{
    Ticket {
        instrument: terms.instrument as u8,
        side: terms.side,
        pricing: Pricing::new(terms.kind, ask.price),
        lifetime: terms.lifetime,
        quantity: ask.quantity,
        book: terms.book,
    }
}

// Opens an order under a number that has none, where there is room.
pub(crate) fn enter<M: Matcher>(matcher: &mut M, number: u64, terms: Ticket)
    requires free { get (M.meaning matcher.old).orders number ≡ None }
    requires some { 0 < terms.quantity }
    requires room { len (M.meaning matcher.old).orders < (M.meaning matcher.old).capacity }
    ensures after { M.meaning matcher.new ≡ opened (M.meaning matcher.old) number (held_of terms) }
    ensures did { M.Did matcher.old (Enter number terms) matcher.new }
{
    let _ = matcher.enter(number, terms);
}

// Ends an open order.
pub(crate) fn take_out<M: Matcher>(matcher: &mut M, number: u64)
    requires { is_some (get (M.meaning matcher.old).orders number) ≡ true }
    ensures after { M.meaning matcher.new ≡ closed (M.meaning matcher.old) number }
    ensures did { M.Did matcher.old (Cancel number) matcher.new }
{
    let _ = matcher.cancel(number);
}

// Sets the open quantity and the price of an open order.
fn resize<M: Matcher>(matcher: &mut M, number: u64, quantity: u32, price: Price)
    requires opened { is_some (get (M.meaning matcher.old).orders number) ≡ true }
    requires some { 0 < quantity }
    ensures after { M.meaning matcher.new ≡ resized (M.meaning matcher.old) number quantity }
    ensures did { M.Did matcher.old (Amend number quantity price) matcher.new }
{
    let _ = matcher.amend(number, quantity, price);
}

// Sets the open quantity and the price of an open order, or ends it where nothing is to be open.
pub(crate) fn set_to<M: Matcher>(matcher: &mut M, number: u64, quantity: u32, price: Price)
    requires { is_some (get (M.meaning matcher.old).orders number) ≡ true }
    ensures after { M.meaning matcher.new ≡ (if nat_lt 0 quantity then resized (M.meaning matcher.old) number quantity
        else closed (M.meaning matcher.old) number) }
    ensures did { M.Did matcher.old (set_to number quantity price) matcher.new }
{
    if quantity > 0 {
        resize(matcher, number, quantity, price);
    } else {
        take_out(matcher, number);
    }
}
