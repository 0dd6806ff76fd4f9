// A mass cancel with texts of its own, which its message lends.
ghost use Rattle.std.specs.Prelude.{◌≡◌, IfOk};
ghost use Rattle.std.specs.Result.{result_err};
ghost use Rattle.order_messages.specs.Terms.{scope_contents};
ghost use Rattle.bench_words.specs.Takes.{scope_asked, scope_said, take_said, take_wrong};

use crate::command::Scope;
use crate::fields;
use crate::misread::Misread;
use codes::order::Book;
use order_messages::order_mass_cancel_request::{OrderMassCancelRequest, Scope as MessageScope};
use texts::fixed::RequestId;
use texts::names::{Segment, Symbol};

/// What it takes, of the CompID or of its firm.
#[derive(Clone, Copy)]
pub enum Take {
    All,
    Instrument(Symbol, Book),
    Segment(Segment),
}

/// A mass cancel, by instrument of one book.
#[derive(Clone, Copy)]
pub struct MassCancel {
    client: RequestId,
    firm: bool,
    take: Take,
}

fn taken(scope: Scope<'_>) -> Result<Take, Misread>
    ensures wrong { result_err result ≡ take_wrong scope.entry }
    ensures asked { IfOk result (λ t. take_said t ≡ scope_said scope.entry) }
{
    match scope {
        Scope::All => Ok(Take::All),
        Scope::Instrument(symbol, book) => Ok(Take::Instrument(fields::symbol(symbol)?, book)),
        Scope::Segment(segment) => Ok(Take::Segment(fields::segment(segment)?)),
    }
}

fn scope_of<'a>(firm: bool, take: &'a Take) -> MessageScope<'a>
    ensures { scope_contents result ≡ scope_asked firm (take_said take.now) }
{
    match (firm, take) {
        (false, Take::All) => MessageScope::CompId,
        (true, Take::All) => MessageScope::Firm,
        (false, Take::Instrument(symbol, book)) => {
            MessageScope::CompIdInstrument(symbol.as_text(), *book)
        }
        (true, Take::Instrument(symbol, book)) => {
            MessageScope::FirmInstrument(symbol.as_text(), *book)
        }
        (false, Take::Segment(segment)) => MessageScope::CompIdSegment(segment.as_text()),
        (true, Take::Segment(segment)) => MessageScope::FirmSegment(segment.as_text()),
    }
}

impl MassCancel {
    ghost use Rattle.order_messages.specs.Requests.{order_mass_cancel_request_contents};
    ghost use Rattle.bench_words.specs.Mass.{mass_asked, mass_contents, mass_wrong};

    /// A mass cancel whose words fit, or the first that does not.
    pub fn new(client: &str, firm: bool, scope: Scope<'_>) -> Result<MassCancel, Misread>
        ensures wrong { result_err result ≡ mass_wrong client.now scope.entry }
        ensures asked { IfOk result (λ m. mass_contents m ≡ mass_asked client.now firm (scope_said scope.entry)) }
    {
        let client = fields::client(client)?;
        let take = taken(scope)?;
        Ok(MassCancel { client, firm, take })
    }

    /// The message, which lends the mass cancel's texts.
    pub fn message(&self) -> OrderMassCancelRequest<'_>
        ensures { order_mass_cancel_request_contents result ≡ mass_contents self.now }
    {
        OrderMassCancelRequest {
            client_order_id: self.client.as_name(),
            scope: scope_of(self.firm, &self.take),
        }
    }
}
