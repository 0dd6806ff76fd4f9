// Words that have to fit a field of a message.
ghost use Rattle.std.specs.Prelude.{◌≡◌, IfOk};
ghost use Rattle.std.specs.Result.{result_err};
ghost use Rattle.texts.specs.Bytes.{said};
ghost use Rattle.bench_words.specs.Fitting.{client_wrong, original_wrong, segment_wrong, symbol_wrong};

use crate::misread::Misread;
use texts::fixed::RequestId;
use texts::names::{ClientOrderId, Segment, Symbol};

pub(crate) fn symbol(word: &str) -> Result<Symbol, Misread>
    ensures wrong { result_err result ≡ symbol_wrong word.now }
    ensures says { IfOk result (λ t. said t.bytes ≡ word.now) }
{
    match Symbol::new(word.as_bytes()) {
        Some(symbol) => Ok(symbol),
        None => Err(Misread::Symbol),
    }
}

pub(crate) fn segment(word: &str) -> Result<Segment, Misread>
    ensures wrong { result_err result ≡ segment_wrong word.now }
    ensures says { IfOk result (λ t. said t.bytes ≡ word.now) }
{
    match Segment::new(word.as_bytes()) {
        Some(segment) => Ok(segment),
        None => Err(Misread::Segment),
    }
}

/// The Client Order ID of a request, which is not empty.
pub(crate) fn client(word: &str) -> Result<RequestId, Misread>
    ensures wrong { result_err result ≡ client_wrong word.now }
    ensures says { IfOk result (λ t. said t.id.bytes ≡ word.now) }
{
    match RequestId::new(word.as_bytes()) {
        Some(id) => Ok(id),
        None => Err(Misread::ClientId),
    }
}

/// The Client Order ID that an order goes by.
pub(crate) fn original(word: &str) -> Result<ClientOrderId, Misread>
    ensures wrong { result_err result ≡ original_wrong word.now }
    ensures says { IfOk result (λ t. said t.bytes ≡ word.now) }
{
    match ClientOrderId::new(word.as_bytes()) {
        Some(id) => Ok(id),
        None => Err(Misread::ClientId),
    }
}
