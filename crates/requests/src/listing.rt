// Finding an instrument by its symbol.
ghost use Rattle.std.specs.Prelude.{◌≡◌};
ghost use Rattle.std.specs.List.{position};
ghost use Rattle.requests.specs.Instruments.{is_called, look_up};
ghost use Rattle.texts.specs.Bytes.{said};
ghost use Rattle.texts.specs.Says.{says};

use configuration::instrument::Instrument;
use texts::names::Symbol;
use texts::text::Text;

/// An instrument, with its place in the configuration.
#[derive(Clone, Copy)]
pub struct Listing {
    pub place: usize,
    pub instrument: Instrument,
}

fn is_called(instrument: &Instrument, symbol: &Symbol) -> bool
    ensures { result ≡ is_called (said symbol.now.bytes) instrument.now }
{
    instrument.symbol.says_same(symbol)
}

fn place_of(instruments: &[Instrument], symbol: &Symbol) -> Option<usize>
    ensures { result ≡ position (is_called (said symbol.now.bytes)) instruments.now }
{
    instruments
        .iter()
        .position(|instrument| is_called(instrument, symbol))
}

/// The instrument of a symbol, if there is one.
pub fn look_up(instruments: &[Instrument], symbol: &Text<'_, 6>) -> Option<Listing>
    ensures { result ≡ look_up instruments.now (says symbol.now) }
{
    let place = place_of(instruments, &symbol.keep())?;
    let instrument = instruments.get(place).copied()?;
    Some(Listing { place, instrument })
}
