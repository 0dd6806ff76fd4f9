// What can be traded.
ghost use Rattle.std.specs.Prelude.{◌≡◌, true};
ghost use Rattle.texts.specs.Bytes.{said, named};

use crate::config::StartRefusal;
use crate::naming::Named;
use codes::code::Code;
use codes::session::Partition;
use texts::names::{Segment, Symbol};

/// An instrument, with the partition of its reports. Its symbol is not empty; a segment may be.
#[derive(Clone, Copy)]
pub struct Instrument {
    pub symbol: Symbol,
    pub segment: Segment,
    pub partition: Partition,
    ghost called: { named symbol.bytes ≡ true },
}

impl Named for Instrument {
    ghost name_of = { λ i. said i.symbol.bytes };

    fn has_name_of(&self, other: &Instrument) -> bool {
        self.symbol.says_same(&other.symbol)
    }
}

impl Instrument {
    ghost use Rattle.configuration.specs.Configs.{Lists};

    /// Refused where a text does not fit its field or is not printable, the symbol is empty, or the partition is not 1
    /// to 3.
    #[tactic(auto, using(crate::proofs::Names::name_given))]
    pub fn new(symbol: &[u8], segment: &[u8], partition: u8) -> Result<Instrument, StartRefusal>
        ensures { Lists symbol.now segment.now partition result }
    {
        if symbol.is_empty() {
            return Err(StartRefusal::BadConfiguration);
        }
        let symbol = Symbol::new(symbol).ok_or(StartRefusal::BadConfiguration)?;
        let segment = Segment::new(segment).ok_or(StartRefusal::BadConfiguration)?;
        let partition = <Partition as Code>::of(partition).ok_or(StartRefusal::BadConfiguration)?;
        Ok(Instrument {
            symbol,
            segment,
            partition,
        })
    }
}
