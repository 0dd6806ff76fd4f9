// One side of a trade, as a person reads it.
ghost use Rattle.std.specs.Prelude.{Some};
ghost use Rattle.texts.specs.Parties.{party_text};

use std::fmt;

/// One side of a trade, by its order's number: a dash where no order is named.
#[derive(Clone, Copy)]
pub struct Party(pub Option<u64>);

impl fmt::Display for Party {
    ghost output = { λ party. Some (party_text party.0) };

    fn fmt<W: fmt::Write>(&self, f: &mut fmt::Formatter<W>) -> fmt::Result {
        match self.0 {
            Some(number) => write!(f, "{number}"),
            None => f.write_str("-"),
        }
    }
}
