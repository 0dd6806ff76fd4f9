// How a price is printed: as a decimal number, with all its eight places.
ghost use Rattle.std.specs.Prelude.{Some};
ghost use Rattle.texts.specs.Prices.{amount, four, price_text};

use crate::values::Price;
use std::fmt;

/// The last four decimal digits of a number.
#[derive(Clone, Copy)]
struct Four(u64);

impl fmt::Display for Four {
    ghost output = { λ n. Some (four n.0) };

    fn fmt<W: fmt::Write>(&self, f: &mut fmt::Formatter<W>) -> fmt::Result {
        let n = self.0;
        write!(
            f,
            "{}{}{}{}",
            n / 1000 % 10,
            n / 100 % 10,
            n / 10 % 10,
            n % 10
        )
    }
}

/// A number of hundred-millionths, with its eight decimals.
#[derive(Clone, Copy)]
struct Amount(u64);

impl fmt::Display for Amount {
    ghost output = { λ n. Some (amount n.0) };

    fn fmt<W: fmt::Write>(&self, f: &mut fmt::Formatter<W>) -> fmt::Result {
        let n = self.0;
        write!(
            f,
            "{}.{}{}",
            n / 100_000_000,
            Four(n % 100_000_000 / 10_000),
            Four(n % 10_000)
        )
    }
}

impl fmt::Display for Price {
    ghost output = { λ price. Some (price_text price.raw) };

    fn fmt<W: fmt::Write>(&self, f: &mut fmt::Formatter<W>) -> fmt::Result {
        let n = Amount(self.raw.unsigned_abs());
        if self.raw < 0 {
            write!(f, "-{n}")
        } else {
            write!(f, "{n}")
        }
    }
}
