// Why a script cannot be drilled.
ghost use Rattle.std.specs.Prelude.{Some};
ghost use Rattle.bench_words.specs.Mistakes.{mistake_text};

use crate::misread::Misread;
use std::fmt;

/// What is wrong with a script; lines are numbered from 1.
#[derive(Clone, Copy, Debug, PartialEq)]
pub enum Mistake {
    /// A line that is not understood.
    Line(usize, Misread),
    /// A line that starts the gateway, which is refused by the check of this number.
    Refused(usize, u8),
    NotStarted,
    NotFollowed,
    /// The line that is followed is no CompID's.
    Nobody,
    NoCall,
}

impl fmt::Display for Mistake {
    ghost output = { λ mistake. Some (mistake_text mistake) };

    fn fmt<W: fmt::Write>(&self, f: &mut fmt::Formatter<W>) -> fmt::Result {
        match *self {
            Mistake::Line(line, why) => write!(f, "line {line}: {why}"),
            Mistake::Refused(line, check) => write!(
                f,
                "line {line}: the gateway does not start: refused {check}"
            ),
            Mistake::NotStarted => f.write_str("no line of the script is 'start'"),
            Mistake::NotFollowed => {
                f.write_str(
                    "no line of the script is 'follow LINE', which says whose desk is drilled",
                )
            }
            Mistake::Nobody => f.write_str("the line that is followed is no CompID's"),
            Mistake::NoCall => f.write_str("the script makes no call behind 'start'"),
        }
    }
}
