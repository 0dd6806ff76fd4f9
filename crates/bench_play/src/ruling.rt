// What the line that is followed says to a day.
ghost use Rattle.std.specs.Prelude.{◌≡◌, IfOk, Ok, Some};
ghost use Rattle.bench_play.specs.Rulings.{ruling_of, ruling_text};
ghost use Rattle.bench_play.specs.Days.{desk_of, log_of, state_of};
ghost use Rattle.both_ends.specs.Agreement.{Agrees};
ghost use Rattle.both_ends.specs.Allowed.{after_log, quiet};
ghost use Rattle.both_ends.specs.Asking.{made};
ghost use Rattle.both_ends.specs.Deciding.{verdict};

use crate::day::Day;
use both_ends::allowed::Breach;
use std::alloc::AllocError;
use std::fmt;

/// Whether a line allows a day; if not, what was the first that it does not allow.
#[derive(Clone, Copy, Debug, PartialEq)]
pub enum Ruling {
    Allows,
    Forbids(Breach),
}

impl Ruling {
    /// By what was decided of the log.
    pub fn of(outcome: Result<(), Breach>) -> Ruling
        ensures { result ≡ ruling_of outcome }
    {
        match outcome {
            Ok(()) => Ruling::Allows,
            Err(breach) => Ruling::Forbids(breach),
        }
    }

    /// Of a line to what was called on both ends. Where it allows that, both ends agree. Its one error is want of memory.
    pub fn of_day(day: &Day, line: usize) -> Result<Ruling, AllocError>
        ensures ruled { IfOk result (λ r. r ≡ ruling_of (verdict (after_log line (made (log_of day.now)) quiet))) }
        ensures agreed { result ≡ Ok Ruling.Allows
            → Agrees line (made (log_of day.now)) (state_of day.now) (desk_of day.now) }
    {
        Ok(Ruling::of(day.verdict(line)?))
    }
}

impl fmt::Display for Ruling {
    ghost output = { λ ruling. Some (ruling_text ruling) };

    fn fmt<W: fmt::Write>(&self, f: &mut fmt::Formatter<W>) -> fmt::Result {
        match *self {
            Ruling::Allows => f.write_str(
                "the line allows this day: no report was lost unnoticed, and none was counted twice",
            ),
            Ruling::Forbids(breach) => write!(
                f,
                "the line does not allow this day: {}",
                breach.text()
            ),
        }
    }
}
