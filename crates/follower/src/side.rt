// A partition as a follower sees it.
ghost use Rattle.std.specs.Prelude.{◌≡◌, false, length};
ghost use Rattle.reports.specs.Known.{known};
ghost use Rattle.follower.specs.Folding.{reached, caught_up, FoldsTo};
ghost use Rattle.follower.specs.Sides.{new_side, fallen, is_level, held_in, laid, laid_as, completed_state};

use crate::answer::Live;
use crate::heard::NumberedReport;
use crate::hold::Hold;
use crate::number::Number;
use codes::session::Partition;
use reports::standings::{FoldRefusal, Standings};

/// Level: a follower has each report of its own in a partition as it comes. Behind: some are still missing before what
/// comes live, which is held. Overrun: one more came when the hold was full, so nothing is held any more; what comes live
/// passes, and of all that passed the highest number is kept.
#[derive(Drop)]
pub enum State {
    Level,
    Behind(Hold),
    Overrun(Number),
}

/// Its place is the number of the last report folded, 0 at the start.
#[derive(Drop)]
pub struct Side {
    pub place: Number,
    pub state: State,
}

impl State {
    /// Whether the partition is level.
    pub fn is_level(&self) -> bool
        ensures { result ≡ is_level self.now }
    {
        match self {
            State::Level => true,
            State::Behind(_) | State::Overrun(_) => false,
        }
    }

    /// How many reports are held; none but where the partition is behind.
    pub fn held(&self) -> usize
        ensures { result ≡ length (held_in self.now) }
    {
        match self {
            State::Level | State::Overrun(_) => 0,
            State::Behind(hold) => hold.len(),
        }
    }

    // Holds a report that came live, behind the others. Where there is no room for it the hold is dropped, and the
    // report passes, as all do from then on.
    pub(crate) fn lay(&mut self, report: NumberedReport) -> Live
        requires { is_level self.old ≡ false }
        ensures answer { result ≡ laid_as self.old }
        ensures after { self.new ≡ laid self.old report }
    {
        match self {
            State::Level => unreachable!(),
            State::Behind(hold) => match hold.push(report) {
                Ok(()) => Live::Held,
                Err(_) => {
                    *self = State::Overrun(report.number());
                    Live::Passed
                }
            },
            State::Overrun(passed) => {
                *passed = passed.higher(&report.number());
                Live::Passed
            }
        }
    }
}

impl Side {
    pub(crate) fn new() -> Side
        ensures { result ≡ new_side }
    {
        Side {
            place: Number::zero(),
            state: State::Behind(Hold::new()),
        }
    }

    // Behind, with nothing held, at its place.
    pub(crate) fn fall(&mut self)
        ensures { self.new ≡ fallen self.old }
    {
        self.state = State::Behind(Hold::new());
    }

    // Behind a complete download, at its place: level, unless something that passed is above the place.
    pub(crate) fn complete(&mut self, place: Number)
        ensures { self.new ≡ record { place = place; state = completed_state self.old.state place } }
    {
        self.place = place;
        match &self.state {
            State::Overrun(passed) if !place.reaches(passed) => {}
            _ => self.state = State::Level,
        }
    }

    // Folds the reports that are held, the first to come first, and says the place that is reached; they stay held.
    pub(crate) fn fold_held(
        &mut self,
        standings: &mut Standings,
        partition: Partition,
    ) -> Result<Number, FoldRefusal>
        ensures same { self.new ≡ self.old }
        ensures folds { FoldsTo
            (caught_up partition (reached (known standings.old) self.old.place) (held_in self.old.state))
            result (known standings.new) }
    {
        match &mut self.state {
            State::Level | State::Overrun(_) => Ok(self.place),
            State::Behind(hold) => hold.fold_into(standings, partition, self.place),
        }
    }
}
