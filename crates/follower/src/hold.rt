// What a partition that is behind holds: thirty-two slots of its own, and a queue that lies in them.
ghost use Rattle.std.specs.Prelude.{◌≡◌, [], ◌∷◌, ◌++◌, length, is_ok, if◌then◌else◌, nat_lt};
ghost use Rattle.follower.specs.declared.hold.TheConstants.{HOLD};

use crate::folding::fold_all;
use crate::heard::NumberedReport;
use crate::number::Number;
use codes::session::Partition;
use queue::{Marks, Queue};
use reports::standings::{FoldRefusal, Standings};
use std::marker::Model;

/// How many reports a partition holds.
pub const HOLD: usize = 32;

/// The reports that came live while a partition was behind: in a contract the list of them, the first to come in
/// front.
#[derive(Drop)]
pub struct Hold {
    slots: [NumberedReport; HOLD],
    marks: Marks,
}

impl Model for Hold {
    ghost use Rattle.std.specs.Prelude.{◌≡◌, List, length};
    ghost use Rattle.queue.specs.Ring.{ring};
    ghost use Rattle.follower.specs.declared.heard.NumberedReport.{NumberedReport};

    ghost Value = { List NumberedReport };

    ghost view = { λ h. ring h.slots h.marks.head h.marks.len };

    ghost invariant = { λ h. h.marks.len ≡ length (ring h.slots h.marks.head h.marks.len) };
}

impl Hold {
    ghost use Rattle.reports.specs.Known.{known};
    ghost use Rattle.follower.specs.Folding.{reached, caught_up, FoldsTo};

    /// A hold with nothing in it.
    pub fn new() -> Hold
        ensures { result ≡ [] }
    {
        let nothing = NumberedReport {
            sequence: 0,
            told: None,
        };
        Hold {
            slots: [nothing; HOLD],
            marks: Marks { head: 0, len: 0 },
        }
    }

    /// How many reports are held.
    pub fn len(&self) -> usize
        ensures { result ≡ length self.now }
    {
        self.marks.len
    }

    /// Holds one report more, behind the others; where there is no room nothing changes.
    pub(crate) fn push(&mut self, report: NumberedReport) -> Result<(), NumberedReport>
        ensures test { is_ok result ≡ nat_lt (length self.old) HOLD }
        ensures after { self.new ≡ (if is_ok result then self.old ++ report ∷ [] else self.old) }
    {
        let mut queue = Queue::resume(&mut self.slots, self.marks);
        let out = queue.push(report);
        self.marks = queue.marks();
        out
    }

    // Folds the reports that are held, the first to come first, and says the place that is reached; they stay held.
    pub(crate) fn fold_into(
        &mut self,
        standings: &mut Standings,
        partition: Partition,
        place: Number,
    ) -> Result<Number, FoldRefusal>
        ensures same { self.new ≡ self.old }
        ensures folds { FoldsTo
            (caught_up partition (reached (known standings.old) place) self.old)
            result (known standings.new) }
    {
        let queue = Queue::resume(&mut self.slots, self.marks);
        let reached = fold_all(standings, partition, place, &queue);
        self.marks = queue.marks();
        reached
    }
}
