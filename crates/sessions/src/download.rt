// A download of the reports that a line missed.
ghost use Rattle.std.specs.Prelude.{◌≡◌};
ghost use Rattle.partitions.specs.PerPartition.{at};
ghost use Rattle.sessions.specs.Downloads.{begun, remaining, handed_out};

use codes::session::{Partition, ReportResponse};
use limits::DOWNLOADED;
use store::Store;

/// A download that runs: of a partition's reports, those above the last that was handed out, up to a target.
#[derive(Clone, Copy)]
pub struct Download {
    pub partition: Partition,
    pub last: u32,
    pub target: u32,
    pub handed: u8,
}

/// What a download hands out: a report by its number, or the end with its response.
#[derive(Clone, Copy)]
pub enum HandedOut {
    Report(Partition, u32),
    Ended(ReportResponse),
}

impl Download {
    /// A download of the reports above a number, up to a target.
    pub fn new(partition: Partition, above: u32, target: u32) -> Download
        ensures { result ≡ begun partition above target }
    {
        Download {
            partition,
            last: above,
            target,
            handed: 0,
        }
    }

    // The owner's next report, where one remains.
    fn remaining<S: Store>(self, owner: usize, store: &S) -> Option<u32>
        ensures { result ≡ remaining (at (S.kept store.now) self.partition) owner self }
    {
        store
            .next(self.partition, owner, self.last)
            .filter(|number| *number <= self.target)
    }

    /// What is handed out next, and the download if it goes on.
    pub fn next<S: Store>(self, owner: usize, store: &S) -> (HandedOut, Option<Download>)
        ensures { result ≡ handed_out self (remaining (at (S.kept store.now) self.partition) owner self) }
    {
        match self.remaining(owner, store) {
            None => (HandedOut::Ended(ReportResponse::Complete), None),
            Some(_) if self.handed >= DOWNLOADED => {
                (HandedOut::Ended(ReportResponse::MessageLimit), None)
            }
            Some(number) => {
                let rest = Download {
                    last: number,
                    handed: self.handed + 1,
                    ..self
                };
                (HandedOut::Report(self.partition, number), Some(rest))
            }
        }
    }
}
