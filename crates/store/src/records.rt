// A store that keeps its reports as records.
ghost use Rattle.std.specs.Prelude.{◌≡◌, ◌-◌, ◌≤◌, min, IfOk};
ghost use Rattle.std.proofs.Common.{rules};
ghost use Rattle.limits.specs.declared.TheConstants.{REPORTS as MOST};
ghost use Rattle.partitions.specs.Series.{total};
ghost use Rattle.store.specs.Kept.{empty};

use crate::Store;
use codes::session::Partition;
use limits::REPORTS;
use partitions::per_partition::PerPartition;
use partitions::series::{Series, total};
use report_messages::sending::write_report;
use reports::report::Entry;
use std::alloc::{AllocError, Global};

/// Each partition has room for all reports, since any of them may take all.
#[derive(Drop)]
pub struct Records {
    reports: PerPartition<Series<Entry>>,
    places: usize,
    ghost limited: { total reports ≤ places },
    ghost small: { places ≤ MOST },
}

impl Records {
    /// A store with so many places, at most 16,384. Its one error is want of memory.
    pub fn new(alloc: Global, places: usize) -> Result<Records, AllocError>
        ensures { IfOk result (λ s. (s.reports ≡ empty) × (s.places ≡ min places REPORTS)) }
    {
        let reports = Series::for_each(alloc)?;
        Ok(Records {
            reports,
            places: places.min(REPORTS),
        })
    }
}

impl Store for Records {
    ghost kept = { λ s. s.reports };

    ghost free = { λ s. s.places - total s.reports };

    ghost room = { Prim.search rules };

    fn places(&self) -> usize {
        self.places - total(&self.reports)
    }

    fn last(&self, partition: Partition) -> u32 {
        self.reports.at(partition).last()
    }

    #[tactic(auto, using(partitions::proofs::Totals::at_total, partitions::proofs::Totals::total_grown, partitions::proofs::Totals::length_grown))]
    fn append(&mut self, partition: Partition, entry: Entry) -> Option<u32> {
        if self.places() == 0 {
            return None;
        }
        self.reports.at_mut(partition).push(entry);
        Some(self.last(partition))
    }

    fn read(&self, partition: Partition, number: u32) -> Option<Entry> {
        self.reports.at(partition).item(number)
    }

    #[tactic(auto, using(crate::proofs::Fits::number_fits))]
    fn write_message(&self, partition: Partition, number: u32, out: &mut [u8]) -> usize {
        match self.read(partition, number) {
            Some(entry) => write_report(partition, number, entry.report, out),
            None => 0,
        }
    }

    fn next(&self, partition: Partition, owner: usize, above: u32) -> Option<u32> {
        self.reports.at(partition).next(owner, above)
    }
}
