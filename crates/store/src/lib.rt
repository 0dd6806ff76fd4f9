// A store of reports, by what it means: three lists of reports, each with its owner, and a number of free places.
#![tactic(auto)]

ghost use Rattle.std.specs.Prelude.{◌≡◌, ℕ, ◌+◌, ◌≤◌, length};
ghost use Rattle.keyed.specs.Numbers.{under};
ghost use Rattle.limits.specs.declared.TheConstants.{MESSAGE_BYTES, REPORTS};
ghost use Rattle.partitions.specs.PerPartition.{at};
ghost use Rattle.partitions.specs.Series.{total};
ghost use Rattle.report_messages.specs.Sent.{Sent};
ghost use Rattle.store.specs.Kept.{Kept, next_after, Appends};
ghost use Rattle.store.specs.Messages.{StoredTold, stored_bytes};

use codes::session::Partition;
use reports::report::Entry;

pub mod laws;
pub mod records;

/// A store: numbers count from 1 in each partition. Whatever a call's clause does not say changes, stays.
pub trait Store {
    ghost kept: { Self → Kept };

    ghost free: { Self → ℕ };

    /// How many more reports are sure to find a place.
    fn places(&self) -> usize
        ensures { result ≡ free self.now };

    /// The last number of a partition; 0 where it has no report.
    fn last(&self, partition: Partition) -> u32
        ensures { result ≡ length (at (kept self.now) partition) };

    /// The number of the report that was appended; none, and nothing changed, where no place is free.
    fn append(&mut self, partition: Partition, entry: Entry) -> Option<u32>
        ensures { Appends (kept self.old) (free self.old) partition entry result (kept self.new) (free self.new) };

    /// The report of a number, with its owner, if there is one: for whoever asks what a report says. To send it, take
    /// `write_message`, which need not know that.
    fn read(&self, partition: Partition, number: u32) -> Option<Entry>
        ensures { result ≡ under (at (kept self.now) partition) number };

    /// Writes the message of the report of a number to the front of a buffer, and says how many bytes it has; those past
    /// it stay. Where there is no such report, it has none.
    fn write_message(&self, partition: Partition, number: u32, out: &mut [u8]) -> usize
        requires { MESSAGE_BYTES ≤ length out.old }
        ensures sent { Sent (stored_bytes (kept self.now) partition number) out.old out.new result }
        ensures told { StoredTold (kept self.now) partition number };

    /// The lowest number above a given one whose report is the owner's, if there is one.
    fn next(&self, partition: Partition, owner: usize, above: u32) -> Option<u32>
        ensures { result ≡ next_after (at (kept self.now) partition) owner above };

    // at most so many reports in all
    ghost room: { (s : Self) → total (kept s) + free s ≤ REPORTS };
}
