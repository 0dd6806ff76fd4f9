// Filling a store and walking it, whatever store it is.
ghost use Rattle.std.specs.Prelude.{◌≡◌, ◌+◌, ◌*◌, ◌%◌, ◌≤◌, ◌<◌, false, length, min, if◌then◌else◌};
ghost use Rattle.partitions.specs.PerPartition.{at};
ghost use Rattle.partitions.specs.Series.{total, grown};
ghost use Rattle.store_bench.specs.Counts.{turn, owners, filled, seconds_of, seconds_in, seconds_of_all, owned, owned_in, owned_below, Counts};

use crate::day::{OWNERS, entry_of, partition_of};
use codes::session::Partition;
use limits::REPORTS;
use reports::report::Report;
use store::Store;

// Appends one report of the day; false, and nothing appended, where it finds no place.
#[tactic(auto, using(crate::proofs::Counting::owners_grown, partitions::proofs::Totals::total_grown))]
fn append_one<S: Store>(store: &mut S, i: u32) -> bool
    ensures owners { let was = owners (S.Store.kept store.old) in
        owners (S.Store.kept store.new) ≡ (if result then grown was (turn (i % 3)) (i % 8) else was) }
    ensures total { total (S.Store.kept store.new) ≡ total (S.Store.kept store.old) + (if result then 1 else 0) }
    ensures refused { result ≡ false → S.Store.free store.old ≡ 0 }
    ensures places { S.Store.free store.old ≤ S.Store.free store.new + 1 }
{
    store.append(partition_of(i), entry_of(i)).is_some()
}

/// Appends the day's reports in turn, as long as they find a place, and answers how many did.
#[tactic(auto, using(crate::proofs::Counting::filled_none, crate::proofs::Counting::filled_more))]
pub fn fill<S: Store>(store: &mut S) -> usize
    ensures owners { owners (S.Store.kept store.new) ≡ filled result (owners (S.Store.kept store.old)) }
    ensures total { total (S.Store.kept store.new) ≡ total (S.Store.kept store.old) + result }
    ensures all { min (S.Store.free store.old) REPORTS ≤ result }
    ensures bound { result ≤ REPORTS }
{
    for i in 0..REPORTS {
        if !append_one(store, i as u32) {
            return i;
        }
    }
    REPORTS
}

/// What was read: how many reports, and the seconds on their clocks together, for which each is looked into.
#[derive(Clone, Copy)]
pub struct Seen {
    pub reports: usize,
    pub seconds: u64,
}

// A call of its own, so that the whole report is read before it.
#[inline(never)]
fn seconds(report: &Report) -> u32
    ensures { result ≡ seconds_of report.now }
{
    match report {
        Report::Execution(e) => e.time.seconds,
        Report::CancelReject(r) => r.time.seconds,
        Report::MassCancel(r) => r.time.seconds,
    }
}

// Reads the reports of a partition by their numbers.
#[tactic(auto, using(crate::proofs::Counting::entry_there, crate::proofs::Counting::seconds_none, crate::proofs::Counting::seconds_more))]
fn read_partition<S: Store>(store: &S, partition: Partition) -> Seen
    ensures reports { result.reports ≡ length (at (S.Store.kept store.now) partition) }
    ensures seconds { result.seconds ≡ seconds_in (at (S.Store.kept store.now) partition) }
    ensures few { result.reports ≤ REPORTS }
    ensures bound { result.seconds ≤ 4294967296 * result.reports }
{
    let mut seen = Seen {
        reports: 0,
        seconds: 0,
    };
    for passed in 0..store.last(partition) {
        let entry = store.read(partition, passed + 1).unwrap();
        seen.reports += 1;
        seen.seconds += u64::from(seconds(&entry.report));
    }
    seen
}

/// Reads all reports by their numbers.
pub fn read_all<S: Store>(store: &S) -> Seen
    ensures reports { result.reports ≡ total (S.Store.kept store.now) }
    ensures seconds { result.seconds ≡ seconds_of_all (S.Store.kept store.now) }
{
    let one = read_partition(store, Partition::One);
    let two = read_partition(store, Partition::Two);
    let three = read_partition(store, Partition::Three);
    Seen {
        reports: one.reports + two.reports + three.reports,
        seconds: one.seconds + two.seconds + three.seconds,
    }
}

// Finds an owner's next report above a number.
#[tactic(auto, using(crate::proofs::Counting::next_counts))]
fn next<S: Store>(store: &S, partition: Partition, owner: usize, above: u32) -> Option<u32>
    ensures { Counts (at (S.Store.kept store.now) partition) owner above result }
{
    store.next(partition, owner, above)
}

// Finds an owner's reports of a partition by rising number, and answers how many there are.
fn find_own<S: Store>(store: &S, partition: Partition, owner: usize) -> usize
    ensures value { result ≡ owned owner (at (S.Store.kept store.now) partition) }
    ensures bound { result ≤ REPORTS }
{
    let mut found = 0;
    let mut above = 0;
    while let Some(number) = next(store, partition, owner, above) {
        found += 1;
        above = number;
    }
    found
}

/// Finds an owner's reports, and answers how many there are.
pub fn find_owner<S: Store>(store: &S, owner: usize) -> usize
    ensures value { result ≡ owned_in owner (S.Store.kept store.now) }
    ensures bound { result ≤ 3 * REPORTS }
{
    find_own(store, Partition::One, owner)
        + find_own(store, Partition::Two, owner)
        + find_own(store, Partition::Three, owner)
}

/// Finds the reports of all owners by next, and answers how many there are.
#[tactic(auto, using(crate::proofs::Counting::below_none, crate::proofs::Counting::below_owner))]
pub fn find_all<S: Store>(store: &S) -> usize
    ensures { result ≡ owned_below 8 (S.Store.kept store.now) }
{
    let mut found = 0;
    for owner in 0..OWNERS {
        found += find_owner(store, owner);
    }
    found
}
