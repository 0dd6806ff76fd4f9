// The orders of a day and the reports that tell them, kept in step: whatever becomes of an order is told to its owner.
ghost use Rattle.std.specs.Prelude.{◌≡◌, ◌+◌, ◌<◌, ◌≤◌, true, Some, is_some, length, [], ◌∷◌};
ghost use Rattle.keyed.specs.Numbers.{under};
ghost use Rattle.limits.specs.declared.TheConstants.{ORDERS};
ghost use Rattle.orders.specs.Rows.{orderable};
ghost use Rattle.orders.specs.Kept.{kept_from};
ghost use Rattle.partitions.specs.PerPartition.{at};
ghost use Rattle.partitions.specs.Series.{grown};
ghost use Rattle.changes.specs.Changes.{after};
ghost use Rattle.changes.specs.Laws.{and_also};
ghost use Rattle.venue.specs.Ledger.{Recorded, Uses, appended, changed, entered, entries_of, expired, ledger, next_report, report_count};
ghost use Rattle.venue.specs.Books.{open_of};

use changes::change::{Change, Heading, Reports};
use codes::session::Partition;
use configuration::instrument::Instrument;
use orders::order::Order;
use orders::row::{Ask, Ending, Terms};
use orders::table::Table;
use reports::report::{Entry, ExecutionReport, Report};
use store::Store;
use texts::values::Time;

/// The instruments, the orders and the store of a day.
#[derive(Drop)]
pub struct Ledger<S: Store> {
    pub(crate) instruments: Vec<Instrument>,
    pub(crate) table: Table,
    pub(crate) store: S,
}

// Appends a report, and answers its number.
fn append<S: Store>(store: &mut S, partition: Partition, entry: Entry) -> u32
    requires { 0 < S.free store.old }
    ensures number { result ≡ length (at (S.kept store.old) partition) + 1 }
    ensures kept { S.kept store.new ≡ grown (S.kept store.old) partition entry }
    ensures free { Uses 1 (S.free store.old) (S.free store.new) }
{
    store.append(partition, entry).unwrap()
}

fn entry_of(owner: usize, report: ExecutionReport) -> Entry
    ensures { entries_of owner (report ∷ []) ≡ result ∷ [] }
{
    Entry {
        owner,
        report: Report::Execution(report),
    }
}

// Appends the reports of a change, and answers the first one's number.
fn tell<S: Store>(store: &mut S, partition: Partition, owner: usize, told: &Reports) -> u32
    requires { length (and_also told.now.report told.now.restated) ≤ S.free store.old }
    ensures number { result ≡ length (at (S.kept store.old) partition) + 1 }
    ensures kept { S.kept store.new ≡ appended (S.kept store.old) partition
        (entries_of owner (and_also told.now.report told.now.restated)) }
    ensures free { Uses (length (and_also told.now.report told.now.restated)) (S.free store.old) (S.free store.new) }
{
    match told.restated {
        None => append(store, partition, entry_of(owner, told.report)),
        Some(restated) => {
            let number = append(store, partition, entry_of(owner, told.report));
            let _ = append(store, partition, entry_of(owner, restated));
            number
        }
    }
}

impl<S: Store> Ledger<S> {
    // The order of a number that has one.
    pub(crate) fn order(&self, number: u64) -> Order
        requires there { is_some (under self.now.table number) ≡ true }
        requires numbered { kept_from 1 self.now.table ≡ true }
        ensures there { under self.now.table number ≡ Some result }
        ensures number { result.number ≡ number }
    {
        self.table.order(number).unwrap()
    }

    // Adds an order under the next number.
    pub(crate) fn open(&mut self, terms: Terms, ask: Ask, time: Time)
        requires orderable { orderable ask.quantity ≡ true }
        requires room { length self.old.table < ORDERS }
        requires placed { terms.instrument < length self.old.instruments.items }
        requires place { 0 < S.free self.old.store }
        ensures after { ledger self.new.table (S.kept self.new.store)
            ≡ entered self.old.instruments.items time terms ask (ledger self.old.table (S.kept self.old.store)) }
        ensures same { self.new.instruments ≡ self.old.instruments }
        ensures free { Uses 1 (S.free self.old.store) (S.free self.new.store) }
    {
        let instrument = self.instruments[terms.instrument];
        let heading = Heading {
            symbol: instrument.symbol,
            time,
        };
        let order = self.table.add(terms, ask).unwrap();
        let told = Change::Accept(terms, ask).reports(heading, order);
        tell(&mut self.store, instrument.partition, terms.owner, &told);
    }

    // Makes a change of an order that is there, and answers the number of the first report that tells it.
    pub(crate) fn change(&mut self, order: Order, change: &Change, time: Time) -> u32
        requires there { under self.old.table order.number ≡ Some order }
        requires allowed { is_some (after order.number change.now (Some order)) ≡ true }
        requires numbered { kept_from 1 self.old.table ≡ true }
        requires placed { order.terms.instrument < length self.old.instruments.items }
        requires places { report_count change.now ≤ S.free self.old.store }
        ensures number { result ≡ next_report self.old.instruments.items order.number
            (ledger self.old.table (S.kept self.old.store)) }
        ensures after { ledger self.new.table (S.kept self.new.store)
            ≡ changed self.old.instruments.items time order.number change.now
            (ledger self.old.table (S.kept self.old.store)) }
        ensures same { self.new.instruments ≡ self.old.instruments }
        ensures free { Uses (report_count change.now) (S.free self.old.store) (S.free self.new.store) }
    {
        let row = order.row();
        let instrument = self.instruments[row.terms.instrument];
        let heading = Heading {
            symbol: instrument.symbol,
            time,
        };
        let changed = change.after(row.number, Some(order)).unwrap();
        self.table.write(changed);
        let told = change.reports(heading, changed);
        tell(
            &mut self.store,
            instrument.partition,
            row.terms.owner,
            &told,
        )
    }

    // Ends an open order that its matcher has let go of, and tells its owner under the order's own client order id.
    pub(crate) fn expire(&mut self, number: u64, time: Time)
        requires recorded { Recorded self.old.instruments.items self.old.table (S.kept self.old.store) }
        requires opened { is_some (open_of (under self.old.table number)) ≡ true }
        requires place { 1 ≤ S.free self.old.store }
        ensures after { ledger self.new.table (S.kept self.new.store)
            ≡ expired self.old.instruments.items time number (ledger self.old.table (S.kept self.old.store)) }
        ensures same { self.new.instruments ≡ self.old.instruments }
        ensures free { Uses 1 (S.free self.old.store) (S.free self.new.store) }
    {
        let order = self.order(number);
        let expiry = Change::Withdraw(Ending::Expired, order.row().client);
        self.change(order, &expiry, time);
    }

    // Appends a report that is of no order.
    pub(crate) fn note(&mut self, partition: Partition, entry: Entry)
        requires { 0 < S.free self.old.store }
        ensures rows { self.new.table ≡ self.old.table }
        ensures kept { S.kept self.new.store ≡ grown (S.kept self.old.store) partition entry }
        ensures same { self.new.instruments ≡ self.old.instruments }
        ensures free { Uses 1 (S.free self.old.store) (S.free self.new.store) }
    {
        append(&mut self.store, partition, entry);
    }
}
