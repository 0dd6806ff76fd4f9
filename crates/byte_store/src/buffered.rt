// A store of bytes: one buffer, in which the entries stand as they were appended, and the places of each partition's.
ghost use Rattle.std.specs.Prelude.{◌≡◌, ◌+◌, ◌<◌, ◌≤◌, length, IfOk, IfSome, MatchOption, Some, None, vec_len, vec_capacity};
ghost use Rattle.std.specs.Option.{option_map};
ghost use Rattle.limits.specs.declared.TheConstants.{MESSAGE_BYTES as LONGEST, REPORTS as MOST};
ghost use Rattle.partitions.specs.Series.{total, mapped};
ghost use Rattle.report_messages.specs.Sent.{Sent};
ghost use Rattle.report_messages.specs.Telling.{report_bytes};
ghost use Rattle.byte_store.specs.Places.{Within, entry_in};
ghost use Rattle.byte_store.specs.Logs.{IsLog};
ghost use Rattle.byte_store.specs.Told.{AllTold};

use crate::codec::{Codec, Number};
use codes::session::Partition;
use limits::{MESSAGE_BYTES, REPORTS};
use partitions::per_partition::PerPartition;
use partitions::series::{Owned, Series, total};
use reports::report::Entry;
use std::alloc::{AllocError, Global};
use store::Store;

/// Where an entry's bytes stand in the buffer, and whose the entry is.
#[derive(Clone, Copy)]
pub struct Place {
    owner: usize,
    start: usize,
    len: usize,
}

impl Owned for Place {
    ghost owner_of = { λ p. p.owner };

    fn owner(&self) -> usize {
        self.owner
    }
}

/// A store of so many bytes, reserved at the start. The buffer is a log: the messages of what was appended, one behind
/// another.
#[derive(Drop)]
pub struct Buffered<C: Codec> {
    codec: C,
    size: usize,
    buffer: Vec<u8>,
    places: PerPartition<Series<Place>>,
    ghost roomy: { size ≤ vec_capacity buffer },
    ghost held: { vec_len buffer ≤ size },
    ghost few: { total places ≤ MOST },
    ghost inside: { Within (vec_len buffer) places },
    ghost logged: { ∥ IsLog report_bytes buffer.items places (mapped (entry_in C.Codec.decoded buffer.items) places) ∥₁ },
    ghost told: { ∥ AllTold (mapped (entry_in C.Codec.decoded buffer.items) places) ∥₁ },
}

// Writes bytes to the front of a buffer, and says how many.
fn put(bytes: &[u8], out: &mut [u8]) -> usize
    requires short { length bytes.now ≤ LONGEST }
    requires room { LONGEST ≤ length out.old }
    ensures { Sent bytes.now out.old out.new result }
{
    out[..bytes.len()].copy_from_slice(bytes);
    bytes.len()
}

impl<C: Codec + Drop> Buffered<C> {
    ghost use Rattle.store.specs.Kept.{empty};
    ghost use Rattle.byte_store.specs.Places.{free_places};
    ghost use Rattle.byte_store.specs.Views.{kept_in, free_in};

    /// A store with so many bytes. Its one error is want of memory.
    pub fn new(alloc: Global, codec: C, size: usize) -> Result<Buffered<C>, AllocError>
        ensures { IfOk result (λ s. (kept_in s ≡ empty) × (free_in s ≡ free_places size 0 0)) }
    {
        let buffer = Vec::with_capacity(alloc, size)?;
        let places = Series::for_each(alloc)?;
        Ok(Buffered {
            codec,
            size,
            buffer,
            places,
        })
    }
}

impl<C: Codec> Buffered<C> {
    ghost use Rattle.keyed.specs.Numbers.{under};
    ghost use Rattle.partitions.specs.PerPartition.{at};
    ghost use Rattle.partitions.specs.Series.{grown};
    ghost use Rattle.report_messages.specs.Told.{ReportTold};
    ghost use Rattle.store.specs.Kept.{next_after};
    ghost use Rattle.store.specs.Messages.{StoredTold, stored_bytes};
    ghost use Rattle.byte_store.specs.Logs.{Messages};
    ghost use Rattle.byte_store.specs.Places.{part, filed, free_places};
    ghost use Rattle.byte_store.specs.Views.{kept_in, free_in};

    fn free_places(&self) -> usize
        ensures { result ≡ free_in self.now }
    {
        let free = (self.size - self.buffer.len()) / MESSAGE_BYTES;
        free.min(REPORTS - total(&self.places))
    }

    fn last_of(&self, partition: Partition) -> u32
        ensures value { result ≡ length (at (kept_in self.now) partition) }
        ensures bound { result ≤ REPORTS }
    {
        self.places.at(partition).last()
    }

    // The bytes at a place.
    fn part(&self, place: Place) -> &[u8]
        requires { place.start + place.len ≤ vec_len self.now.buffer }
        ensures { result.now ≡ part self.now.buffer.items place }
    {
        &self.buffer[place.start..place.start + place.len]
    }

    // The entry at a place.
    fn entry(&self, place: Place) -> Entry
        requires { place.start + place.len ≤ vec_len self.now.buffer }
        ensures { result ≡ entry_in C.Codec.decoded self.now.buffer.items place }
    {
        Entry {
            owner: place.owner,
            report: self.codec.decode(self.part(place)),
        }
    }

    // The entry of a number: one look at its place, and one at its bytes.
    fn entry_of(&self, partition: Partition, number: u32) -> Option<Entry>
        ensures { result ≡ under (at (kept_in self.now) partition) number }
    {
        let place = self.places.at(partition).item(number)?;
        Some(self.entry(place))
    }

    fn next_number(&self, partition: Partition, owner: usize, above: u32) -> Option<u32>
        ensures { result ≡ next_after (at (kept_in self.now) partition) owner above }
    {
        self.places.at(partition).next(owner, above)
    }

    /// The bytes kept of the report of a number, if there is one: those of its message.
    pub fn message(&self, partition: Partition, number: u32) -> Option<&[u8]>
        ensures bytes { let entry = under (at (kept_in self.now) partition) number in MatchOption result (entry ≡ None)
            (λ m. option_map (λ e. report_bytes partition number e.report) entry ≡ Some m.now) }
        ensures short { IfSome result (λ m. length m.now ≤ LONGEST) }
        ensures told { StoredTold (kept_in self.now) partition number }
    {
        let place = self.places.at(partition).item(number)?;
        Some(self.part(place))
    }

    // Hands out those bytes as they are kept: nothing is decoded.
    fn write_kept(&self, partition: Partition, number: u32, out: &mut [u8]) -> usize
        requires { LONGEST ≤ length out.old }
        ensures sent { Sent (stored_bytes (kept_in self.now) partition number) out.old out.new result }
        ensures told { StoredTold (kept_in self.now) partition number }
    {
        match self.message(partition, number) {
            Some(message) => put(message, out),
            None => 0,
        }
    }

    /// All bytes kept: the messages of all reports, one behind another in the order in which they were appended.
    pub fn bytes(&self) -> &[u8]
        ensures { Messages report_bytes (kept_in self.now) result.now }
    {
        &self.buffer
    }

    // Puts the bytes of a report under its partition's next number behind the others, and their place behind those of
    // its partition.
    fn keep(&mut self, partition: Partition, place: Place, bytes: &[u8])
        requires start { place.start ≡ vec_len self.old.buffer }
        requires len { place.len ≡ length bytes.now }
        requires coded { let number = length (at (kept_in self.old) partition) + 1 in
            bytes.now ≡ report_bytes partition number (C.Codec.decoded bytes.now) }
        requires told { let number = length (at (kept_in self.old) partition) + 1 in
            ReportTold partition number (C.Codec.decoded bytes.now) }
        requires room { vec_len self.old.buffer + length bytes.now ≤ self.old.size }
        requires few { total self.old.places < REPORTS }
        ensures kept { let entry = filed place.owner (C.Codec.decoded bytes.now) in
            kept_in self.new ≡ grown (kept_in self.old) partition entry }
        ensures free { let used = vec_len self.old.buffer + length bytes.now in
            free_in self.new ≡ free_places self.old.size used (total self.old.places + 1) }
    {
        let _ = self.buffer.extend_from_slice(bytes);
        self.places.at_mut(partition).push(place);
    }

    // Writes a report behind the others, where there is room.
    fn write(&mut self, partition: Partition, number: Number, entry: Entry)
        requires room { 0 < free_in self.old }
        requires next { number.value ≡ length (at (kept_in self.old) partition) + 1 }
        ensures kept { kept_in self.new ≡ grown (kept_in self.old) partition entry }
        ensures fewer { free_in self.new ≤ free_in self.old }
        ensures one { free_in self.old ≤ free_in self.new + 1 }
    {
        let mut bytes = [0; MESSAGE_BYTES];
        let len = self
            .codec
            .encode(partition, number, entry.report, &mut bytes);
        let bytes = &bytes[..len];
        let place = Place {
            owner: entry.owner,
            start: self.buffer.len(),
            len: bytes.len(),
        };
        self.keep(partition, place, bytes);
    }
}

impl<C: Codec> Store for Buffered<C> {
    ghost use Rattle.byte_store.specs.Views.{kept_in, free_in};
    ghost use Rattle.byte_store.specs.Room.{room_held};

    ghost kept = { λ s. kept_in s };

    ghost free = { λ s. free_in s };

    ghost room = { λ s. room_held s };

    fn places(&self) -> usize {
        self.free_places()
    }

    fn last(&self, partition: Partition) -> u32 {
        self.last_of(partition)
    }

    fn append(&mut self, partition: Partition, entry: Entry) -> Option<u32> {
        if self.free_places() == 0 {
            return None;
        }
        let number = self.last_of(partition) + 1;
        self.write(partition, Number { value: number }, entry);
        Some(number)
    }

    fn read(&self, partition: Partition, number: u32) -> Option<Entry> {
        self.entry_of(partition, number)
    }

    fn write_message(&self, partition: Partition, number: u32, out: &mut [u8]) -> usize {
        self.write_kept(partition, number, out)
    }

    fn next(&self, partition: Partition, owner: usize, above: u32) -> Option<u32> {
        self.next_number(partition, owner, above)
    }
}
