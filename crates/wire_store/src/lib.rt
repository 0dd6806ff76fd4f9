// The store of wire bytes: each entry is the bytes of its own message, as they are sent.
#![tactic(auto)]

ghost use Rattle.std.specs.Prelude.{◌≡◌, IfOk, MatchOption, Some, None};
ghost use Rattle.std.specs.Option.{option_map};
ghost use Rattle.keyed.specs.Numbers.{under};
ghost use Rattle.partitions.specs.PerPartition.{at};
ghost use Rattle.report_messages.specs.Telling.{report_bytes};
ghost use Rattle.store.specs.Kept.{empty};
ghost use Rattle.byte_store.specs.Logs.{Messages};
ghost use Rattle.byte_store.specs.Places.{free_places};
ghost use Rattle.byte_store.specs.Views.{kept_in, free_in};

use crate::codec::WireCodec;
use byte_store::buffered::Buffered;
use codes::session::Partition;
use std::alloc::{AllocError, Global};

pub mod codec;

/// A store of so many wire bytes that has no report yet. Its one error is want of memory.
pub fn new(alloc: Global, size: usize) -> Result<Buffered<WireCodec>, AllocError>
    ensures { IfOk result (λ s. (kept_in s ≡ empty) × (free_in s ≡ free_places size 0 0)) }
{
    Buffered::new(alloc, WireCodec, size)
}

/// The bytes kept of the report of a number, if there is one: the very message that tells it under this number.
pub fn message(store: &Buffered<WireCodec>, partition: Partition, number: u32) -> Option<&[u8]>
    ensures { let entry = under (at (kept_in store.now) partition) number in MatchOption result (entry ≡ None)
        (λ m. option_map (λ e. report_bytes partition number e.report) entry ≡ Some m.now) }
{
    store.message(partition, number)
}

/// All bytes kept: the messages of all reports, one behind another in the order in which they were appended.
pub fn bytes(store: &Buffered<WireCodec>) -> &[u8]
    ensures { Messages report_bytes (kept_in store.now) result.now }
{
    store.bytes()
}
