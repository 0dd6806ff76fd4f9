// The limits of a day and of a message, each in one place.
#![tactic(auto)]

/// How many orders a day has room for, at the gateway and at each owner; a lit book takes as many at a time.
pub const ORDERS: usize = 256;

/// How many trades a day has room for.
pub const TRADES: usize = 512;

/// How many reports a day has room for, in all partitions together.
pub const REPORTS: usize = 16_384;

/// The most shares of one order.
pub const SHARES: u32 = 1_000_000_000;

/// How many Missed Message Requests of a CompID a day accepts.
pub const REQUESTS: u8 = 48;

/// The most reports that one download hands out.
pub const DOWNLOADED: u8 = 64;

/// How many CompIDs a gateway serves, each with a line of its own.
pub const COMP_IDS: usize = 8;

/// How many instruments a gateway serves.
pub const INSTRUMENTS: usize = 32;

/// How many bytes the longest message has, and so the longest report that a store keeps.
pub const MESSAGE_BYTES: usize = 145;
