// The other end of the line: a gateway over the lit book and a store of records.
use crate::desk::{MARKET, NAME, PASSWORD};
use anyhow::{Context, bail};
use configuration::config::Config;
use configuration::instrument::Instrument;
use configuration::participant::Participant;
use gateway::gateway::Gateway;
use lit_book::book::LitBook;
use std::alloc::Global;
use store::records::Records;
use texts::values::Time;

/// The gateway of this example.
pub type Venue = Gateway<LitBook, Records>;

/// The desk's line: the place of its CompID in the configuration.
pub const LINE: usize = 0;

/// Eight in the morning, which every call is given.
pub const CLOCK: Time = Time {
    seconds: 28_800,
    microseconds: 0,
};

// One CompID, and one instrument in the first partition.
fn config(heap: Global) -> Option<Config> {
    let desk = Participant::new(NAME.as_bytes(), PASSWORD.as_bytes(), 1, true).ok()?;
    let market = Instrument::new(MARKET.as_bytes(), b"SET1", 1).ok()?;
    Config::new(heap, &[desk], &[market]).ok()
}

/// Starts a day.
pub fn open(heap: Global) -> anyhow::Result<Venue> {
    let config = config(heap).context("not a configuration")?;
    let book = LitBook::new(heap)?;
    let store = Records::new(heap, 16)?;
    match Gateway::start(heap, config, book, store) {
        Ok(gateway) => Ok(gateway),
        Err((_, _, _)) => bail!("the gateway does not start"),
    }
}
