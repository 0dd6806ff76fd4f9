// Fills both stores with a day's reports of eight CompIDs, reads them all back, and says how long each call took.
#![tactic(auto)]

mod day;
mod walk;

use crate::day::OWNERS;
use crate::walk::{fill, find_all, find_owner, read_all};
use console::{About, Task};
use limits::{MESSAGE_BYTES, REPORTS};
use std::io;
use std::process::ExitCode;
use std::rt::Clock;
use std::time::{Duration, Instant};
use store::Store;
use store::records::Records;

const ABOUT: About = About {
    name: "store_bench",
    summary: "Fills the store of records, and then the store of wire bytes, with the 16,384 reports of a made-up day for eight CompIDs. It reads them all by number, finds them all by next, and asks for the reports of CompIDs that have none.",
    words: "What was appended, read and found goes to standard output: the same in each run. The time of a call of each kind, in nanoseconds, goes to standard error. Nothing is read.",
};

// How many owners that have no report are asked for.
const ROUNDS: usize = 100;

// A time in nanoseconds for each of so many.
fn each(time: Duration, count: usize) -> u128 {
    time.as_nanos().checked_div(count as u128).unwrap_or(0)
}

fn ask<S: Store>(store: &S) -> usize {
    (0..ROUNDS)
        .map(|round| find_owner(store, OWNERS.wrapping_add(round)))
        .fold(0, |found, more| found.wrapping_add(more))
}

fn run<R: Print + Eprint + Clock, S: Store>(rt: &R, name: &str, store: &mut S) -> io::Result<()> {
    let start = Instant::now(rt)?;
    let appended = fill(store);
    let append = each(start.elapsed(rt)?, appended);
    println!(rt; "{name}: {appended} reports appended")?;
    let start = Instant::now(rt)?;
    let seen = read_all(store);
    let reports = seen.reports;
    let seconds = seen.seconds;
    let read = each(start.elapsed(rt)?, reports);
    println!(rt;
        "{name}: {reports} reports read by number, with {seconds} seconds on their clocks"
    )?;
    let start = Instant::now(rt)?;
    let found = find_all(store);
    let next = each(start.elapsed(rt)?, found);
    println!(rt; "{name}: {found} reports found by next")?;
    let start = Instant::now(rt)?;
    let none = ask(store);
    let asked = each(start.elapsed(rt)?, 3 * ROUNDS);
    println!(rt; "{name}: {none} reports of owners that have none")?;
    eprintln!(rt;
        "{name}: {append} ns an append, {read} ns a read by number, {next} ns a next, {asked} ns to ask for a next that is not there"
    )
}

/// Both stores in turn.
struct Bench;

impl Task for Bench {
    fn work<R: Print + Eprint + Clock + AllocGlobal>(&mut self, rt: &R) -> io::Result<()> {
        let mut records = Records::new(rt.alloc(), REPORTS)?;
        run(rt, "records", &mut records)?;
        let mut bytes = wire_store::new(rt.alloc(), REPORTS * MESSAGE_BYTES)?;
        run(rt, "wire bytes", &mut bytes)
    }
}

fn main(rt: HostRuntime) -> ExitCode {
    let mut bench = Bench;
    let code = console::run_task(&rt, ABOUT, &mut bench);
    let Bench = bench;
    code
}
