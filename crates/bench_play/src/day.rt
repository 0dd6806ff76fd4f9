// A day of both ends, over any of the engines and either store.
ghost use Rattle.std.specs.Prelude.{◌≡◌, IfOk, IsOk, OnOk, OnErr};
ghost use Rattle.bench_play.specs.Days.{Answers, Guides, Keeps, desk_of, log_of, state_of};
ghost use Rattle.both_ends.specs.Agreement.{Agrees};
ghost use Rattle.both_ends.specs.Allowed.{Allowed, after_log, quiet};
ghost use Rattle.both_ends.specs.Catching.{CanCatchUp};
ghost use Rattle.both_ends.specs.Laws.{state_of as place_state};
ghost use Rattle.codes.specs.declared.session.Partition.{Partition};
ghost use Rattle.follower.specs.declared.side.State.TheVariants.{Level};
ghost use Rattle.both_ends.specs.Asking.{made};
ghost use Rattle.both_ends.specs.Both.{IsLast};
ghost use Rattle.both_ends.specs.Deciding.{verdict};
ghost use Rattle.both_ends.specs.declared.entry.Step.TheVariants.{Make};

use crate::opening::{Engine, Opening, Shelf};
use crate::show;
use crate::tables::{Look, Shown};
use book_pair::pair::BookPair;
use both_ends::allowed::Breach;
use both_ends::call::Call;
use both_ends::entry::Entry;
use both_ends::state::BothEnds;
use byte_store::buffered::Buffered;
use configuration::config::{Config, StartRefusal};
use configuration::instrument::Instrument;
use configuration::participant::Participant;
use dark_book::book::DarkBook;
use follower::state::Follower;
use lit_book::book::LitBook;
use matching::matcher::Matcher;
use matching::midpoint::MidpointRefusal;
use matching::tape::{Line, Tape};
use std::alloc::{AllocError, Global};
use std::io;
use store::Store;
use store::records::Records;
use texts::values::{Price, Time};
use wire_store::codec::WireCodec;

type WireStore = Buffered<WireCodec>;

type Pair = BookPair<LitBook, DarkBook>;

/// Both ends over one of the four engines and one of the two stores.
#[derive(Drop)]
pub enum Day {
    LitRecords(BothEnds<LitBook, Records, Look, Shown>),
    LitWire(BothEnds<LitBook, WireStore, Look, Shown>),
    DarkRecords(BothEnds<DarkBook, Records, Look, Shown>),
    DarkWire(BothEnds<DarkBook, WireStore, Look, Shown>),
    PairRecords(BothEnds<Pair, Records, Look, Shown>),
    PairWire(BothEnds<Pair, WireStore, Look, Shown>),
    TapeRecords(BothEnds<Tape, Records, Look, Shown>),
    TapeWire(BothEnds<Tape, WireStore, Look, Shown>),
}

// Each day's two ends, whichever engine and store they have.
macro_rules! of_day {
    ($day:expr, $both:ident => $work:expr) => {
        match $day {
            Day::LitRecords($both) => $work,
            Day::LitWire($both) => $work,
            Day::DarkRecords($both) => $work,
            Day::DarkWire($both) => $work,
            Day::PairRecords($both) => $work,
            Day::PairWire($both) => $work,
            Day::TapeRecords($both) => $work,
            Day::TapeWire($both) => $work,
        }
    };
}

fn started<M: Matcher + Drop, S: Store + Drop>(
    heap: Global,
    config: Config,
    matcher: M,
    store: S,
) -> Result<BothEnds<M, S, Look, Shown>, StartRefusal> {
    match BothEnds::start(heap, config, matcher, store) {
        Ok(both) => Ok(both),
        Err((refusal, _, _)) => Err(refusal),
    }
}

fn lit(heap: Global, config: Config, shelf: Shelf) -> Result<Day, StartRefusal> {
    let book = LitBook::new(heap)?;
    match shelf {
        Shelf::Records(places) => {
            let store = Records::new(heap, places)?;
            Ok(Day::LitRecords(started(heap, config, book, store)?))
        }
        Shelf::Wire(bytes) => {
            let store = wire_store::new(heap, bytes)?;
            Ok(Day::LitWire(started(heap, config, book, store)?))
        }
    }
}

fn dark(heap: Global, config: Config, shelf: Shelf) -> Result<Day, StartRefusal> {
    let book = DarkBook::new(heap)?;
    match shelf {
        Shelf::Records(places) => {
            let store = Records::new(heap, places)?;
            Ok(Day::DarkRecords(started(heap, config, book, store)?))
        }
        Shelf::Wire(bytes) => {
            let store = wire_store::new(heap, bytes)?;
            Ok(Day::DarkWire(started(heap, config, book, store)?))
        }
    }
}

fn pair(heap: Global, config: Config, shelf: Shelf) -> Result<Day, StartRefusal> {
    let lit = LitBook::new(heap)?;
    let dark = DarkBook::new(heap)?;
    let Ok(pair) = BookPair::join(lit, dark) else {
        return Err(StartRefusal::NotEmpty);
    };
    match shelf {
        Shelf::Records(places) => {
            let store = Records::new(heap, places)?;
            Ok(Day::PairRecords(started(heap, config, pair, store)?))
        }
        Shelf::Wire(bytes) => {
            let store = wire_store::new(heap, bytes)?;
            Ok(Day::PairWire(started(heap, config, pair, store)?))
        }
    }
}

fn tape(heap: Global, config: Config, lines: Vec<Line>, shelf: Shelf) -> Result<Day, StartRefusal> {
    let tape = Tape::new(heap, lines)?;
    match shelf {
        Shelf::Records(places) => {
            let store = Records::new(heap, places)?;
            Ok(Day::TapeRecords(started(heap, config, tape, store)?))
        }
        Shelf::Wire(bytes) => {
            let store = wire_store::new(heap, bytes)?;
            Ok(Day::TapeWire(started(heap, config, tape, store)?))
        }
    }
}

impl Day {
    /// Starts a day.
    pub fn start(heap: Global, opening: Opening) -> Result<Day, StartRefusal> {
        let (config, engine, shelf) = opening.finish(heap);
        let config = config?;
        match engine {
            Engine::Lit => lit(heap, config, shelf),
            Engine::Dark => dark(heap, config, shelf),
            Engine::Pair => pair(heap, config, shelf),
            Engine::Tape(lines) => tape(heap, config, lines, shelf),
        }
    }

    /// Makes a call on its end, and keeps it with what came back. Its one error is want of memory; then nothing was called.
    pub fn make(&mut self, call: Call) -> Result<(), AllocError>
        ensures made { OnOk result (Keeps (Make call) self.old self.new) }
        ensures error { OnErr result (self.new ≡ self.old) }
    {
        of_day!(self, both => both.make(call))
    }

    /// Tells the matcher a midpoint, keeps the answer and hands it out; all that both ends show stays. Its one error is want of
    /// memory; then nothing was told.
    pub fn midpoint(
        &mut self,
        instrument: usize,
        price: Option<Price>,
    ) -> Result<Result<(), MidpointRefusal>, AllocError>
        ensures told { IfOk result (λ r. Guides instrument price r self.old self.new) }
        ensures error { OnErr result (self.new ≡ self.old) }
    {
        of_day!(self, both => both.midpoint(instrument, price))
    }

    /// Asks both ends for a part of their tables, keeps the answer and hands it out. Its one error is want of memory; then
    /// nothing is kept.
    pub fn ask(&mut self, question: Look) -> Result<Shown, AllocError>
        ensures answered { IfOk result (λ a. Answers question a self.old self.new) }
        ensures error { OnErr result (self.new ≡ self.old) }
    {
        of_day!(self, both => both.ask(question))
    }

    /// Downloads what the follower misses on a line until every partition is level, by calls that the line allows; each is
    /// kept. A desk that can catch up does. Its one error is want of memory; what was called until then stands.
    pub fn catch_up(&mut self, line: usize, time: Time) -> Result<(), AllocError>
        ensures allowed { Allowed line (made (log_of self.old)) → Allowed line (made (log_of self.new)) }
        ensures level { OnOk result (CanCatchUp line (made (log_of self.old)) (state_of self.old) (desk_of self.old)
            → (p : Partition) → place_state (desk_of self.new) p ≡ Level) }
    {
        of_day!(self, both => both.catch_up(line, time))
    }

    /// What was called and asked, in order, each with what came back.
    pub fn log(&self) -> &[Entry<Look, Shown>]
        ensures { result.now ≡ log_of self.now }
    {
        of_day!(self, both => both.log())
    }

    /// What was called or asked last, with what came back.
    pub fn last(&self) -> Option<&Entry<Look, Shown>>
        ensures { IsLast (log_of self.now) result }
    {
        of_day!(self, both => both.last())
    }

    /// Whether the line of a CompID allows what was called, or the first breach. Where it does, both ends agree.
    pub fn verdict(&self, line: usize) -> Result<Result<(), Breach>, AllocError>
        ensures decided { IfOk result (λ r. r ≡ verdict (after_log line (made (log_of self.now)) quiet)) }
        ensures agreed { IfOk result (λ r. IsOk r
            → Agrees line (made (log_of self.now)) (state_of self.now) (desk_of self.now)) }
    {
        of_day!(self, both => both.verdict(line))
    }

    /// The follower.
    pub fn follower(&self) -> &Follower
        ensures { result.now ≡ (desk_of self.now).follower }
    {
        of_day!(self, both => both.follower())
    }

    /// Whether a download is owed.
    pub fn owes(&self) -> bool {
        of_day!(self, both => both.token().owed().is_some())
    }

    /// Shows every order, and how many orders, trades and reports there are.
    pub fn show_orders<R: Print>(&self, rt: &R) -> io::Result<()> {
        of_day!(self, both => show::orders(rt, both.gateway()))
    }

    /// Shows what the gateway's day came to.
    pub fn show_close<R: Print>(&self, rt: &R) -> io::Result<()> {
        of_day!(self, both => show::close(rt, both.gateway()))
    }

    /// How many orders there are: the highest number.
    pub fn order_count(&self) -> u64 {
        of_day!(self, both => both.gateway().venue().order_count())
    }

    /// The instruments, in the order in which they were given.
    pub fn instruments(&self) -> &[Instrument]
        ensures { result.now ≡ (state_of self.now).venue.instruments }
    {
        of_day!(self, both => both.gateway().venue().instruments())
    }

    /// The CompIDs, each with the line of its place.
    pub fn participants(&self) -> &[Participant]
        ensures { result.now ≡ (state_of self.now).participants }
    {
        of_day!(self, both => both.gateway().participants())
    }
}
