// What a script says of a gateway before it starts.
use bench_words::tape::Tape;
use configuration::config::{Config, StartRefusal};
use configuration::instrument::Instrument;
use configuration::participant::Participant;
use limits::REPORTS;
use matching::tape::Line;
use std::alloc::{AllocError, Global};

/// The matching engine that a gateway is to have.
#[derive(Drop)]
pub enum Engine {
    Lit,
    Dark,
    /// The lit and the dark book, as one.
    Pair,
    /// A tape of these trades.
    Tape(Vec<Line>),
}

/// The store of reports that it is to have.
#[derive(Clone, Copy)]
pub enum Shelf {
    /// So many places for records.
    Records(usize),
    /// So many bytes.
    Wire(usize),
}

/// What the lines of the configuration came to. With none that says otherwise, a lit book and a store of records with
/// as many places as a day can need.
#[derive(Drop)]
pub struct Opening {
    participants: Vec<Participant>,
    instruments: Vec<Instrument>,
    /// Whether a line had a name that fits no field, or a partition that there is none of.
    unfit: bool,
    engine: Engine,
    shelf: Shelf,
}

impl Opening {
    /// No line yet.
    pub fn new(heap: Global) -> Opening {
        Opening {
            participants: Vec::new(heap),
            instruments: Vec::new(heap),
            unfit: false,
            engine: Engine::Lit,
            shelf: Shelf::Records(REPORTS),
        }
    }

    /// A line of a CompID; that its texts do not fit is told by `finish`. Its one error is want of memory.
    pub fn comp_id(
        &mut self,
        name: &str,
        password: &str,
        firm: u32,
        ends: bool,
    ) -> Result<(), AllocError> {
        match Participant::new(name.as_bytes(), password.as_bytes(), firm, ends) {
            Ok(participant) => self.participants.push(participant)?,
            Err(_) => self.unfit = true,
        }
        Ok(())
    }

    /// A line of an instrument; that its texts do not fit, or that there is no such partition, is told by `finish`. Its
    /// one error is want of memory.
    pub fn instrument(
        &mut self,
        symbol: &str,
        segment: &str,
        partition: u8,
    ) -> Result<(), AllocError> {
        match Instrument::new(symbol.as_bytes(), segment.as_bytes(), partition) {
            Ok(instrument) => self.instruments.push(instrument)?,
            Err(_) => self.unfit = true,
        }
        Ok(())
    }

    /// The engine to start with.
    pub fn engine(&mut self, engine: Engine) {
        self.engine = engine;
    }

    /// The store to start with.
    pub fn shelf(&mut self, shelf: Shelf) {
        self.shelf = shelf;
    }

    /// The configuration, if it is one, with the engine and the store that go with it.
    pub fn finish(self, heap: Global) -> (Result<Config, StartRefusal>, Engine, Shelf) {
        let Opening {
            participants,
            instruments,
            unfit,
            engine,
            shelf,
        } = self;
        let config = if unfit {
            Err(StartRefusal::BadConfiguration)
        } else {
            Config::new(heap, &participants, &instruments)
        };
        (config, engine, shelf)
    }
}
