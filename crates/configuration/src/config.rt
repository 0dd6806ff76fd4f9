// What a gateway is started with: its CompIDs, each with the line of its place in the list, and its instruments.
ghost use Rattle.std.specs.Prelude.{◌≡◌, ◌≤◌, true, length};
ghost use Rattle.texts.specs.Bytes.{said};
ghost use Rattle.limits.specs.declared.TheConstants.{COMP_IDS as MOST_COMP_IDS, INSTRUMENTS as MOST_INSTRUMENTS};
ghost use Rattle.configuration.specs.Names.{all_differ};

use crate::instrument::Instrument;
use crate::naming::all_differ;
use crate::participant::Participant;
use limits::{COMP_IDS, INSTRUMENTS};
use std::alloc::{AllocError, Global};

/// Why a gateway is not started: its configuration is over the limits or repeats a name, its matcher or its store is
/// not empty, or memory is short.
#[derive(Clone, Copy, Debug, PartialEq)]
pub enum StartRefusal {
    BadConfiguration,
    NotEmpty,
    NoMemory,
}

impl StartRefusal {
    ghost use Rattle.configuration.specs.Configs.{start_number};

    /// The number of the refusal; want of memory has none.
    pub fn number(self) -> Option<u8>
        ensures { result ≡ start_number self }
    {
        match self {
            StartRefusal::BadConfiguration => Some(60),
            StartRefusal::NotEmpty => Some(61),
            StartRefusal::NoMemory => None,
        }
    }
}

impl From<AllocError> for StartRefusal {
    ghost use Rattle.configuration.specs.declared.config.StartRefusal.TheVariants.{NoMemory};

    ghost from_gives = { λ _ e. e ≡ NoMemory };

    fn from(_error: AllocError) -> StartRefusal {
        StartRefusal::NoMemory
    }
}

/// A configuration within the limits: at most 8 CompIDs and 32 instruments, no name among either twice.
#[derive(Drop)]
pub struct Config {
    pub participants: Vec<Participant>,
    pub instruments: Vec<Instrument>,
    ghost few_participants: { length participants.items ≤ MOST_COMP_IDS },
    ghost few_instruments: { length instruments.items ≤ MOST_INSTRUMENTS },
    ghost names_differ: { all_differ (λ p. said p.name.bytes) participants.items ≡ true },
    ghost symbols_differ: { all_differ (λ i. said i.symbol.bytes) instruments.items ≡ true },
}

impl Config {
    ghost use Rattle.configuration.specs.Configs.{Configures};

    /// Refused over the limits, and where a CompID's name or a symbol is repeated.
    pub fn new(
        alloc: Global,
        participants: &[Participant],
        instruments: &[Instrument],
    ) -> Result<Config, StartRefusal>
        ensures { Configures participants.now instruments.now result }
    {
        let fits = participants.len() <= COMP_IDS && instruments.len() <= INSTRUMENTS;
        if !fits || !all_differ(participants) || !all_differ(instruments) {
            return Err(StartRefusal::BadConfiguration);
        }
        let participants = Vec::from_slice(alloc, participants)?;
        let instruments = Vec::from_slice(alloc, instruments)?;
        Ok(Config {
            participants,
            instruments,
        })
    }
}
