// What a follower keeps.
ghost use Rattle.std.specs.Prelude.{◌≡◌, IfOk};
ghost use Rattle.follower.specs.Following.{start};

use crate::line::Line;
use crate::side::Side;
use partitions::per_partition::PerPartition;
use reports::standings::Standings;
use std::alloc::{AllocError, Global};
use std::marker::Model;

/// A desk's own table of what its orders have open: in a contract, what it knows of each order, each partition's
/// place and state, and whether it is up, with its download then.
#[derive(Drop)]
pub struct Follower {
    pub(crate) standings: Standings,
    // where the reports of a hold are folded to see whether one is refused
    pub(crate) trial: Standings,
    pub(crate) sides: PerPartition<Side>,
    pub(crate) line: Line,
}

impl Model for Follower {
    ghost use Rattle.std.specs.Coded.{codes};
    ghost use Rattle.std.specs.FinMap as map;
    ghost use Rattle.reports.specs.Known.{known};
    ghost use Rattle.follower.specs.Following.{Following};

    ghost Value = { Following };

    ghost coded = { Prim.hlevel (codes, map.code) };

    ghost view = { λ f. record { standings = known f.standings; sides = f.sides; line = f.line } };
}

impl Follower {
    /// Without orders, all places 0, all partitions behind, not up and with no download. All the memory that it
    /// needs is reserved here, and no call allocates.
    pub fn new(alloc: Global) -> Result<Follower, AllocError>
        ensures { IfOk result (λ f. f ≡ start) }
    {
        let standings = Standings::new(alloc)?;
        let trial = Standings::new(alloc)?;
        Ok(Follower {
            standings,
            trial,
            sides: PerPartition {
                one: Side::new(),
                two: Side::new(),
                three: Side::new(),
            },
            line: Line::Away,
        })
    }
}
