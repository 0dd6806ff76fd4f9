// Questions to a follower, which change nothing.
ghost use Rattle.std.specs.Prelude.{◌≡◌, length};
ghost use Rattle.std.specs.FinMap.{get, len};
ghost use Rattle.partitions.specs.PerPartition.{at};
ghost use Rattle.follower.specs.Following.{is_up, download_of};
ghost use Rattle.follower.specs.Sides.{held_in, is_level};
ghost use Rattle.follower.specs.Orders.{FirstFrom};

use crate::ordered::first_from;
use crate::side::State;
use crate::stage::Stage;
use crate::state::Follower;
use codes::session::Partition;
use reports::standing::Standing;
use reports::standings::Known;

impl Follower {
    /// Where an order stands, by its number; none where it is not known.
    pub fn standing(&self, order: u64) -> Option<Standing>
        ensures { result ≡ get self.now.standings order }
    {
        self.standings.standing(order)
    }

    /// The known order of the lowest number from a given one on, so that one walks through all of them by rising
    /// number; none where none is known from there on.
    pub fn first_from(&self, from: u64) -> Option<Known>
        ensures { FirstFrom self.now.standings from result }
    {
        first_from(&self.standings, from)
    }

    /// How many orders are known.
    pub fn len(&self) -> usize
        ensures { result ≡ len self.now.standings }
    {
        self.standings.len()
    }

    /// The number of the last report of a partition that was folded, 0 for none.
    pub fn place(&self, partition: Partition) -> u32
        ensures { result ≡ (at self.now.sides partition).place }
    {
        self.sides.at(partition).place.get()
    }

    /// Whether a partition is level, behind and with what held, or overrun and how high a number passed.
    pub fn state(&self, partition: Partition) -> &State
        ensures { result.now ≡ (at self.now.sides partition).state }
    {
        &self.sides.at(partition).state
    }

    /// Whether a partition is level.
    pub fn is_level(&self, partition: Partition) -> bool
        ensures { result ≡ is_level (at self.now.sides partition).state }
    {
        self.sides.at(partition).state.is_level()
    }

    /// How many reports a partition holds; only one that is behind holds any.
    pub fn held(&self, partition: Partition) -> usize
        ensures { result ≡ length (held_in (at self.now.sides partition).state) }
    {
        self.sides.at(partition).state.held()
    }

    /// Whether the follower is up.
    pub fn is_up(&self) -> bool
        ensures { result ≡ is_up self.now }
    {
        self.line.is_up()
    }

    /// The download that is asked or runs; none where the follower is not up.
    pub fn download(&self) -> Stage
        ensures { result ≡ download_of self.now }
    {
        self.line.download()
    }
}
