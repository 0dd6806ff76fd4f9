// Three things, one for each partition.
ghost use Rattle.std.specs.Borrow.{sem};
ghost use Rattle.std.specs.Prelude.{◌≡◌};

use codes::session::Partition;

/// One thing for each partition.
#[derive(Clone, Copy, Drop)]
pub struct PerPartition<T> {
    pub one: T,
    pub two: T,
    pub three: T,
}

impl<T> PerPartition<T> {
    ghost use Rattle.partitions.specs.PerPartition.{at, LendsAt};

    /// The thing of a partition.
    pub fn at(&self, partition: Partition) -> &T
        ensures { result.now ≡ at self.now partition }
    {
        match partition {
            Partition::One => &self.one,
            Partition::Two => &self.two,
            Partition::Three => &self.three,
        }
    }

    /// What is written through the result is written for that partition alone.
    pub fn at_mut(&mut self, partition: Partition) -> &mut T
        ensures* writes_back { sem 𝓛 (LendsAt T.row self.entry partition result) }
        ensures value { result.now ≡ at self.old partition }
    {
        match partition {
            Partition::One => &mut self.one,
            Partition::Two => &mut self.two,
            Partition::Three => &mut self.three,
        }
    }
}
