// How far a download is.
ghost use Rattle.std.specs.Prelude.{◌≡◌};

use codes::session::Partition;

/// No download; one that is asked of a partition; one that runs.
#[derive(Clone, Copy, Debug, PartialEq)]
pub enum Stage {
    Idle,
    Asked(Partition),
    Running(Partition),
}

impl Stage {
    ghost use Rattle.follower.specs.Owing.{awaited};

    /// The partition of the download that is asked or runs.
    pub fn awaited(self) -> Option<Partition>
        ensures { result ≡ awaited self }
    {
        match self {
            Stage::Idle => None,
            Stage::Asked(partition) | Stage::Running(partition) => Some(partition),
        }
    }
}
